//! The rows of a table.

ghost use Rattle.state_tables.specs.Coded.{GroupedRows, code_of, coded_at, list_of};
ghost use Rattle.state_tables.specs.StateSetView.{set_of, width_of};
ghost use Rattle.state_tables.specs.Table.{row_at};
ghost use Rattle.state_tables.specs.TableRows.{HaveSets, sets_in};
ghost use Rattle.std.specs.Bool.{OnTrue};
ghost use Rattle.std.specs.Prelude.{◌≡◌, ◌<◌, get_or, length, ◌↔◌, IfOk, IsTrue};

use crate::interner::Interner;
use crate::state_set::{StateSet, is_same};
use crate::table_sets::TableSets;
use span_types::NoMemory;
use std::marker::Model;

/// A row: one more than the state that is reached without marks, or 0 for none, and the index of the set of those that
/// are reached with some.
#[derive(Clone, Copy)]
pub(crate) struct CodedRow {
    pub(crate) code: u16,
    pub(crate) set: u16,
}

/// The row of each class of states. Rows with the same set share it. A row takes 4 bytes besides its set.
#[derive(Drop)]
pub(crate) struct TableRows {
    rows: Vec<CodedRow>,
    sets: TableSets,
}

impl Model for TableRows {
    ghost use Rattle.state_tables.specs.Coded.{GroupedRows};
    ghost use Rattle.state_tables.specs.TableRows.{HaveSets, sets_in};

    ghost Value = { GroupedRows };

    ghost view = { λ t. record { width = (sets_in t.sets).width; sets = (sets_in t.sets).sets; rows = t.rows.items } };

    ghost invariant = { λ t. HaveSets (sets_in t.sets).sets t.rows.items };
}

impl TableRows {
    /// These rows, which have these sets.
    pub(crate) fn new(rows: Vec<CodedRow>, sets: TableSets) -> TableRows
        requires { HaveSets (sets_in sets).sets rows.items }
        ensures { result ≡ record { width = (sets_in sets).width; sets = (sets_in sets).sets; rows = rows.items } }
    {
        TableRows { rows, sets }
    }

    /// The number of rows.
    pub(crate) fn len(&self) -> usize
        ensures rows { result ≡ length self.now.rows }
        ensures list { result ≡ length (list_of self.now).rows }
    {
        self.rows.len()
    }

    /// The number of words of each set.
    pub(crate) fn width(&self) -> usize
        ensures { result ≡ self.now.width }
    {
        self.sets.width()
    }

    /// The number of sets.
    pub(crate) fn set_count(&self) -> usize
        ensures { result ≡ length self.now.sets }
    {
        self.sets.len()
    }

    /// The set with this index.
    pub(crate) fn set(&self, set: usize) -> StateSet<'_>
        requires { set < length self.now.sets }
        ensures set { set_of result ≡ get_or self.now.sets set 0 }
        ensures width { width_of result ≡ self.now.width }
    {
        self.sets.at(set)
    }

    /// One more than the unmarked state of the row, or 0 for none.
    pub(crate) fn code(&self, row: usize) -> u16
        requires { row < length (list_of self.now).rows }
        ensures { result ≡ code_of (row_at (list_of self.now).rows row).unmarked }
    {
        self.rows[row].code
    }

    /// The index of the marked set of the row.
    pub(crate) fn set_of(&self, row: usize) -> u16
        requires { row < length (list_of self.now).rows }
        ensures within { result < length self.now.sets }
        ensures set { get_or self.now.sets result 0 ≡ (row_at (list_of self.now).rows row).marked }
    {
        self.rows[row].set
    }

    /// The marked set of the row.
    pub(crate) fn marked(&self, row: usize) -> StateSet<'_>
        requires { row < length (list_of self.now).rows }
        ensures set { set_of result ≡ (row_at (list_of self.now).rows row).marked }
        ensures width { width_of result ≡ self.now.width }
    {
        self.sets.at(self.set_of(row) as usize)
    }

    /// Whether this row is a row of others, whose sets have as many words.
    pub(crate) fn has_row_of(&self, row: usize, others: &TableRows, other: usize) -> bool
        requires row { row < length (list_of self.now).rows }
        requires other { other < length (list_of others.now).rows }
        requires width { self.now.width ≡ others.now.width }
        ensures { IsTrue result ↔ row_at (list_of self.now).rows row ≡ row_at (list_of others.now).rows other }
    {
        self.code(row) == others.code(other)
            && is_same(self.marked(row).words(), others.marked(other).words())
    }

    /// Whether the rows and their sets are the same.
    pub(crate) fn is_same(&self, others: &TableRows) -> bool
        ensures { OnTrue result (self.now ≡ others.now) }
    {
        are_same(&self.rows, &others.rows) && self.sets.is_same(&others.sets)
    }

    /// The same rows, whose sets are shared with the tables that have them.
    ///
    /// # Errors
    ///
    /// `NoMemory` if allocation fails.
    pub(crate) fn interned(self, interner: &mut Interner) -> Result<TableRows, NoMemory>
        ensures { IfOk result (λ t. t ≡ self) }
    {
        let TableRows { mut rows, sets } = self;
        rows.shrink_to_fit();
        Ok(TableRows {
            rows,
            sets: interner.sets(sets)?,
        })
    }
}

// Whether the rows have the same codes and the same indices.
fn are_same(rows: &[CodedRow], others: &[CodedRow]) -> bool
    ensures { OnTrue result (rows.now ≡ others.now) }
{
    if rows.len() != others.len() {
        return false;
    }
    for row in 0..rows.len() {
        if rows[row].code != others[row].code || rows[row].set != others[row].set {
            return false;
        }
    }
    true
}
