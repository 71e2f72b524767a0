//! The table of one text.

ghost use Rattle.state_tables.specs.Branch.{branch_of, root_of, rows_bit};
ghost use Rattle.state_tables.specs.Classed.{AreClassed, IsClassed};
ghost use Rattle.state_tables.specs.Coded.{list_of, table_of};
ghost use Rattle.state_tables.specs.Same.{table_eq};
ghost use Rattle.state_tables.specs.StateSet.{member, word_count};
ghost use Rattle.state_tables.specs.StateSetView.{set_of, width_of};
ghost use Rattle.state_tables.specs.Table.{IsTableOf, marked_of, unmarked_of};
ghost use Rattle.std.proofs.Common.{rules};
ghost use Rattle.std.specs.Bool.{OnTrue};
ghost use Rattle.std.specs.Cmp.Rules.{comparing};
ghost use Rattle.std.specs.Prelude.{◌≡◌, ℕ, ◌<◌, ◌≤◌, length, true, IfOk, IfSome};

use crate::interner::Interner;
use crate::partition::SharedPartition;
use crate::row_set::RowSet;
use crate::state_set::StateSet;
use crate::table_rows::TableRows;
use distinct_items::Digested;
use span_types::NoMemory;
use std::marker::Model;

/// Which states are reached over a text, from each state (M. L. Schmid and N. Schweikardt, Spanner
/// evaluation over SLP-compressed documents, PODS 2021). Contracts see it as a list of rows, one for each state. States
/// with the same row are in one class, and each class has its row once.
#[derive(Drop)]
pub struct Table {
    // The class of each state.
    pub(crate) partition: SharedPartition,
    // The row of each class.
    pub(crate) rows: TableRows,
    // Computed from the rows of the states. Equal tables are found by it.
    digest: u128,
}

impl Model for Table {
    ghost use Rattle.std.specs.Prelude.{List};
    ghost use Rattle.state_tables.specs.Table.{Row};

    ghost Value = { List Row };

    ghost use Rattle.state_tables.specs.Coded.{list_of, table_of};
    ghost use Rattle.state_tables.specs.Classed.{IsInClasses};

    ghost view = { λ t. table_of t.partition (list_of t.rows).rows };

    ghost invariant = { λ t. IsInClasses t.partition t.rows t.digest };
}

impl Table {
    /// The table in which each state has the row of its class.
    pub(crate) fn from_partition(partition: SharedPartition, set: RowSet) -> Table
        requires { AreClassed partition set }
        ensures { result ≡ table_of partition (list_of set).rows }
    {
        let digest = set.digest(&partition);
        Table {
            partition,
            rows: set.into_rows(),
            digest,
        }
    }

    /// The same table, whose partition and sets are shared with the tables that have them.
    ///
    /// # Errors
    ///
    /// `NoMemory` if allocation fails.
    pub(crate) fn interned(self, interner: &mut Interner) -> Result<Table, NoMemory>
        ensures { IfOk result (λ t. t ≡ self) }
    {
        let Table {
            partition,
            rows,
            digest,
        } = self;
        Ok(Table {
            partition: interner.partition(partition)?,
            rows: rows.interned(interner)?,
            digest,
        })
    }

    /// The number of states, at most 1,024.
    pub fn states(&self) -> u16
        ensures value { result ≡ length self.now }
        ensures shape { IsTableOf (length self.now) self.now }
    {
        self.partition.classes().len() as u16
    }

    /// The state reached from `p` over the text with every mark 0.
    pub fn unmarked(&self, p: u16) -> Option<u16>
        requires { p < length self.now }
        ensures value { result ≡ unmarked_of self.now p }
        ensures within { IfSome result (λ q. q < length self.now) }
        ensures few { length self.now ≤ 1024 }
    {
        self.rows
            .code(self.partition.classes()[p as usize] as usize)
            .checked_sub(1)
    }

    /// The set of the states reached from `p` over the text with some mark other than 0. It has as many words as the
    /// states of the table take.
    pub fn marked(&self, p: u16) -> StateSet<'_>
        requires { p < length self.now }
        ensures value { set_of result ≡ marked_of self.now p }
        ensures width { width_of result ≡ word_count (length self.now) }
        ensures within { (q : ℕ) → member (set_of result) q ≡ true → q < length self.now }
        ensures few { length self.now ≤ 1024 }
    {
        self.rows
            .marked(self.partition.classes()[p as usize] as usize)
    }

    // Whether the classes and their rows are the same.
    fn has_form_of(&self, other: &Table) -> bool
        ensures { OnTrue result (self.now ≡ other.now) }
    {
        self.partition.has_classes_of(&other.partition) && self.rows.is_same(&other.rows)
    }
}

impl Digested for Table {
    ghost root = { root_of };

    ghost branch = { branch_of };

    fn root(&self, roots: usize) -> usize {
        (self.digest & (roots - 1) as u128) as usize
    }

    // First the digest's upper half from its highest bit on, then the rows. Two tables of q states differ in one of the
    // first 64 + 1040·q bits.
    fn branch(&self, depth: usize) -> usize {
        if depth < 64 {
            (self.digest >> (127 - depth) & 1) as usize
        } else {
            rows_bit(self.partition.classes(), &self.rows, depth - 64)
        }
    }

    fn is_same(&self, other: &Table) -> bool {
        self == other
    }
}

impl PartialEq for Table {
    ghost eq = { table_eq };

    ghost laws = { Prim.search (comparing, rules) depth 9 };

    fn eq(&self, other: &Table) -> bool {
        self.digest == other.digest
            && (self.has_form_of(other)
                || are_same(
                    self.partition.classes(),
                    &self.rows,
                    other.partition.classes(),
                    &other.rows,
                ))
    }
}

impl Eq for Table {
    ghost laws = { Prim.search (comparing, rules) depth 9 };
}

// A row has 1,024 bits for the marked states and 16 for the unmarked one.
const SET_BITS: u16 = 1_024;

const ROW_BITS: usize = 1_040;

// A bit of the concatenated rows of the states, or 0 past the end.
fn rows_bit(classes: &[u16], rows: &TableRows, index: usize) -> usize
    requires { IsClassed classes.now (list_of rows.now) }
    ensures { result ≡ rows_bit (table_of classes.now (list_of rows.now).rows) index }
{
    let state = index / ROW_BITS;
    if state >= classes.len() {
        return 0;
    }
    let row = classes[state] as usize;
    let index = (index % ROW_BITS) as u16;
    if index < SET_BITS {
        rows.marked(row).bit(index) as usize
    } else {
        (rows.code(row) >> (index - SET_BITS) & 1) as usize
    }
}

// Whether each state has the same row in both tables, however their states are in classes.
fn are_same(classes: &[u16], rows: &TableRows, others: &[u16], other_rows: &TableRows) -> bool
    requires left { IsClassed classes.now (list_of rows.now) }
    requires right { IsClassed others.now (list_of other_rows.now) }
    ensures { result ≡ table_eq (table_of classes.now (list_of rows.now).rows) (table_of others.now (list_of other_rows.now).rows) }
{
    if classes.len() != others.len() {
        return false;
    }
    for p in 0..classes.len() {
        if !rows.has_row_of(classes[p] as usize, other_rows, others[p] as usize) {
            return false;
        }
    }
    true
}
