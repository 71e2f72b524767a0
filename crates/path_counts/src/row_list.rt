//! The rows of a counting table, in two vectors.

ghost use Rattle.path_counts.specs.Counting.{IsCollected, counts_at, unmarked_at};
ghost use Rattle.path_counts.specs.Digest.{digest_of};
ghost use Rattle.path_counts.specs.Flat.{AreWithin, rows_of};
ghost use Rattle.path_counts.specs.Pushed.{IsPushed};
ghost use Rattle.std.specs.Prelude.{◌↔◌, IsTrue, ◌≡◌, ◌++◌, [], ◌∷◌, ◌≤◌, ◌<◌, ◌^◌, length, All, IfOk, OnErr, OnOk};

use crate::count::{Count, is_same, take_counts};
use crate::digest::{coded, mixed, with_counts};
use span_types::NoMemory;
use std::alloc::Global;
use std::marker::Model;

/// The state reached from one state with every mark 0, and where the numbers of those reached with some other mark are: from
/// `start` on and before `end`.
#[derive(Clone, Copy)]
pub(crate) struct Row {
    unmarked: Option<u16>,
    start: usize,
    end: usize,
}

/// The rows of all states. A row takes 24 bytes, and a count 16. Contracts see it as the list of rows.
#[derive(Drop)]
pub(crate) struct RowList {
    rows: Vec<Row>,
    counts: Vec<Count>,
}

impl Model for RowList {
    ghost use Rattle.std.specs.Prelude.{List};
    ghost use Rattle.path_counts.specs.Counting.{CountRow};
    ghost use Rattle.path_counts.specs.Flat.{AreWithin, rows_of};

    ghost Value = { List CountRow };

    ghost view = { λ r. rows_of r.rows.items r.counts.items };

    ghost invariant = { λ r. AreWithin r.rows.items r.counts.items };
}

impl RowList {
    /// No rows, with room for some rows and counts.
    ///
    /// # Errors
    ///
    /// `NoMemory` if an allocation fails.
    pub(crate) fn with_capacity(
        alloc: Global,
        rows: usize,
        counts: usize,
    ) -> Result<RowList, NoMemory>
        ensures { IfOk result (λ list. list ≡ []) }
    {
        Ok(RowList {
            rows: Vec::with_capacity(alloc, rows)?,
            counts: Vec::with_capacity(alloc, counts)?,
        })
    }

    /// The number of rows.
    pub(crate) fn len(&self) -> usize
        ensures { result ≡ length self.now }
    {
        self.rows.len()
    }

    /// The number of counts of all rows.
    pub(crate) fn all(&self) -> usize {
        self.counts.len()
    }

    /// The state reached from `p` with every mark 0.
    pub(crate) fn unmarked(&self, p: usize) -> Option<u16>
        requires { p < length self.now }
        ensures { result ≡ unmarked_at self.now p }
    {
        self.rows[p].unmarked
    }

    /// The counts of the row of `p`.
    pub(crate) fn counts(&self, p: usize) -> &[Count]
        requires { p < length self.now }
        ensures { result.now ≡ counts_at self.now p }
    {
        let row = self.rows[p];
        &self.counts[row.start..row.end]
    }

    /// Appends a row with these counts.
    ///
    /// # Errors
    ///
    /// `NoMemory` if an allocation fails. The rows stay then.
    pub(crate) fn push(&mut self, unmarked: Option<u16>, counts: &[Count]) -> Result<(), NoMemory>
        ensures { OnOk result (self.new ≡ self.old ++ record { unmarked = unmarked; counts = counts.now } ∷ []) }
    {
        push_row(&mut self.rows, &mut self.counts, unmarked, counts)
    }

    /// Appends a row with the states whose numbers aren't 0, and their numbers. All numbers are 0 then.
    ///
    /// # Errors
    ///
    /// `NoMemory` if an allocation fails. The rows stay then.
    pub(crate) fn push_sums(
        &mut self,
        unmarked: Option<u16>,
        sums: &mut [u64],
    ) -> Result<(), NoMemory>
        requires { length sums.old ≤ 2 ^ 16 }
        ensures row { OnOk result (IsPushed (λ row. (row.unmarked ≡ unmarked) × IsCollected sums.old row.counts) self.old self.new) }
        ensures clear { OnOk result (All (λ n. n ≡ 0) sums.new) }
    {
        push_collected(&mut self.rows, &mut self.counts, unmarked, sums)
    }
}

// Appends counts. Most rows have none.
fn append(all: &mut Vec<Count>, counts: &[Count]) -> Result<(), NoMemory>
    ensures items { OnOk result (all.new.items ≡ all.old.items ++ counts.now) }
    ensures err { OnErr result (all.new.items ≡ all.old.items) }
{
    if counts.is_empty() {
        return Ok(());
    }
    all.extend_from_slice(counts)?;
    Ok(())
}

// Appends a row with these counts.
fn push_row(
    rows: &mut Vec<Row>,
    all: &mut Vec<Count>,
    unmarked: Option<u16>,
    counts: &[Count],
) -> Result<(), NoMemory>
    requires { AreWithin rows.old.items all.old.items }
    ensures within { AreWithin rows.new.items all.new.items }
    ensures row { OnOk result (rows_of rows.new.items all.new.items ≡ rows_of rows.old.items all.old.items ++ record { unmarked = unmarked; counts = counts.now } ∷ []) }
{
    let start = all.len();
    append(all, counts)?;
    let end = all.len();
    rows.push(Row {
        unmarked,
        start,
        end,
    })?;
    Ok(())
}

// Appends a row with the states whose numbers aren't 0, and their numbers. All numbers are 0 then.
fn push_collected(
    rows: &mut Vec<Row>,
    all: &mut Vec<Count>,
    unmarked: Option<u16>,
    sums: &mut [u64],
) -> Result<(), NoMemory>
    requires within { AreWithin rows.old.items all.old.items }
    requires few { length sums.old ≤ 2 ^ 16 }
    ensures within { AreWithin rows.new.items all.new.items }
    ensures row { OnOk result (IsPushed (λ row. (row.unmarked ≡ unmarked) × IsCollected sums.old row.counts) (rows_of rows.old.items all.old.items) (rows_of rows.new.items all.new.items)) }
    ensures clear { OnOk result (All (λ n. n ≡ 0) sums.new) }
{
    let start = all.len();
    take_counts(all, sums)?;
    let end = all.len();
    rows.push(Row {
        unmarked,
        start,
        end,
    })?;
    Ok(())
}

/// The digest of some rows.
pub(crate) fn digest_of(rows: &RowList) -> u64
    ensures { result ≡ digest_of rows.now }
{
    let mut all = 0;
    for p in 0..rows.len() {
        all = with_counts(mixed(all, coded(rows.unmarked(p))), rows.counts(p));
    }
    all
}

/// Whether the rows are the same.
pub(crate) fn is_same_rows(rows: &RowList, others: &RowList) -> bool
    ensures { IsTrue result ↔ rows.now ≡ others.now }
{
    if rows.len() != others.len() {
        return false;
    }
    for p in 0..rows.len() {
        if rows.unmarked(p) != others.unmarked(p) || !is_same(rows.counts(p), others.counts(p)) {
            return false;
        }
    }
    true
}
