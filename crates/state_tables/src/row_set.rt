//! Distinct rows, found by their numbers.

ghost use Rattle.state_tables.specs.Coded.{GroupedRows, coded_at, list_of, row_in, row_of, table_of};
ghost use Rattle.state_tables.specs.Digest.{row_number, sum_digest};
ghost use Rattle.state_tables.specs.Partition.{HasWeights};
ghost use Rattle.state_tables.specs.RowSet.{AreLinks, IsCodedSlot, IsRowAt, IsSetAt, TakesRow, TakesSet};
ghost use Rattle.state_tables.specs.StateSet.{number_of_words};
ghost use Rattle.state_tables.specs.TableRows.{HaveSets};
ghost use Rattle.state_tables.specs.Weights.{weighted};
ghost use Rattle.std.specs.Bool.{OnTrue};
ghost use Rattle.std.specs.Prelude.{◌≡◌, ℕ, ◌-◌, ◌<◌, ◌≤◌, ◌%◌, ◌^◌, [], List, get_or, length, IfOk, OnOk};

use crate::digest::{WEIGHT, row_number, sum_digest};
use crate::distinct_sets::DistinctSets;
use crate::partition::SharedPartition;
use crate::slot::{Slot, fill, next, slot_count};
use crate::table_rows::{CodedRow, TableRows};
use crate::table_sets::TableSets;
use span_types::NoMemory;
use std::alloc::Global;
use std::marker::Model;

/// Rows in the order in which they were added, none of them twice, and the sets that they have, each once. It is a hash
/// table with at least two slots for each row for which there is room, and their number is a power of two. Where there is
/// room for few rows, it has no slots, and a lookup compares each row. So a lookup takes expected constant time.
#[derive(Drop)]
pub(crate) struct RowSet {
    sets: DistinctSets,
    rows: Vec<CodedRow>,
    // One more than the index of a row, or 0.
    slots: Vec<u16>,
}

impl Model for RowSet {
    ghost use Rattle.std.specs.Prelude.{length};
    ghost use Rattle.state_tables.specs.Coded.{GroupedRows};
    ghost use Rattle.state_tables.specs.RowSet.{AreLinks};
    ghost use Rattle.state_tables.specs.TableRows.{HaveSets};

    ghost Value = { GroupedRows };

    ghost view = { λ s. record { width = s.sets.width; sets = s.sets.sets; rows = s.rows.items } };

    ghost invariant = { λ s. HaveSets s.sets.sets s.rows.items × AreLinks (length s.rows.items) s.slots.items };
}

impl RowSet {
    /// No rows, and room for this many, with sets of this many words.
    pub(crate) fn with_capacity(alloc: Global, width: usize, rows: u16) -> Result<RowSet, NoMemory>
        ensures { IfOk result (λ s. s ≡ record { width = width; sets = []; rows = [] }) }
    {
        let sets = DistinctSets::with_capacity(alloc, width, rows)?;
        let slots = slot_count(rows);
        let rows = rows as usize;
        Ok(RowSet {
            sets,
            rows: Vec::with_capacity(alloc, rows)?,
            slots: vec![in alloc; 0; slots]?,
        })
    }

    /// The index of the set with these words. It is added if it isn't there.
    ///
    /// # Errors
    ///
    /// `NoMemory` if allocation fails.
    pub(crate) fn set_of(&mut self, words: &[u64]) -> Result<u16, NoMemory>
        requires width { length words.now ≡ self.old.width }
        requires few { length self.old.sets < 2 ^ 16 - 1 }
        ensures index { IfOk result (IsSetAt self.new.sets (number_of_words words.now)) }
        ensures taken { OnOk result (TakesSet self.old.sets self.new.sets (number_of_words words.now)) }
        ensures same { OnOk result (list_of self.new ≡ list_of self.old) }
    {
        self.sets.index_of(words)
    }

    /// The index of the row with this code and this set. It is added if it isn't there.
    ///
    /// # Errors
    ///
    /// `NoMemory` if allocation fails.
    pub(crate) fn index_of(&mut self, row: CodedRow) -> Result<u16, NoMemory>
        requires set { row.set < length self.old.sets }
        requires few { length self.old.rows < 2 ^ 16 - 1 }
        ensures index { IfOk result (IsRowAt (list_of self.new) (row_in self.old.sets row)) }
        ensures taken { OnOk result (TakesRow (list_of self.old) (list_of self.new) (row_in self.old.sets row)) }
        ensures sets { self.new.sets ≡ self.old.sets }
    {
        match find(&self.sets, &self.rows, &self.slots, row) {
            Slot::Taken(index) => Ok(index),
            Slot::Free(slot) => {
                let index = self.rows.len() as u16;
                self.rows.push(row)?;
                fill(&mut self.slots, slot, index);
                Ok(index)
            }
        }
    }

    /// The index of the row with this code and these words. The row and its set are added if they aren't there.
    ///
    /// # Errors
    ///
    /// `NoMemory` if allocation fails.
    pub(crate) fn index_with(&mut self, code: u16, words: &[u64]) -> Result<u16, NoMemory>
        requires width { length words.now ≡ self.old.width }
        requires few_sets { length self.old.sets < 2 ^ 16 - 1 }
        requires few { length self.old.rows < 2 ^ 16 - 1 }
        ensures index { IfOk result (IsRowAt (list_of self.new) (row_of code words.now)) }
        ensures taken { OnOk result (TakesRow (list_of self.old) (list_of self.new) (row_of code words.now)) }
        ensures sets { OnOk result (TakesSet self.old.sets self.new.sets (number_of_words words.now)) }
    {
        let set = self.set_of(words)?;
        self.index_of(CodedRow { code, set })
    }

    /// The digest of the numbers of the states' rows. The row of a state is that of its class.
    pub(crate) fn digest(&self, partition: &SharedPartition) -> u128
        requires { (p : ℕ) → p < length partition.now → get_or partition.now p 0 < length self.now.rows }
        ensures { result ≡ sum_digest (weighted (row_number self.now.width) 0 (table_of partition.now (list_of self.now).rows)) }
    {
        let sum = match partition.weights() {
            Some(weights) => sum_by_classes(&self.sets, &self.rows, weights),
            None => sum_by_states(&self.sets, &self.rows, partition.classes()),
        };
        sum_digest(sum)
    }

    /// The rows.
    pub(crate) fn into_rows(self) -> TableRows
        ensures { result ≡ self }
    {
        TableRows::new(self.rows, TableSets::Own(self.sets.into_sets()))
    }
}

// The number of the row with this index.
fn number_at(sets: &DistinctSets, rows: &[CodedRow], row: usize) -> u64
    requires row { row < length rows.now }
    requires set { (coded_at rows.now row).set < length sets.now.sets }
    ensures { result ≡ row_number sets.now.width (row_in sets.now.sets (coded_at rows.now row)) }
{
    row_number(rows[row].code, sets.digest(rows[row].set as usize))
}

// The sum over the states of the weight of each times the number of its row, modulo 2^64, from the weights of the rows'
// classes.
fn sum_by_classes(sets: &DistinctSets, rows: &[CodedRow], weights: &[u64]) -> u64
    requires { HaveSets sets.now.sets rows.now }
    ensures { (classes : List ℕ) → HasWeights classes weights.now
        → ((p : ℕ) → p < length classes → get_or classes p 0 < length rows.now)
        → result ≡ weighted (λ k. row_number sets.now.width (row_in sets.now.sets (coded_at rows.now k))) 0 classes % 2 ^ 64 }
{
    let mut sum: u64 = 0;
    for class in 0..weights.len().min(rows.len()) {
        sum = sum.wrapping_add(weights[class].wrapping_mul(number_at(sets, rows, class)));
    }
    sum
}

// The same sum, without the weights of the classes.
fn sum_by_states(sets: &DistinctSets, rows: &[CodedRow], classes: &[u16]) -> u64
    requires sets { HaveSets sets.now.sets rows.now }
    requires within { (p : ℕ) → p < length classes.now → get_or classes.now p 0 < length rows.now }
    ensures { result ≡ weighted (λ k. row_number sets.now.width (row_in sets.now.sets (coded_at rows.now k))) 0 classes.now % 2 ^ 64 }
{
    let mut sum: u64 = 0;
    let mut weight: u64 = 1;
    for class in classes {
        sum = sum.wrapping_add(weight.wrapping_mul(number_at(sets, rows, *class as usize)));
        weight = weight.wrapping_mul(WEIGHT);
    }
    sum
}

// Finds the row with this code and set. If no slot is empty, the result may be any slot.
fn find(sets: &DistinctSets, rows: &[CodedRow], slots: &[u16], row: CodedRow) -> Slot
    requires few { length rows.now < 2 ^ 16 }
    requires within { AreLinks (length rows.now) slots.now }
    requires set { row.set < length sets.now.sets }
    ensures { IsCodedSlot rows.now row result }
{
    if slots.is_empty() {
        return find_among_few(rows, row);
    }
    let number = row_number(row.code, sets.digest(row.set as usize));
    let mut slot = (number & (slots.len() - 1) as u64) as usize;
    for _ in 0..slots.len() {
        let link = slots[slot];
        if link == 0 {
            return Slot::Free(slot);
        }
        let index = link - 1;
        if is_at(rows, index as usize, row) {
            return Slot::Taken(index);
        }
        slot = next(slot, slots.len());
    }
    Slot::Free(slot)
}

// Finds the row where there are no slots.
fn find_among_few(rows: &[CodedRow], row: CodedRow) -> Slot
    requires { length rows.now < 2 ^ 16 }
    ensures { IsCodedSlot rows.now row result }
{
    for index in 0..rows.len() {
        if is_at(rows, index, row) {
            return Slot::Taken(index as u16);
        }
    }
    Slot::Free(0)
}

// Whether this row is at the index.
fn is_at(rows: &[CodedRow], index: usize, row: CodedRow) -> bool
    requires { index < length rows.now }
    ensures { OnTrue result (coded_at rows.now index ≡ row) }
{
    rows[index].code == row.code && rows[index].set == row.set
}
