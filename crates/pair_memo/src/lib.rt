//! A memo table: numbers under the pairs of numbers that were noted last.
//!
//! ```text
//! let mut memo = PairMemo::new(alloc, 4096)?;
//! memo.note(3, 4, 17);
//! assert_eq!(memo.find(3, 4), Some(17));
//! ```
//!
//! It is for an expensive function of two numbers, such as the composition of two tables that have numbers. A lookup takes
//! expected constant time, and mostly one comparison: the entries are in an open-addressing hash table, at most half full, which
//! doubles. A table that has as many entries as it may have is emptied. No call fails if allocation fails: a pair that can't be
//! noted isn't found later, and no pair with a number of 2^32 or more is noted.
//!
//! An entry takes 32 to 64 bytes. `PairCache` is a cache for one thread, in which a new entry replaces the one in its slot.
//!
//! Proved: A pair's number is found only if it was noted for this pair (`find`, `peek`, `note`).
//!
//! Tested: A noted pair is found, until the table is full.
//!
//! Neither: Time.
#![tactic(auto)]

ghost use Rattle.pair_memo.specs.Entries.{Entry};
ghost use Rattle.std.specs.Prelude.{◌≡◌, ◌⊎◌, ◌≤◌, [], length, IfOk, IfSome, Contains};

mod cache;
mod slots;

pub use cache::PairCache;
use slots::{Slot, find, leave_room, note};
use span_types::NoMemory;
use std::alloc::Global;
use std::marker::Model;

/// Numbers under pairs of numbers, for the pairs noted last. Contracts see it as the list of its entries.
#[derive(Drop)]
pub struct PairMemo {
    alloc: Global,
    // The maximum number of entries.
    size: usize,
    slots: Vec<Slot>,
    // The number of entries.
    count: usize,
}

impl Model for PairMemo {
    ghost use Rattle.std.specs.Prelude.{◌≡◌, List, length};
    ghost use Rattle.pair_memo.specs.Entries.{Entry, entries_of};

    ghost Value = { List Entry };

    ghost view = { λ m. entries_of m.slots.items };

    ghost invariant = { λ m. m.count ≡ length (entries_of m.slots.items) };
}

impl PairMemo {
    /// A table with no entries, for at most `size` of them. No memory is reserved for them yet.
    ///
    /// # Errors
    ///
    /// `NoMemory` if allocation fails.
    pub fn new(alloc: Global, size: usize) -> Result<PairMemo, NoMemory>
        requires some { 1 ≤ size }
        requires few { size ≤ 65536 }
        ensures { IfOk result (λ m. m ≡ []) }
    {
        Ok(PairMemo {
            alloc,
            size,
            slots: Vec::new(alloc),
            count: 0,
        })
    }

    /// The number of entries.
    pub fn len(&self) -> usize
        ensures { result ≡ length self.now }
    {
        self.count
    }

    /// Removes all entries. The table keeps its size, and allocates nothing.
    pub fn forget(&mut self)
        ensures { self.new ≡ [] }
    {
        self.slots.clear();
        self.count = 0;
    }

    /// The number of the pair, if it was noted.
    #[inline(always)]
    pub fn peek(&self, left: usize, right: usize) -> Option<usize>
        ensures { IfSome result (λ number. Contains self.now ((left, right), number)) }
    {
        find(&self.slots, left, right)
    }

    /// The same, for a caller that may write to the table. The entries stay.
    #[inline(always)]
    pub fn find(&mut self, left: usize, right: usize) -> Option<usize>
        ensures found { IfSome result (λ number. Contains self.old ((left, right), number)) }
        ensures same { self.new ≡ self.old }
    {
        find(&self.slots, left, right)
    }

    /// Notes the number of a pair, if memory allows. A full table is emptied first.
    pub fn note(&mut self, left: usize, right: usize, number: usize)
        ensures { (e : Entry) → Contains self.new e → Contains self.old e ⊎ (e ≡ ((left, right), number)) }
    {
        if let (Ok(left), Ok(right), Ok(number)) = (
            u32::try_from(left),
            u32::try_from(right),
            u32::try_from(number),
        ) {
            let count = leave_room(&mut self.slots, self.count, self.size);
            let entry = ((left, right), number);
            self.count = note(self.alloc, &mut self.slots, count, entry);
        }
    }
}

#[cfg(test)]
mod tests {
    use super::*;
    use std::test::Fail;

    // Notes this many pairs, each with a number of its own.
    fn note_pairs(memo: &mut PairMemo, count: usize) {
        for number in 0..count {
            memo.note(number % 64, number / 64, number);
        }
    }

    // How many of these pairs are found.
    fn found(memo: &PairMemo, count: usize) -> usize {
        let mut found: usize = 0;
        for number in 0..count {
            if memo.peek(number % 64, number / 64) == Some(number) {
                found = found.saturating_add(1);
            }
        }
        found
    }

    #[test]
    fn pairs_are_found_until_the_table_is_full(rt: HostRuntime) -> Result<(), Fail> {
        let mut memo = PairMemo::new(rt.alloc(), 5_000)?;
        note_pairs(&mut memo, 5_000);
        assert_eq!(rt; (found(&memo, 5_000), memo.len()), (5_000, 5_000));
        memo.note(64, 64, 1);
        assert_eq!(rt; (found(&memo, 5_000), memo.len()), (0, 1));
        Ok(())
    }
}
