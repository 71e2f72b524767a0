//! A direct-mapped cache of numbers under pairs of numbers.
ghost use Rattle.pair_memo.specs.Cache.{AreAmong};
ghost use Rattle.pair_memo.specs.Entries.{Entry};
ghost use Rattle.std.specs.Prelude.{◌≡◌, [], List, IfSome, Contains};

use crate::slots::{Slot, slot_of};
use std::alloc::Global;
use std::marker::Model;

// The number of slots for some entries, which take 256 KB, and for many, which take 1 MB.
const SOME_SLOTS: usize = 1 << 14;

const MANY_SLOTS: usize = 1 << 16;

// The numbers of entries from which these pay.
const SOME_ENTRIES: usize = 64;

const MANY_ENTRIES: usize = 1 << 12;

// The slots have numbers below this one, so that they take half as much memory.
const NUMBERS: usize = 1 << 32;

/// Some entries, each in the slot of its pair, so that a lookup is one comparison. A new entry replaces the one in its
/// slot. It has 16,384 slots once it has an entry, and 65,536 once its user has 4,096 entries. Contracts see it as the list
/// of its slots.
#[derive(Drop)]
pub struct PairCache {
    slots: Vec<Slot>,
}

impl Model for PairCache {
    ghost use Rattle.std.specs.Prelude.{List, Option};
    ghost use Rattle.pair_memo.specs.Entries.{Entry};

    ghost Value = { List (Option Entry) };

    ghost view = { λ c. c.slots.items };
}

impl PairCache {
    /// A cache without entries. Nothing is allocated.
    pub fn new(alloc: Global) -> PairCache
        ensures { result ≡ [] }
    {
        PairCache {
            slots: Vec::new(alloc),
        }
    }

    /// The number of the pair, if it is in its slot.
    #[inline(always)]
    pub fn find(&self, left: usize, right: usize) -> Option<usize>
        ensures { IfSome result (λ number. (es : List Entry) → AreAmong self.now es → Contains es ((left, right), number)) }
    {
        let slot = slot_of(left, right, self.slots.len());
        let ((first, second), number) = (*self.slots.get(slot)?)?;
        if first as usize == left && second as usize == right {
            Some(number as usize)
        } else {
            None
        }
    }

    /// Writes an entry whose numbers are below 2^32 to its slot, if memory allows. Until `count`, the number of entries that its
    /// user has, is 64, the cache stays empty: it wouldn't pay.
    pub fn note(&mut self, left: usize, right: usize, number: usize, count: usize)
        ensures { (es : List Entry) → Contains es ((left, right), number) → AreAmong self.old es → AreAmong self.new es }
    {
        make_slots(&mut self.slots, slots_for(count));
        if left >= NUMBERS || right >= NUMBERS || number >= NUMBERS {
            return;
        }
        let slot = slot_of(left, right, self.slots.len());
        if let Some(slot) = self.slots.get_mut(slot) {
            *slot = Some(((left as u32, right as u32), number as u32));
        }
    }

    /// Removes all entries. Allocates nothing.
    pub fn forget(&mut self)
        ensures { self.new ≡ [] }
    {
        self.slots.clear();
    }
}

// The number of slots that pay for this many entries.
fn slots_for(count: usize) -> usize {
    if count >= MANY_ENTRIES {
        MANY_SLOTS
    } else if count >= SOME_ENTRIES {
        SOME_SLOTS
    } else {
        0
    }
}

// This many empty slots, if there are fewer and memory allows.
fn make_slots(slots: &mut Vec<Slot>, count: usize)
    ensures { (es : List Entry) → AreAmong slots.old.items es → AreAmong slots.new.items es }
{
    if slots.len() < count {
        slots.clear();
        let _ = slots.resize(count, None);
    }
}
