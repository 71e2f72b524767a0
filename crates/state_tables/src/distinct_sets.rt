//! Distinct sets, found by their digests.

ghost use Rattle.state_tables.specs.Coded.{SetList};
ghost use Rattle.state_tables.specs.Digest.{set_digest};
ghost use Rattle.state_tables.specs.RowSet.{IsSetAt, IsSetIndex, IsSetSlot, TakesSet};
ghost use Rattle.state_tables.specs.StateSet.{number_of_words, words_of};
ghost use Rattle.std.specs.Prelude.{◌≡◌, ℕ, ◌-◌, ◌<◌, ◌^◌, [], get_or, length, IfOk, OnErr, OnOk};

use crate::digest::set_digest;
use crate::sets::Sets;
use crate::slot::{Slot, fill, next, slot_count};
use crate::state_set::is_same;
use span_types::NoMemory;
use std::alloc::Global;
use std::marker::Model;

/// Sets in the order in which they were added, none of them twice. It is a hash table with at least two slots for each
/// set for which there is room, and their number is a power of two. Where there is room for few sets, it has no slots, and
/// a lookup compares the digest of each set. So a lookup takes expected constant time.
#[derive(Drop)]
pub(crate) struct DistinctSets {
    sets: Sets,
    digests: Vec<u128>,
    // One more than the index of a set, or 0.
    slots: Vec<u16>,
}

impl Model for DistinctSets {
    ghost use Rattle.state_tables.specs.Coded.{SetList};

    ghost Value = { SetList };

    ghost use Rattle.state_tables.specs.RowSet.{IsSetIndex};

    ghost view = { λ s. s.sets };

    ghost invariant = { λ s. IsSetIndex s.sets s.digests.items s.slots.items };
}

impl DistinctSets {
    /// No sets, and room for this many of this many words.
    pub(crate) fn with_capacity(
        alloc: Global,
        width: usize,
        sets: u16,
    ) -> Result<DistinctSets, NoMemory>
        ensures { IfOk result (λ s. s ≡ record { width = width; sets = [] }) }
    {
        let slots = slot_count(sets);
        let sets = sets as usize;
        Ok(DistinctSets {
            sets: Sets::with_capacity(alloc, width, sets)?,
            digests: Vec::with_capacity(alloc, sets)?,
            slots: vec![in alloc; 0; slots]?,
        })
    }

    /// The index of the set with these words. It is added if it isn't there.
    ///
    /// # Errors
    ///
    /// `NoMemory` if allocation fails; the sets are then unchanged.
    pub(crate) fn index_of(&mut self, words: &[u64]) -> Result<u16, NoMemory>
        requires width { length words.now ≡ self.old.width }
        requires few { length self.old.sets < 2 ^ 16 - 1 }
        ensures index { IfOk result (IsSetAt self.new.sets (number_of_words words.now)) }
        ensures taken { OnOk result (TakesSet self.old.sets self.new.sets (number_of_words words.now)) }
        ensures width { self.new.width ≡ self.old.width }
        ensures err { OnErr result (self.new ≡ self.old) }
    {
        let digest = set_digest(words);
        match find(&self.sets, &self.digests, &self.slots, digest, words) {
            Slot::Taken(set) => Ok(set),
            Slot::Free(slot) => {
                let set = self.sets.len() as u16;
                self.digests.reserve(1)?;
                self.sets.push(words)?;
                self.digests.push_reserved(digest);
                fill(&mut self.slots, slot, set);
                Ok(set)
            }
        }
    }

    /// The digest of the set.
    pub(crate) fn digest(&self, set: usize) -> u128
        requires { set < length self.now.sets }
        ensures { result ≡ set_digest (words_of self.now.width (get_or self.now.sets set 0)) }
    {
        self.digests[set]
    }

    /// The sets.
    pub(crate) fn into_sets(self) -> Sets
        ensures { result ≡ self }
    {
        self.sets
    }
}

// Finds the set with this digest and these words. If no slot is empty, the result may be any slot.
fn find(sets: &Sets, digests: &[u128], slots: &[u16], digest: u128, words: &[u64]) -> Slot
    requires index { IsSetIndex sets.now digests.now slots.now }
    requires width { length words.now ≡ sets.now.width }
    requires few { length sets.now.sets < 2 ^ 16 }
    ensures { IsSetSlot sets.now.sets (number_of_words words.now) result }
{
    if slots.is_empty() {
        return find_among_few(sets, digests, digest, words);
    }
    let mut slot = (digest & (slots.len() - 1) as u128) as usize;
    for _ in 0..slots.len() {
        let link = slots[slot];
        if link == 0 {
            return Slot::Free(slot);
        }
        let set = link - 1;
        if digests[set as usize] == digest && is_same(sets.words(set as usize), words) {
            return Slot::Taken(set);
        }
        slot = next(slot, slots.len());
    }
    Slot::Free(slot)
}

// Finds the set with this digest and these words where there are no slots.
fn find_among_few(sets: &Sets, digests: &[u128], digest: u128, words: &[u64]) -> Slot
    requires digests { length digests.now ≡ length sets.now.sets }
    requires width { length words.now ≡ sets.now.width }
    requires few { length sets.now.sets < 2 ^ 16 }
    ensures { IsSetSlot sets.now.sets (number_of_words words.now) result }
{
    for set in 0..digests.len() {
        if digests[set] == digest && is_same(sets.words(set), words) {
            return Slot::Taken(set as u16);
        }
    }
    Slot::Free(0)
}
