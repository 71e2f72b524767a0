//! Lengths of texts, each in 32 bits unless it is long.
ghost use Rattle.node_store.specs.Lengths.{AreEntries, HasRoom, IsEntry, length_of, lengths_of};
ghost use Rattle.std.specs.Prelude.{◌≡◌, ◌<◌, ◌^◌, ◌++◌, ◌∷◌, [], length, get_or, slice_get, vec_len, vec_capacity, IfOk, OnOk, Some};

use crate::room;
use span_types::NoMemory;
use std::alloc::Global;
use std::marker::Model;

// The least long length. It is also the number of long lengths at most.
const LONG: u32 = 1 << 31;

/// A list of lengths. A length below 2^31 takes 4 bytes, and another one 12, if the vectors are full.
#[derive(Drop)]
pub(crate) struct Lengths {
    // For each length itself if it is below 2^31, or else 2^31 plus its index among the long ones.
    entries: Vec<u32>,
    long: Vec<u64>,
}

impl Model for Lengths {
    ghost use Rattle.node_store.specs.Lengths.{AreEntries, LengthList};

    ghost Value = { LengthList };

    ghost use Rattle.node_store.specs.LengthsView.{list_of};

    ghost view = { list_of };

    ghost invariant = { λ s. AreEntries s.entries.items s.long.items };
}

impl Lengths {
    /// No lengths. Allocates nothing.
    pub(crate) fn new(alloc: Global) -> Lengths
        ensures { result.all ≡ [] }
    {
        Lengths {
            entries: Vec::new(alloc),
            long: Vec::new(alloc),
        }
    }

    /// No lengths, and room for this many that aren't long.
    pub(crate) fn with_capacity(alloc: Global, count: usize) -> Result<Lengths, NoMemory>
        ensures { IfOk result (λ lengths. lengths.all ≡ []) }
    {
        Ok(Lengths {
            entries: Vec::with_capacity(alloc, count)?,
            long: Vec::new(alloc),
        })
    }

    /// The length with this index. Takes constant time.
    #[inline(always)]
    pub(crate) fn at(&self, index: usize) -> u64
        requires { index < length self.now.all }
        ensures at { slice_get self.now.all index ≡ Some result }
        ensures value { result ≡ get_or self.now.all index 0 }
    {
        length_of(&self.long, self.entries[index])
    }

    /// Makes room for this many lengths that aren't long, as far as memory allows.
    pub(crate) fn make_room(&mut self, count: usize)
        ensures { self.new.all ≡ self.old.all }
    {
        let _entries = self.entries.reserve(count);
    }

    /// Makes room for one length.
    ///
    /// # Errors
    ///
    /// `NoMemory` if allocation fails, or if there are 2^31 long lengths.
    #[inline(always)]
    pub(crate) fn reserve_one(&mut self) -> Result<(), NoMemory>
        ensures same { self.new.all ≡ self.old.all }
        ensures room { OnOk result (HasRoom self.new) }
    {
        reserve_one(&mut self.entries, &mut self.long)
    }

    /// Adds a length, for which there is room. Allocates nothing.
    #[inline(always)]
    pub(crate) fn push(&mut self, len: u64)
        requires { HasRoom self.old }
        ensures { self.new.all ≡ self.old.all ++ len ∷ [] }
    {
        push(&mut self.entries, &mut self.long, len);
    }
}

// The length that an entry stands for.
#[inline(always)]
fn length_of(long: &[u64], entry: u32) -> u64
    requires { IsEntry long.now entry }
    ensures { result ≡ length_of long.now entry }
{
    if entry < LONG {
        u64::from(entry)
    } else {
        long[(entry - LONG) as usize]
    }
}

// Room for one more entry and one more long length.
#[inline(always)]
fn reserve_one(entries: &mut Vec<u32>, long: &mut Vec<u64>) -> Result<(), NoMemory>
    ensures entries { entries.new.items ≡ entries.old.items }
    ensures long { long.new.items ≡ long.old.items }
    ensures room { OnOk result (vec_len entries.new < vec_capacity entries.new) }
    ensures long_room { OnOk result (vec_len long.new < vec_capacity long.new) }
    ensures few { OnOk result (length long.new.items < 2 ^ 31) }
{
    if long.len() >= LONG as usize {
        return Err(NoMemory);
    }
    room::reserve_one(entries)?;
    room::reserve_one(long)
}

// Adds a length.
#[inline(always)]
fn push(entries: &mut Vec<u32>, long: &mut Vec<u64>, len: u64)
    requires entries { AreEntries entries.old.items long.old.items }
    requires room { vec_len entries.old < vec_capacity entries.old }
    requires long_room { vec_len long.old < vec_capacity long.old }
    requires few { length long.old.items < 2 ^ 31 }
    ensures entries { AreEntries entries.new.items long.new.items }
    ensures lengths { lengths_of entries.new.items long.new.items ≡ lengths_of entries.old.items long.old.items ++ len ∷ [] }
{
    if len < u64::from(LONG) {
        entries.push_reserved(len as u32);
    } else {
        entries.push_reserved(LONG + long.len() as u32);
        long.push_reserved(len);
    }
}
