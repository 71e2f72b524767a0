//! Nodes that are found by their hashes.
ghost use Rattle.node_store.specs.Narrow.{hash_of};
ghost use Rattle.node_store.specs.NodeTable.{AreMoved, AreWithin, IsFree, IsSearch, home_of};
ghost use Rattle.std.specs.Prelude.{◌≡◌, ◌≢◌, ◌+◌, ◌-◌, ◌^◌, ◌<◌, ◌≤◌, [], All, length, set, slice_get, IfOk, IfSome, IsFalse, IsTrue, Some};

use crate::narrow::Narrow;
use span_types::NoMemory;
use std::alloc::Global;
use std::marker::Model;

/// The slot of a node: its hash, and one more than its index, or 0 if the slot is empty.
#[derive(Clone, Copy)]
pub(crate) struct Slot {
    pub(crate) hash: u32,
    pub(crate) link: u32,
}

/// The end of a search: the node has this index, or it isn't found, and then this slot is free for it, if one is.
pub(crate) enum Search {
    At(usize),
    Absent(Option<usize>),
}

/// The indices of nodes, which are found by their hashes.
///
/// It is a hash table with linear probing (D. E. Knuth, *The Art of Computer Programming*, volume 3, section 6.4). A
/// node is in one of 256 slots, from the one on to which its hash leads. Whoever makes a text or an image can choose
/// nodes for which all these slots are taken, and the table then has no room for the next one. If memory allows, at most
/// three in four slots are taken, so that a node takes 11 to 21 bytes.
#[derive(Drop)]
pub(crate) struct NodeTable {
    alloc: Global,
    slots: Vec<Slot>,
    // The number of taken slots, and from which number on the table grows. No proof depends on them.
    taken: usize,
    limit: usize,
}

impl Model for NodeTable {
    ghost use Rattle.std.specs.Prelude.{List};
    ghost use Rattle.node_store.specs.declared.node_table.Slot.{Slot};

    ghost Value = { List Slot };

    ghost view = { λ s. s.slots.items };
}

// The number of slots in which a node may be. This number of slots follows the last one to which a hash leads.
const PROBES: usize = 256;

// The number of slots to which hashes lead in the first table.
const FIRST_HOMES: usize = 256;

impl NodeTable {
    /// No nodes. Allocates nothing.
    pub(crate) fn new(alloc: Global) -> NodeTable
        ensures { result ≡ [] }
    {
        NodeTable {
            alloc,
            slots: Vec::new(alloc),
            taken: 0,
            limit: 0,
        }
    }

    /// Doubles the table if too many slots are taken and memory allows. Takes amortized constant time.
    #[inline(always)]
    pub(crate) fn make_room(&mut self)
        ensures { AreMoved self.old self.new }
    {
        if self.taken >= self.limit {
            self.grow();
        }
    }

    #[inline(never)]
    fn grow(&mut self)
        ensures { AreMoved self.old self.new }
    {
        let homes = self.slots.len().saturating_sub(PROBES);
        let more = homes.saturating_mul(2).max(FIRST_HOMES);
        self.limit = more / 4 * 3;
        if let Ok(slots) = larger_slots(self.alloc, &self.slots, more.saturating_add(PROBES)) {
            self.slots = slots;
        }
    }

    /// Where a node is among these.
    #[inline(always)]
    pub(crate) fn find(&self, all: &[Narrow], narrow: Narrow) -> Search
        requires { AreWithin self.now (length all.now) }
        ensures { IsSearch all.now self.now narrow result }
    {
        find(&self.slots, all, narrow)
    }

    /// The link in the first slot to which a node's hash leads, or 0.
    #[inline(always)]
    pub(crate) fn first_link(&self, narrow: Narrow) -> u32 {
        match self.slots.get(home_of(self.slots.len(), narrow.hash())) {
            Some(slot) => slot.link,
            None => 0,
        }
    }

    /// Writes a node to a slot. The link is one more than its index.
    #[inline(always)]
    pub(crate) fn put(&mut self, slot: usize, narrow: Narrow, link: u32)
        requires { slot < length self.old }
        ensures { self.new ≡ set self.old slot (record { hash = hash_of narrow; link = link }) }
    {
        self.slots[slot] = Slot {
            hash: narrow.hash(),
            link,
        };
        self.taken = self.taken.saturating_add(1);
    }
}

// The first slot in which a node with this hash is searched.
#[inline(always)]
fn home_of(slots: usize, hash: u32) -> usize
    ensures home { result ≡ home_of slots hash }
    ensures low { result < 2 ^ 32 }
{
    let homes = slots.saturating_sub(PROBES) as u64;
    (u64::from(hash).wrapping_mul(homes) / (1 << 32)) as usize
}

// Where a node is.
#[inline(always)]
fn find(slots: &[Slot], all: &[Narrow], narrow: Narrow) -> Search
    requires { AreWithin slots.now (length all.now) }
    ensures { IsSearch all.now slots.now narrow result }
{
    let hash = narrow.hash();
    let home = home_of(slots.len(), hash);
    for step in 0..PROBES {
        let Some(slot) = slots.get(home + step).copied() else {
            return Search::Absent(None);
        };
        if slot.link == 0 {
            return Search::Absent(Some(home + step));
        }
        if is_slot_of(slot, hash, all, narrow) {
            return Search::At((slot.link - 1) as usize);
        }
    }
    Search::Absent(None)
}

// Whether this taken slot is the node's.
#[inline(always)]
fn is_slot_of(slot: Slot, hash: u32, all: &[Narrow], narrow: Narrow) -> bool
    requires taken { slot.link ≢ 0 }
    requires within { slot.link ≤ length all.now }
    ensures yes { IsTrue result → slice_get all.now (slot.link - 1) ≡ Some narrow }
    ensures no { IsFalse result → slot.hash ≡ hash → slice_get all.now (slot.link - 1) ≢ Some narrow }
{
    slot.hash == hash && all[(slot.link - 1) as usize] == narrow
}

// The first empty slot for a hash.
fn free_slot(slots: &[Slot], hash: u32) -> Option<usize>
    ensures { IfSome result (IsFree slots.now (home_of (length slots.now) hash)) }
{
    let home = home_of(slots.len(), hash);
    for step in 0..PROBES {
        if slots.get(home + step)?.link == 0 {
            return Some(home + step);
        }
    }
    None
}

// This many slots, with the nodes of fewer slots. It fails if there are too few near the one to which a hash leads.
fn larger_slots(alloc: Global, old: &[Slot], count: usize) -> Result<Vec<Slot>, NoMemory>
    ensures { IfOk result (λ new. AreMoved old.now new.items) }
{
    let mut new = empty_slots(alloc, count)?;
    for slot in old {
        if slot.link != 0 {
            let free = free_slot(&new, slot.hash).ok_or(NoMemory)?;
            new[free] = *slot;
        }
    }
    Ok(new)
}

// This many empty slots.
fn empty_slots(alloc: Global, count: usize) -> Result<Vec<Slot>, NoMemory>
    ensures { IfOk result (λ slots. All (λ s. s ≡ record { hash = 0; link = 0 }) slots.items) }
{
    let mut slots = Vec::new(alloc);
    slots.resize(count, Slot { hash: 0, link: 0 })?;
    Ok(slots)
}
