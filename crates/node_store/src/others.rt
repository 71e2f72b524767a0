//! Nodes that no link leads to.
ghost use Rattle.node_store.specs.Narrow.{hash_of};
ghost use Rattle.node_store.specs.NodeTable.{AreMoved, IsFree, home_of};
ghost use Rattle.node_store.specs.Others.{ArePlaced, IsAdded, IsLateSearch, IsOtherSearch};
ghost use Rattle.node_store.specs.SearchTree.{IsAbsent};
ghost use Rattle.std.specs.Prelude.{◌≡◌, ◌+◌, ◌^◌, ◌<◌, ◌++◌, ◌∷◌, [], length, IfSome, OnErr, OnOk};

use crate::narrow::Narrow;
use crate::node_table::{NodeTable, Search};
use crate::room::reserve_one;
use crate::search_tree::SearchTree;
use span_types::NoMemory;
use std::alloc::Global;
use std::marker::Model;

/// The indices of nodes that no link leads to.
///
/// They are in a hash table. Those for which it has no room, since too many nodes have hashes close together, are in a
/// search tree, in which no lookup takes many steps. Each lookup then searches both.
#[derive(Drop)]
pub(crate) struct Others {
    table: NodeTable,
    pub(crate) late: SearchTree,
    // For each node of the tree its index.
    indices: Vec<u32>,
}

impl Model for Others {
    ghost use Rattle.node_store.specs.Others.{OtherNodes};

    ghost Value = { OtherNodes };

    ghost use Rattle.node_store.specs.OthersView.{others_of};

    ghost view = { others_of };
}

impl Others {
    /// No nodes. Allocates nothing.
    pub(crate) fn new(alloc: Global) -> Others
        ensures { result ≡ record { slots = []; late = []; indices = [] } }
    {
        Others {
            table: NodeTable::new(alloc),
            late: SearchTree::new(alloc),
            indices: Vec::new(alloc),
        }
    }

    /// Makes room in the hash table, if memory allows.
    #[inline(always)]
    pub(crate) fn make_room(&mut self)
        ensures slots { AreMoved self.old.slots self.new.slots }
        ensures late { self.new.late ≡ self.old.late }
        ensures indices { self.new.indices ≡ self.old.indices }
    {
        self.table.make_room();
    }

    /// Where a node is, or which slot is free for it.
    #[inline(always)]
    pub(crate) fn find(&self, all: &[Narrow], narrow: Narrow) -> Search
        requires { ArePlaced all.now self.now }
        ensures { IsOtherSearch all.now self.now narrow result }
    {
        let found = self.table.find(all, narrow);
        if self.late.len() == 0 {
            return found;
        }
        match found {
            Search::Absent(slot) => self.find_late(narrow, slot),
            Search::At(index) => Search::At(index),
        }
    }

    // The same for a node that isn't found in the table.
    fn find_late(&self, narrow: Narrow, slot: Option<usize>) -> Search
        requires as_long { length self.now.indices ≡ length self.now.late }
        ensures { IsLateSearch self.now narrow slot result }
    {
        match self.late.find(narrow) {
            Some(entry) => Search::At(self.indices[entry] as usize),
            None => Search::Absent(slot),
        }
    }

    /// The link in the first slot to which a node's hash leads, or 0.
    #[inline(always)]
    pub(crate) fn first_link(&self, narrow: Narrow) -> u32 {
        self.table.first_link(narrow)
    }

    /// Adds a node: to the slot that is free for it, or to the tree if there is none.
    ///
    /// # Errors
    ///
    /// `NoMemory` if allocation fails.
    #[inline(always)]
    pub(crate) fn add(
        &mut self,
        slot: Option<usize>,
        narrow: Narrow,
        index: u32,
    ) -> Result<(), NoMemory>
        requires slot { IfSome slot (IsFree self.old.slots (home_of (length self.old.slots) (hash_of narrow))) }
        requires absent { IsAbsent self.old.late narrow }
        requires low { index + 1 < 2 ^ 32 }
        ensures added { OnOk result (IsAdded self.old slot narrow index self.new) }
        ensures err { OnErr result (self.new ≡ self.old) }
    {
        match slot {
            Some(slot) => {
                self.table.put(slot, narrow, index + 1);
                Ok(())
            }
            None => add_late(&mut self.late, &mut self.indices, narrow, index),
        }
    }
}

// Adds a node to the tree.
fn add_late(
    late: &mut SearchTree,
    indices: &mut Vec<u32>,
    narrow: Narrow,
    index: u32,
) -> Result<(), NoMemory>
    requires absent { IsAbsent late.old narrow }
    ensures late { OnOk result (late.new ≡ late.old ++ narrow ∷ []) }
    ensures indices { OnOk result (indices.new.items ≡ indices.old.items ++ index ∷ []) }
    ensures err { OnErr result ((late.new ≡ late.old) × (indices.new.items ≡ indices.old.items)) }
{
    reserve_one(indices)?;
    late.push(narrow)?;
    indices.push_reserved(index);
    Ok(())
}
