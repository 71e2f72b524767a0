//! The list of the nodes ahead.
ghost use Rattle.std.specs.Prelude.{◌≡◌, ◌<◌, ◌≤◌, ◌++◌, ◌∷◌, [], Some, IfOk, length, slice_get, take};

use crate::sets::Between;
use crate::trail::Ahead;
use node_store::NodeId;
use smallvec::SmallVec;
use span_types::NoMemory;
use state_tables::Look;
use std::alloc::Global;
use std::marker::Model;

/// A node ahead without its sets of states.
#[derive(Clone, Copy)]
pub(crate) struct AheadNode<'a> {
    id: NodeId,
    look: Look<'a>,
    at: u64,
    next: usize,
}

/// The nodes ahead, and the sets of states of each in a list beside them. Every entry has a node. It is an option since
/// a `SmallVec` writes a default value in place of what it removes.
#[derive(Drop)]
pub(crate) struct AheadList<'a, const N: usize> {
    nodes: SmallVec<Option<AheadNode<'a>>, 0>,
    sets: SmallVec<Between<N>, 0>,
}

impl<'a, const N: usize> Model for AheadList<'a, N> {
    ghost use Rattle.span_enum.specs.AheadList.{NodesAhead};

    ghost Value = { NodesAhead N };

    ghost use Rattle.span_enum.specs.AheadView.{view_of, IsPaired};

    ghost view = { view_of };

    ghost invariant = { IsPaired };
}

impl<'a, const N: usize> AheadList<'a, N> {
    /// No node, and room for this many.
    pub(crate) fn with_room(alloc: Global, count: usize) -> Result<AheadList<'a, N>, NoMemory>
        requires { N ≤ 16 }
        ensures items { IfOk result (λ list. list.items ≡ []) }
        ensures capacity { IfOk result (λ list. count ≤ list.capacity) }
    {
        let mut nodes = SmallVec::new(alloc);
        nodes.reserve(count)?;
        let mut sets = SmallVec::new(alloc);
        sets.reserve(count)?;
        Ok(AheadList { nodes, sets })
    }

    /// The number of nodes.
    pub(crate) fn len(&self) -> usize
        ensures value { result ≡ length self.now.items }
    {
        self.nodes.len()
    }

    /// The node with this index, counted from 0.
    pub(crate) fn get(&self, index: usize) -> Option<Ahead<'a, N>>
        requires { index < length self.now.items }
        ensures { slice_get self.now.items index ≡ Some result }
    {
        let sets = &self.sets.as_slice()[index];
        match &self.nodes.as_slice()[index] {
            Some(node) => Some(Ahead {
                id: node.id,
                look: node.look,
                at: node.at,
                goals: sets.goals,
                quiet: sets.quiet,
                next: node.next,
            }),
            None => None,
        }
    }

    /// Adds a node at the end. There is room for it.
    pub(crate) fn push_reserved(&mut self, node: &Ahead<'a, N>)
        requires { length self.old.items < self.old.capacity }
        ensures items { self.new.items ≡ self.old.items ++ Some node.now ∷ [] }
        ensures capacity { self.new.capacity ≡ self.old.capacity }
    {
        self.nodes.push_reserved(Some(AheadNode {
            id: node.id,
            look: node.look,
            at: node.at,
            next: node.next,
        }));
        self.sets.push_reserved(Between {
            goals: node.goals,
            quiet: node.quiet,
        });
    }

    /// Keeps at most the first `count` nodes. The room stays.
    pub(crate) fn truncate(&mut self, count: usize)
        ensures items { self.new.items ≡ take count self.old.items }
        ensures capacity { self.new.capacity ≡ self.old.capacity }
    {
        self.nodes.truncate(count);
        self.sets.truncate(count);
    }
}
