//! The new ids of the nodes of a store that was compacted.
ghost use Rattle.node_store.specs.Moved.{AreRanks, KeepChildren};
ghost use Rattle.slp_model.specs.Kept.{Keeps};
ghost use Rattle.slp_model.specs.Thin as thinning;
ghost use Rattle.std.specs.Prelude.{◌≡◌, ◌<◌, false, get_or, length, IfOk};

use slp_model::{Node, NodeId};
use span_types::NoMemory;
use std::alloc::Global;
use std::marker::Model;

/// The new ids of the nodes that were kept when a store was compacted. Contracts see it as a list of truth values, one
/// for each node of the old store, which says whether the node was kept.
#[derive(Drop)]
pub struct Moves {
    keep: Vec<bool>,
    // how many of the nodes before each one were kept
    ranks: Vec<usize>,
}

impl Model for Moves {
    ghost use Rattle.std.specs.Prelude.{List, Bool, length};

    ghost Value = { List Bool };

    ghost use Rattle.node_store.specs.Moved.{AreRanks};

    ghost view = { λ m. m.keep.items };

    ghost invariant = { λ m. AreRanks m.keep.items m.ranks.items (length m.keep.items) };
}

impl Moves {
    /// The new ids of the kept nodes, and their number. It takes time linear in the nodes, and 9 bytes for each.
    ///
    /// # Errors
    ///
    /// `NoMemory` if allocation fails.
    pub fn new(alloc: Global, keep: &[bool]) -> Result<(Moves, usize), NoMemory>
        ensures moves { IfOk result (λ made. made.0 ≡ keep.now) }
        ensures count { IfOk result (λ made. made.1 ≡ thinning.rank keep.now (length keep.now)) }
    {
        let (ranks, count) = ranks(alloc, keep)?;
        let mut kept = Vec::new(alloc);
        kept.extend_from_slice(keep).map_err(|_| NoMemory)?;
        Ok((Moves { keep: kept, ranks }, count))
    }

    /// The new id of a node that was kept. It takes constant time and allocates nothing, as does `kept`.
    pub fn moved(&self, id: NodeId) -> NodeId
        requires kept { Keeps self.now id.index }
        ensures moved { result.index ≡ thinning.rank self.now id.index }
    {
        NodeId {
            index: self.ranks[id.index],
        }
    }

    /// The node with the new ids of its children, which were kept.
    pub fn renumbered(&self, node: Node) -> Node
        requires children { KeepChildren self.now node }
        ensures node { result ≡ thinning.renumbered (thinning.rank self.now) node }
    {
        match node {
            Node::Byte(b) => Node::Byte(b),
            Node::Pair(left, right) => Node::Pair(self.moved(left), self.moved(right)),
        }
    }

    /// Whether this node of the old store was kept.
    pub fn kept(&self, id: NodeId) -> bool
        requires live { id.index < length self.now }
        ensures kept { result ≡ get_or self.now id.index false }
    {
        self.keep[id.index]
    }
}

// For each node the number of kept nodes before it, and the number of all kept nodes.
fn ranks(alloc: Global, keep: &[bool]) -> Result<(Vec<usize>, usize), NoMemory>
    ensures ranks { IfOk result (λ made. AreRanks keep.now made.0.items (length keep.now)) }
    ensures count { IfOk result (λ made. made.1 ≡ thinning.rank keep.now (length keep.now)) }
{
    let mut numbers = Vec::with_capacity(alloc, keep.len())?;
    let mut next: usize = 0;
    for kept in keep {
        numbers.push(next)?;
        if *kept {
            next += 1;
        }
    }
    Ok((numbers, next))
}
