//! The nodes of a store that are kept when it is compacted: those below the kept roots. They make the compacted store.
//!
//! ```text
//! let mut plan = Plan::new(alloc, &store)?;
//! plan.keep_root(&store, root)?;              // and so for each root to keep
//! let (thin, moves) = plan.build(alloc, &store)?;
//! ```
//!
//! A plan takes a byte for each node of the store. All calls of `keep_root` on one plan together take time linear in
//! the number of roots and of kept nodes, since kept nodes aren't visited again. They allocate nothing: the search is
//! as deep as a node is high, at most 68 levels. It is the marking of a mark-sweep collector (McCarthy, "Recursive
//! functions of symbolic expressions and their computation by machine, part I", 1960), and the marks are
//! exact: nothing is kept beside what the roots reach.
//!
//! Proved: Exactly the nodes below the roots are kept (`Plan::keep_root`, `Plan::build`, `Plan::moves`).
//!
//! Neither: Time.
#![tactic(auto)]

ghost use Rattle.slp_model.specs.Kept.{AddsExactly, IsPlanOf, Reaches, RootReaches};
ghost use Rattle.slp_model.specs.Nodes.{IsLive};
ghost use Rattle.slp_model.specs.Thin as thinning;
ghost use Rattle.slp_model.specs.Thin.{IsCompactionOf};
ghost use Rattle.std.specs.Prelude.{◌≡◌, ◌<◌, false, length, replicate, IfOk, IsOk};

use node_store::{Moves, Node, NodeId, Store};
use span_types::NoMemory;
use std::alloc::Global;
use std::marker::Model;

/// Which nodes of a store are kept. Contracts see it as a list of truth values, one for each node of the store.
#[derive(Drop)]
pub struct Plan {
    keep: Vec<bool>,
}

impl Model for Plan {
    ghost use Rattle.std.specs.Prelude.{List, Bool};

    ghost Value = { List Bool };

    ghost view = { λ p. p.keep.items };
}

impl Plan {
    /// A plan that keeps no node of the store.
    ///
    /// # Errors
    ///
    /// `NoMemory` if allocation fails.
    pub fn new(alloc: Global, store: &Store) -> Result<Plan, NoMemory>
        ensures none { IfOk result (λ plan. plan ≡ replicate (length store.now) false) }
        ensures plan { IfOk result (IsPlanOf store.now) }
    {
        Ok(Plan {
            keep: vec![in alloc; false; store.count()]?,
        })
    }

    /// Keeps the root and all nodes below it, in addition to those that are kept already. The store is the one that the
    /// plan was made for. Allocates nothing.
    ///
    /// # Errors
    ///
    /// None: it always returns `Ok`.
    pub fn keep_root(&mut self, store: &Store, root: Option<NodeId>) -> Result<(), NoMemory>
        requires plan { IsPlanOf store.now self.old }
        requires live { IsLive store.now root }
        ensures accepted { IsOk result }
        ensures kept { AddsExactly self.old self.new (RootReaches store.now root) }
        ensures plan { IsPlanOf store.now self.new }
    {
        if let Some(id) = root {
            keep_below(store, &mut self.keep, id);
        }
        Ok(())
    }

    /// The new ids of the kept nodes, and their number. Takes time linear in the nodes of the store. It makes no
    /// compacted store, for callers that only write the kept nodes to a file.
    ///
    /// # Errors
    ///
    /// `NoMemory` if allocation fails.
    pub fn moves(&self, alloc: Global) -> Result<(Moves, usize), NoMemory>
        ensures moves { IfOk result (λ made. made.0 ≡ self.now) }
        ensures count { IfOk result (λ made. made.1 ≡ thinning.rank self.now (length self.now)) }
    {
        Moves::new(alloc, &self.keep)
    }

    /// The compacted store: the kept nodes in their order, each with its tree under a new id, and these ids. The store
    /// is the one that the plan was made for. Takes time linear in its nodes.
    ///
    /// # Errors
    ///
    /// `NoMemory` if allocation fails.
    pub fn build(&self, alloc: Global, store: &Store) -> Result<(Store, Moves), NoMemory>
        requires plan { IsPlanOf store.now self.now }
        ensures store { IfOk result (λ made. made.0 ≡ thinning.thin store.now self.now) }
        ensures moves { IfOk result (λ made. made.1 ≡ self.now) }
        ensures thin { IfOk result (λ made. IsCompactionOf store.now self.now made.0) }
    {
        store.thin(alloc, &self.keep)
    }
}

// Keeps the node and all nodes below it. A node is kept after its children. So the children of a kept node are always
// kept, and a kept node needs no second visit.
fn keep_below(store: &Store, keep: &mut [bool], id: NodeId)
    requires plan { IsPlanOf store.now keep.old }
    requires live { id.index < length store.now }
    ensures kept { AddsExactly keep.old keep.new (Reaches store.now id.index) }
    ensures plan { IsPlanOf store.now keep.new }
{
    if keep[id.index] {
        return;
    }
    if let Node::Pair(left, right) = store.node(id) {
        keep_below(store, keep, left);
        keep_below(store, keep, right);
    }
    keep[id.index] = true;
}
