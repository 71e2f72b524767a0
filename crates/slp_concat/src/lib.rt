//! Joins the texts of two roots, and keeps trees balanced.
//!
//! ```text
//! let root = concat(&mut store, left, right, &mut pairs)?;  // the text of `left`, and then that of `right`
//! ```
//!
//! Neither text is read: two trees of heights g and h are joined by at most 3·|g-h| + 1 calls to `pair`, and by none if
//! a side is empty. The new tree is as high as the higher of the two, or one more, and all other nodes of both stay
//! shared. So doubling a text of 2^47 bytes makes one node. Memory is allocated for new nodes alone.
//!
//! It is concatenation of height-balanced trees (G. Adelson-Velsky and E. Landis, 1962) on a shared grammar, as in W.
//! Rytter, *Application of Lempel–Ziv factorization to the approximation of grammar-based compression*, Theoretical
//! Computer Science 302, 2003.
//!
//! Proved: The tree of a join, its text, height and cost (`concat`, `join`).
#![tactic(auto)]

ghost use Rattle.slp_model.specs.Join.{join, join_roots, join_cost, root_cost, IsJoinedRoot};
ghost use Rattle.slp_model.specs.Nodes.{tree, root_tree, Grows, IsLive};
ghost use Rattle.slp_model.specs.Tree.{leaves, height, root_leaves, IsNear, IsBalanced};
ghost use Rattle.std.specs.Prelude.{◌≡◌, ◌+◌, ◌^◌, ◌<◌, ◌≤◌, length, IfOk};

mod settle;

use node_store::{NodeId, Store};
use settle::settle;
use span_types::{NoMemory, Steps};
use std::sync::ledger::Ledger;

/// A root of the text of `left` followed by that of `right`, with the tree `join_roots`.
///
/// Both are live, and the joined text has at most 2^48 bytes. With heights g and h the result has height max(g, h) or
/// one more, and at most 3·|g-h| + 1 calls to `pair` are made. If a side is empty, the result is the other side, and no
/// call is made.
///
/// # Errors
///
/// `NoMemory` if allocation fails. The store may have more nodes then.
pub fn concat<L: Ledger>(
    store: &mut Store,
    left: Option<NodeId>,
    right: Option<NodeId>,
    pairs: &mut Steps<L>,
) -> Result<Option<NodeId>, NoMemory>
    requires left { IsLive store.old left }
    requires right { IsLive store.old right }
    requires short { root_leaves (root_tree store.old left) + root_leaves (root_tree store.old right) ≤ 2 ^ 48 }
    ensures grows { Grows store.old store.new pairs.old pairs.new }
    ensures live { IfOk result (λ root. IsLive store.new root) }
    ensures tree { IfOk result (λ root. root_tree store.new root ≡ join_roots (root_tree store.old left) (root_tree store.old right)) }
    ensures joined { IfOk result (λ root. IsJoinedRoot (root_tree store.old left) (root_tree store.old right) (root_tree store.new root)) }
    ensures cost { pairs.new ≤ pairs.old + root_cost (root_tree store.old left) (root_tree store.old right) }
{
    match (left, right) {
        (Some(a), Some(b)) => {
            let id = join(store, a, b, pairs)?;
            Ok(Some(id))
        }
        (Some(a), None) => Ok(Some(a)),
        (None, root) => Ok(root),
    }
}

/// The node of the joined text of two nodes, with their `join` as its tree.
///
/// Trees whose heights differ by at most one become a pair, in one step. Otherwise the lower tree is joined to the
/// facing child of the higher one, and the result becomes the sibling of the other child, by a rotation if it is two
/// higher than that. So two trees of heights g and h take at most 3·|g-h| + 1 steps, and at most 205.
///
/// # Errors
///
/// `NoMemory` if allocation fails. The store may have more nodes then.
pub fn join<L: Ledger>(
    store: &mut Store,
    a: NodeId,
    b: NodeId,
    pairs: &mut Steps<L>,
) -> Result<NodeId, NoMemory>
    requires a { a.index < length store.old }
    requires b { b.index < length store.old }
    requires short { leaves (tree store.old a.index) + leaves (tree store.old b.index) ≤ 2 ^ 48 }
    ensures grows { Grows store.old store.new pairs.old pairs.new }
    ensures live { IfOk result (λ id. id.index < length store.new) }
    ensures tree { IfOk result (λ id. tree store.new id.index ≡ join (tree store.old a.index) (tree store.old b.index)) }
    ensures balanced { IsBalanced (tree store.old a.index) × IsBalanced (tree store.old b.index) }
    ensures near { IsNear (height (tree store.old a.index)) (height (tree store.old b.index)) → pairs.new ≡ pairs.old + 1 }
    ensures low { join_cost (height (tree store.old a.index)) (height (tree store.old b.index)) ≤ 205 }
    ensures cost { pairs.new ≤ pairs.old + join_cost (height (tree store.old a.index)) (height (tree store.old b.index)) }
{
    let g = store.height(a);
    let h = store.height(b);
    if g > h + 1 {
        let (left, c) = store.children(a);
        let t = join(store, c, b, pairs)?;
        return settle(store, (left, t), pairs);
    }
    if h > g + 1 {
        let (c, right) = store.children(b);
        let t = join(store, a, c, pairs)?;
        return settle(store, (t, right), pairs);
    }
    store.pair(a, b, pairs)
}
