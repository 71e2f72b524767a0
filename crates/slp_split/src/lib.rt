//! Splits a text at a position, and extracts a range of it.
//!
//! ```text
//! let (front, rest) = split(&mut store, root, 4, &mut pairs)?;       // the bytes 1 to 3, and those from 4 on
//! let middle = extract(&mut store, root, 4, 8, &mut pairs)?;         // the bytes 4 to 7
//! ```
//!
//! A split descends from the root and joins, on each side, what it leaves behind. The joins on one side have rising
//! heights, so their costs add up to a multiple of the height h, whatever the length of the text: at most 10·h calls to
//! `pair` for a split and 20·h for a range. Neither part is higher than the whole. The text that was split is
//! unchanged, since nodes never change. Memory is allocated for new nodes alone.
//!
//! Splitting balanced trees so goes back to C. Crane, *Linear lists and priority queues as balanced binary trees*,
//! 1972; on grammars it is M. L. Schmid and N. Schweikardt, PODS 2022.
//!
//! Proved: The texts of both parts, their height and cost (`split`, `extract`).
#![tactic(auto)]

ghost use Rattle.slp_model.specs.Nodes.{tree, root_tree, Grows, IsLive, text_of};
ghost use Rattle.slp_model.specs.Tree.{leaves, height, root_leaves, root_height};
ghost use Rattle.slp_split.specs.Split.{IsSplit, split_cost};
ghost use Rattle.std.specs.Prelude.{◌≡◌, ◌+◌, ◌-◌, ◌*◌, ◌<◌, ◌≤◌, length, take, drop, slice_range, IfOk};

use node_store::{NodeId, Store};
use slp_concat::concat;
use span_types::{NoMemory, Steps};
use std::sync::ledger::Ledger;

/// Roots of the contents of `[1,at)` and `[at,n+1)`, for a text of n bytes.
///
/// The root is live, and 1 ≤ `at` ≤ n+1. Neither result is higher than the root, and for a root of height h at most
/// 10·h calls to `pair` are made.
///
/// # Errors
///
/// `NoMemory` if allocation fails. The store may have more nodes then.
pub fn split<L: Ledger>(
    store: &mut Store,
    root: Option<NodeId>,
    at: u64,
    pairs: &mut Steps<L>,
) -> Result<(Option<NodeId>, Option<NodeId>), NoMemory>
    requires live { IsLive store.old root }
    requires from { 1 ≤ at }
    requires to { at ≤ root_leaves (root_tree store.old root) + 1 }
    ensures grows { Grows store.old store.new pairs.old pairs.new }
    ensures live { IfOk result (λ r. IsLive store.new r.0 × IsLive store.new r.1) }
    ensures before { IfOk result (λ r. text_of store.new r.0 ≡ take (at - 1) (text_of store.old root)) }
    ensures after { IfOk result (λ r. text_of store.new r.1 ≡ drop (at - 1) (text_of store.old root)) }
    ensures low { IfOk result (λ r. root_height (root_tree store.new r.0) ≤ root_height (root_tree store.old root)) }
    ensures high { IfOk result (λ r. root_height (root_tree store.new r.1) ≤ root_height (root_tree store.old root)) }
    ensures cost { pairs.new ≤ pairs.old + 10 * root_height (root_tree store.old root) }
{
    match root {
        None => Ok((None, None)),
        Some(id) => split_node(store, id, at - 1, pairs),
    }
}

/// A root of the content of `[i,j)`.
///
/// The root is live, and 1 ≤ `i` ≤ `j` ≤ n+1 for its text of n bytes. The result is no higher than the root, and for a
/// root of height h at most 20·h calls to `pair` are made.
///
/// # Errors
///
/// `NoMemory` if allocation fails. The store may have more nodes then.
pub fn extract<L: Ledger>(
    store: &mut Store,
    root: Option<NodeId>,
    i: u64,
    j: u64,
    pairs: &mut Steps<L>,
) -> Result<Option<NodeId>, NoMemory>
    requires live { IsLive store.old root }
    requires from { 1 ≤ i }
    requires order { i ≤ j }
    requires to { j ≤ root_leaves (root_tree store.old root) + 1 }
    ensures grows { Grows store.old store.new pairs.old pairs.new }
    ensures live { IfOk result (λ r. IsLive store.new r) }
    ensures text { IfOk result (λ r. text_of store.new r ≡ slice_range (text_of store.old root) (i - 1) (j - 1)) }
    ensures low { IfOk result (λ r. root_height (root_tree store.new r) ≤ root_height (root_tree store.old root)) }
    ensures cost { pairs.new ≤ pairs.old + 20 * root_height (root_tree store.old root) }
{
    let (prefix, _) = split(store, root, j, pairs)?;
    let (_, middle) = split(store, prefix, i, pairs)?;
    Ok(middle)
}

// The roots of the first `count` bytes and of the rest.
fn split_node<L: Ledger>(
    store: &mut Store,
    id: NodeId,
    count: u64,
    pairs: &mut Steps<L>,
) -> Result<(Option<NodeId>, Option<NodeId>), NoMemory>
    requires live { id.index < length store.old }
    requires to { count ≤ leaves (tree store.old id.index) }
    ensures grows { Grows store.old store.new pairs.old pairs.new }
    ensures live { IfOk result (λ r. IsLive store.new r.0 × IsLive store.new r.1) }
    ensures split { IfOk result (λ r. IsSplit (tree store.old id.index) count (root_tree store.new r.0) (root_tree store.new r.1)) }
    ensures paid { IfOk result (λ r. pairs.new ≤ pairs.old + split_cost (height (tree store.old id.index)) (root_tree store.new r.0) (root_tree store.new r.1)) }
    ensures cost { pairs.new ≤ pairs.old + 10 * height (tree store.old id.index) }
{
    let len = store.len(id);
    if count == 0 {
        return Ok((None, Some(id)));
    }
    if count == len {
        return Ok((Some(id), None));
    }
    let (left, right) = store.children(id);
    let middle = store.len(left);
    if count <= middle {
        let (low, high) = split_node(store, left, count, pairs)?;
        let joined = concat(store, high, Some(right), pairs)?;
        return Ok((low, joined));
    }
    let (low, high) = split_node(store, right, count - middle, pairs)?;
    let joined = concat(store, Some(left), low, pairs)?;
    Ok((joined, high))
}
