//! Pairs a tree with a sibling that may be two higher or lower.
ghost use Rattle.slp_concat.specs.Halves.{half_tree, IsHalf};
ghost use Rattle.slp_model.specs.Join.{settle_left, settle_right};
ghost use Rattle.slp_model.specs.Nodes.{tree, Grows};
ghost use Rattle.slp_model.specs.Tree.{Fork, leaves, height, IsNear};
ghost use Rattle.std.specs.Prelude.{◌≡◌, ◌+◌, ◌^◌, ◌<◌, ◌≤◌, length, IfOk};

use node_store::{NodeId, Store};
use span_types::{NoMemory, Steps};
use std::sync::ledger::Ledger;

// A child of the tree that is made: a node, or two nodes that are to be paired.
#[derive(Clone, Copy)]
enum Half {
    Made(NodeId),
    Two(NodeId, NodeId),
}

// The children of the node of two siblings: these themselves, or those of a rotation if one is two higher than the other.
fn rotated(store: &Store, siblings: (NodeId, NodeId)) -> (Half, Half)
    requires left { siblings.0.index < length store.now }
    requires right { siblings.1.index < length store.now }
    requires low { height (tree store.now siblings.0.index) ≤ height (tree store.now siblings.1.index) + 2 }
    requires high { height (tree store.now siblings.1.index) ≤ height (tree store.now siblings.0.index) + 2 }
    ensures left { IsHalf store.now result.0 }
    ensures right { IsHalf store.now result.1 }
    ensures near { IsNear (height (half_tree store.now result.0)) (height (half_tree store.now result.1)) }
    ensures leaves { leaves (half_tree store.now result.0) + leaves (half_tree store.now result.1) ≡ leaves (tree store.now siblings.0.index) + leaves (tree store.now siblings.1.index) }
    ensures settled_right { height (tree store.now siblings.0.index) ≤ height (tree store.now siblings.1.index) + 1 → Fork (half_tree store.now result.0) (half_tree store.now result.1) ≡ settle_right (tree store.now siblings.0.index) (tree store.now siblings.1.index) }
    ensures settled_left { height (tree store.now siblings.1.index) ≤ height (tree store.now siblings.0.index) + 1 → Fork (half_tree store.now result.0) (half_tree store.now result.1) ≡ settle_left (tree store.now siblings.0.index) (tree store.now siblings.1.index) }
{
    let (left, right) = siblings;
    let g = store.height(left);
    let h = store.height(right);
    if h > g + 1 {
        let (u, v) = store.children(right);
        if store.height(u) <= store.height(v) {
            return (Half::Two(left, u), Half::Made(v));
        }
        let (first, second) = store.children(u);
        return (Half::Two(left, first), Half::Two(second, v));
    }
    if g > h + 1 {
        let (u, v) = store.children(left);
        if store.height(v) <= store.height(u) {
            return (Half::Made(u), Half::Two(v, right));
        }
        let (first, second) = store.children(v);
        return (Half::Two(u, first), Half::Two(second, right));
    }
    (Half::Made(left), Half::Made(right))
}

// The node of a half.
fn node_of<L: Ledger>(
    store: &mut Store,
    half: Half,
    pairs: &mut Steps<L>,
) -> Result<NodeId, NoMemory>
    requires half { IsHalf store.old half }
    requires short { leaves (half_tree store.old half) ≤ 2 ^ 48 }
    ensures grows { Grows store.old store.new pairs.old pairs.new }
    ensures live { IfOk result (λ id. id.index < length store.new) }
    ensures tree { IfOk result (λ id. tree store.new id.index ≡ half_tree store.old half) }
    ensures cost { pairs.new ≤ pairs.old + 1 }
{
    match half {
        Half::Made(id) => Ok(id),
        Half::Two(left, right) => store.pair(left, right, pairs),
    }
}

/// The node of two siblings, which is made by a rotation if one is two higher than the other.
pub(crate) fn settle<L: Ledger>(
    store: &mut Store,
    siblings: (NodeId, NodeId),
    pairs: &mut Steps<L>,
) -> Result<NodeId, NoMemory>
    requires left { siblings.0.index < length store.old }
    requires right { siblings.1.index < length store.old }
    requires low { height (tree store.old siblings.0.index) ≤ height (tree store.old siblings.1.index) + 2 }
    requires high { height (tree store.old siblings.1.index) ≤ height (tree store.old siblings.0.index) + 2 }
    requires short { leaves (tree store.old siblings.0.index) + leaves (tree store.old siblings.1.index) ≤ 2 ^ 48 }
    ensures grows { Grows store.old store.new pairs.old pairs.new }
    ensures live { IfOk result (λ id. id.index < length store.new) }
    ensures settled_right { height (tree store.old siblings.0.index) ≤ height (tree store.old siblings.1.index) + 1 → IfOk result (λ id. tree store.new id.index ≡ settle_right (tree store.old siblings.0.index) (tree store.old siblings.1.index)) }
    ensures settled_left { height (tree store.old siblings.1.index) ≤ height (tree store.old siblings.0.index) + 1 → IfOk result (λ id. tree store.new id.index ≡ settle_left (tree store.old siblings.0.index) (tree store.old siblings.1.index)) }
    ensures cost { pairs.new ≤ pairs.old + 3 }
{
    let (first, second) = rotated(store, siblings);
    let left = node_of(store, first, pairs)?;
    let right = node_of(store, second, pairs)?;
    store.pair(left, right, pairs)
}
