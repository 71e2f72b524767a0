//! The bytes of a range of a text, read from its nodes in order.
//!
//! ```text
//! let mut bytes = RangeBytes::new(alloc, &store, root, 1000, 1004)?;    // the positions 1000 to 1003
//! while let Some(byte) = bytes.next() {
//!     out.push(byte)?;
//! }
//! ```
//!
//! The start takes time proportional to the height of the text's tree, at most 69 steps, and allocates all memory: an
//! entry for each level. After that a byte takes constant time on average and allocates nothing. So m bytes from the
//! middle of a text of any length take time proportional to m plus the height. It is a walk in order over a tree with a
//! stack of what is still to come (D. Knuth, *The Art of Computer Programming*, volume 1, section 2.3.1).
//!
//! `root_len` returns the length of a text, and `is_within` whether a text of this length has a range.
//!
//! Proved: The bytes of a span, in order (`RangeBytes`), and the length of a text, whose tree is low (`root_len`).
#![tactic(auto)]

ghost use Rattle.range_read.specs.Waiting.{IsTrail, trail_text};
ghost use Rattle.slp_model.specs.Nodes.{tree, root_tree, IsLive, text_of};
ghost use Rattle.slp_model.specs.Tree.{text, height, leaves, root_height, root_leaves};
ghost use Rattle.span_types.specs.Fibonacci.{height_limit};
ghost use Rattle.span_types.specs.Ranges.{content, is_range};
ghost use Rattle.std.specs.Prelude.{◌≡◌, ℕ, ◌+◌, ◌^◌, ◌<◌, ◌≤◌, ◌∷◌, ◌++◌, length, drop, IfOk, vec_len, vec_capacity};

use node_store::{Node, NodeId, Store};
use span_types::NoMemory;
use std::alloc::Global;
use std::marker::Model;

/// The bytes of a range of a text, in order.
///
/// Contracts see it as the list of the bytes that are left. The nodes whose bytes are still to come are on a stack, the
/// trail, the next one last. Each is lower than those before it, so an entry for each level of the text's tree is
/// enough.
#[derive(Drop)]
pub struct RangeBytes<'a> {
    store: &'a Store,
    trail: Vec<NodeId>,
    left: u64,
}

impl<'a> Model for RangeBytes<'a> {
    ghost use Rattle.std.specs.Prelude.{ℕ, ◌≤◌, List, length, take, vec_capacity};
    ghost use Rattle.range_read.specs.Waiting.{IsTrail, trail_text};

    ghost Value = { List ℕ };

    ghost view = { λ r. take r.left (trail_text r.store.now r.trail.items) };

    ghost invariant = { λ r. IsTrail r.store.now (vec_capacity r.trail) r.trail.items × (r.left ≤ length (trail_text r.store.now r.trail.items)) };
}

// Pushes the part of a node's text after its first `skip` bytes onto the trail.
fn skip_onto(store: &Store, trail: &mut Vec<NodeId>, root: NodeId, skip: u64)
    requires live { root.index < length store.now }
    requires within { skip < leaves (tree store.now root.index) }
    requires empty { vec_len trail.old ≡ 0 }
    requires room { height (tree store.now root.index) < vec_capacity trail.old }
    ensures text { trail_text store.now trail.new.items ≡ drop skip (text (tree store.now root.index)) }
    ensures trail { IsTrail store.now (vec_capacity trail.new) trail.new.items }
{
    let mut id = root;
    let mut skip = skip;
    'down: while skip > 0 {
        let (left, right) = store.children(id);
        let len = store.len(left);
        if skip < len {
            trail.push_reserved(right);
            id = left;
        } else {
            skip -= len;
            id = right;
        }
    }
    trail.push_reserved(id);
}

// The first byte of a node's text, whose other bytes are pushed onto the trail.
fn first_byte(store: &Store, trail: &mut Vec<NodeId>, id: NodeId) -> u8
    requires live { id.index < length store.now }
    requires trail { IsTrail store.now (vec_capacity trail.old) trail.old.items }
    requires room { height (tree store.now id.index) + length trail.old.items < vec_capacity trail.old }
    ensures text { text (tree store.now id.index) ++ trail_text store.now trail.old.items ≡ result ∷ trail_text store.now trail.new.items }
    ensures trail { IsTrail store.now (vec_capacity trail.new) trail.new.items }
{
    let mut id = id;
    'down: loop {
        match store.node(id) {
            Node::Byte(byte) => return byte,
            Node::Pair(left, right) => {
                trail.push_reserved(right);
                id = left;
            }
        }
    }
}

impl<'a> RangeBytes<'a> {
    /// The bytes at the positions `i` to `j - 1` of the root's text. Positions count from 1. It allocates all memory
    /// that the walk needs, and takes time proportional to the height of the text's tree.
    ///
    /// # Errors
    ///
    /// `NoMemory` if allocation fails, for at most 69 entries.
    pub fn new(
        alloc: Global,
        store: &'a Store,
        root: Option<NodeId>,
        i: u64,
        j: u64,
    ) -> Result<RangeBytes<'a>, NoMemory>
        requires live { IsLive store.now root }
        requires from { 1 ≤ i }
        requires order { i ≤ j }
        requires within { j ≤ root_leaves (root_tree store.now root) + 1 }
        ensures { IfOk result (λ bytes. bytes ≡ content (text_of store.now root) i j) }
    {
        let id = match root {
            Some(id) if i < j => id,
            _ => {
                return Ok(RangeBytes {
                    store,
                    trail: Vec::new(alloc),
                    left: 0,
                });
            }
        };
        let levels = usize::from(store.height(id)) + 1;
        let mut trail = Vec::with_capacity(alloc, levels)?;
        skip_onto(store, &mut trail, id, i - 1);
        Ok(RangeBytes {
            store,
            trail,
            left: j - i,
        })
    }
}

impl<'a> Iterator for RangeBytes<'a> {
    type Item = u8;

    ghost use Rattle.std.specs.Iterator.{YieldsFirst, item_count};

    ghost next_gives = { YieldsFirst (λ bytes. bytes) };

    ghost remaining = { item_count (λ bytes. bytes) };

    /// The next byte. Allocates nothing. It takes constant time on average over a walk, since each byte takes one node
    /// from the trail.
    fn next(&mut self) -> Option<u8> {
        let store = self.store;
        if self.left == 0 {
            return None;
        }
        let id = self.trail.pop()?;
        self.left -= 1;
        Some(first_byte(store, &mut self.trail, id))
    }
}

/// The length of a root's text, in bytes. Takes constant time.
pub fn root_len(store: &Store, root: Option<NodeId>) -> u64
    requires { IsLive store.now root }
    ensures len { result ≡ length (text_of store.now root) }
    ensures short { result ≤ 2 ^ 48 }
    ensures low { (n : ℕ) → length (text_of store.now root) ≤ n → root_height (root_tree store.now root) ≤ height_limit n }
    ensures most { root_height (root_tree store.now root) ≤ 68 }
{
    match root {
        Some(id) => store.len(id),
        None => 0,
    }
}

/// Whether a text of `len` bytes has the range from `i` to `j - 1`: 1 ≤ i ≤ j ≤ len + 1. The range is empty if i = j.
pub fn is_within(i: u64, j: u64, len: u64) -> bool
    requires { len ≤ 2 ^ 48 }
    ensures { result ≡ is_range i j len }
{
    1 <= i && i <= j && j <= len + 1
}
