//! Nodes stored once each, with the length and the height of the text below them.
//!
//! ```text
//! let mut store = Store::new(alloc);
//! let a = store.byte(b'a')?;
//! let twice = store.pair(a, a, &mut pairs)?;               // the text `aa`; asked for again, the same id
//! assert_eq!((store.len(twice), store.height(twice)), (2, 1));
//! ```
//!
//! All texts share one store, and a part that occurs again, in the same text or in another, costs nothing the second
//! time. Nodes are only added and never change, so an id always means the same text.
//!
//! `byte` and `pair` take expected constant time, amortized over the nodes of the store. The other calls on a node
//! take constant time, and `thin` takes linear time. A node takes 21 bytes if the vectors are full: 8 for itself, 5
//! for its length and height, and two links of 4 bytes. One link is to the first pair that has it on the left. The other
//! is to the first of the other pairs that has it on the right. Most nodes are such a pair, and are found through a child;
//! each other node takes 11 to 21 bytes more, in a hash table. A node whose text has 2^31 bytes or more takes 8 bytes
//! more. Full vectors and a full hash table double.
//!
//! A text is loaded faster if the blocks of its words of two, four and eight bytes are known by their bytes alone:
//! `block_of_word` and `note_word` are a cache of them, which all loads share.
//!
//! Storing each node once is hash consing (A. Ershov, *On programming of arithmetic operations*, 1958). That the trees
//! are balanced is from M. L. Schmid and N. Schweikardt, *Query evaluation over SLP-represented document
//! databases with complex document editing*, PODS 2022.
//!
//! Proved: Equal nodes are one. Nodes are balanced, have at most 2^48 bytes and height at most H, and never change
//! (`Store`). The compacted store has exactly the kept nodes, in order, each with its tree (`Store::thin`, `Moves`).
//! The block that is found for a word is the word's (`Store::block_of_word`).
//!
//! Tested: That colliding hashes go to the search tree, and that texts and images made of them take at most ten times
//! as long as random ones.
//!
//! Neither: Memory per node; time of a search.
#![tactic(auto)]

ghost use Rattle.node_store.specs.Blocks.{IsBlockOf};
ghost use Rattle.node_store.specs.Known.{IsBlockOfWord};
ghost use Rattle.node_store.specs.Stored.{IsNext, IsKept};
ghost use Rattle.slp_model.specs.Distinct.{AreDistinct, AreOfBytes};
ghost use Rattle.slp_model.specs.Kept.{IsPlanOf};
ghost use Rattle.slp_model.specs.Nodes.{tree, trees, node_tree, pair_count, Grows, IsNodeAt, IsSound};
ghost use Rattle.slp_model.specs.Thin as thinning;
ghost use Rattle.slp_model.specs.Thin.{IsCompactionOf};
ghost use Rattle.slp_model.specs.Tree.{Fork, Leaf, leaves, height, IsNear, IsBalanced};
ghost use Rattle.span_types.specs.Fibonacci.{fibonacci, height_limit};
ghost use Rattle.std.specs.Prelude.{◌≡◌, ◌+◌, ◌^◌, ◌<◌, ◌≤◌, [], length, get_or, max, slice_get, IfSome, IfOk, IsTrue, OnErr, Some};

mod lengths;
mod moves;
mod narrow;
mod node_table;
mod nodes;
mod others;
mod room;
mod search_tree;
mod thin;
mod words;

use lengths::Lengths;
pub use moves::Moves;
use nodes::Nodes;
use room::reserve_one;
pub use slp_model::{Node, NodeId};
use span_types::{NoMemory, Steps};
use std::alloc::Global;
use std::marker::Model;
use std::sync::ledger::Ledger;
use thin::compacted_nodes;
pub use words::WordSize;
use words::Words;

/// What is known of a node without reading the nodes below it.
#[derive(Clone, Copy, Debug)]
pub(crate) struct Facts {
    pub(crate) len: u64,
    pub(crate) height: u8,
}

/// The nodes of a straight-line program in the order in which they were added, each once. A child comes before its
/// parent, and nodes never change.
///
/// An empty store takes no memory. A node takes 21 bytes if the vectors are full. It takes 11 to 21 more if it is neither
/// the first pair with its left child nor the first of the other pairs with its right child, and 8 more if its text has
/// 2^31 bytes or more. Full vectors are doubled. So is the hash table once three in four slots are taken, and the old one
/// is kept until the new one is filled. There are fewer than 2^32 nodes, and at most 2^31 whose texts have 2^31 bytes or
/// more.
///
/// Once 4,096 bytes were expected, the store also has a cache of the blocks of the last words of two, four and eight
/// bytes, if memory allows. It takes 128 KB, and 4.5 MB from 262,144 bytes on, for all texts together. A compacted store
/// begins without it.
#[derive(Drop)]
pub struct Store {
    nodes: Nodes,
    lens: Lengths,
    heights: Vec<u8>,
    // The index after the node that was found last. A text that is loaded again, or that is in an image, requests its
    // nodes in the order in which they were added.
    next: usize,
    // Each entry's node is the block of its bytes.
    words: Words,
}

impl Model for Store {
    ghost use Rattle.std.specs.Prelude.{List};
    ghost use Rattle.slp_model.specs.declared.Node.{Node};

    ghost Value = { List Node };

    ghost use Rattle.node_store.specs.Stored.{IsStored};
    ghost use Rattle.node_store.specs.Known.{AreKnown};
    ghost use Rattle.node_store.specs.WordsView.{known_of};

    ghost view = { λ s. s.nodes };

    ghost invariant = { λ s. IsStored s.nodes s.lens.all s.heights.items × AreKnown s.nodes (known_of s.words) };
}

impl Store {
    /// No nodes.
    pub fn new(alloc: Global) -> Store
        ensures { result ≡ [] }
    {
        Store {
            nodes: Nodes::new(alloc),
            lens: Lengths::new(alloc),
            heights: Vec::new(alloc),
            next: 0,
            words: Words::new(alloc),
        }
    }

    /// The number of nodes: at most one for each byte, and the pairs.
    pub fn count(&self) -> usize
        ensures count { result ≡ length self.now }
        ensures sound { IsSound self.now }
        ensures distinct { AreDistinct self.now }
        ensures bytes { AreOfBytes self.now }
        ensures few { length self.now ≤ 256 + pair_count self.now }
    {
        self.nodes.len()
    }

    /// The node with this id. Takes constant time, as do `len`, `height` and `children`.
    pub fn node(&self, id: NodeId) -> Node
        requires { id.index < length self.now }
        ensures node { slice_get self.now id.index ≡ Some result }
        ensures tree { IsNodeAt self.now id.index result }
        ensures balanced { IsBalanced (tree self.now id.index) }
    {
        self.nodes.at(id.index)
    }

    /// The length of the node's text in bytes, at most 2^48.
    pub fn len(&self, id: NodeId) -> u64
        requires { id.index < length self.now }
        ensures len { result ≡ leaves (tree self.now id.index) }
        ensures short { result ≤ 2 ^ 48 }
        ensures balanced { IsBalanced (tree self.now id.index) }
    {
        self.lens.at(id.index)
    }

    /// The height of the node's tree: 0 for a byte, and for a pair one more than the higher of its
    /// children. A node of n bytes has height at most H(n), so at most 68.
    pub fn height(&self, id: NodeId) -> u8
        requires { id.index < length self.now }
        ensures height { result ≡ height (tree self.now id.index) }
        ensures enough { fibonacci (result + 2) ≤ leaves (tree self.now id.index) }
        ensures limit { result ≤ height_limit (leaves (tree self.now id.index)) }
        ensures low { result ≤ 68 }
        ensures balanced { IsBalanced (tree self.now id.index) }
    {
        self.heights[id.index]
    }

    /// The two children of a node that isn't a byte.
    pub fn children(&self, id: NodeId) -> (NodeId, NodeId)
        requires live { id.index < length self.now }
        requires high { 0 < height (tree self.now id.index) }
        ensures node { slice_get self.now id.index ≡ Some (Node.Pair result.0 result.1) }
        ensures tree { tree self.now id.index ≡ Fork (tree self.now result.0.index) (tree self.now result.1.index) }
        ensures left { result.0.index < id.index }
        ensures right { result.1.index < id.index }
        ensures balanced { IsBalanced (Fork (tree self.now result.0.index) (tree self.now result.1.index)) }
    {
        match self.node(id) {
            Node::Pair(left, right) => (left, right),
            // A byte's tree has height 0.
            Node::Byte(_) => unreachable!(),
        }
    }

    /// The id of the byte's node, which is added last if it isn't there. Takes expected constant time, and counts no
    /// step.
    ///
    /// # Errors
    ///
    /// `NoMemory` if allocation fails; the store is then unchanged.
    pub fn byte(&mut self, b: u8) -> Result<NodeId, NoMemory>
        ensures grows { Grows self.old self.new 0 0 }
        ensures kept { IsKept self.old self.new (Node.Byte b) }
        ensures node { IfOk result (λ id. slice_get self.new id.index ≡ Some (Node.Byte b)) }
        ensures live { IfOk result (λ id. id.index < length self.new) }
        ensures tree { IfOk result (λ id. tree self.new id.index ≡ Leaf b) }
        ensures err { OnErr result (self.new ≡ self.old) }
    {
        let node = Node::Byte(b);
        if let Some(id) = self.found_next(node) {
            return Ok(id);
        }
        let facts = Facts { len: 1, height: 0 };
        self.insert(node, facts)
    }

    /// The id of the pair, which is added last if it isn't there. It counts as one step, and takes expected constant
    /// time, amortized over the nodes of the store.
    ///
    /// The children's heights differ by at most one, and the text has at most 2^48 bytes.
    ///
    /// # Errors
    ///
    /// `NoMemory` if allocation fails, or no further node fits. The store is then unchanged, and the step is counted.
    pub fn pair<L: Ledger>(
        &mut self,
        left: NodeId,
        right: NodeId,
        pairs: &mut Steps<L>,
    ) -> Result<NodeId, NoMemory>
        requires left { left.index < length self.old }
        requires right { right.index < length self.old }
        requires near { IsNear (height (tree self.old left.index)) (height (tree self.old right.index)) }
        requires short { leaves (tree self.old left.index) + leaves (tree self.old right.index) ≤ 2 ^ 48 }
        ensures grows { Grows self.old self.new pairs.old pairs.new }
        ensures kept { IsKept self.old self.new (Node.Pair left right) }
        ensures node { IfOk result (λ id. slice_get self.new id.index ≡ Some (Node.Pair left right)) }
        ensures live { IfOk result (λ id. id.index < length self.new) }
        ensures tree { IfOk result (λ id. tree self.new id.index ≡ Fork (tree self.old left.index) (tree self.old right.index)) }
        ensures err { OnErr result (self.new ≡ self.old) }
        ensures step { pairs.new ≡ pairs.old + 1 }
    {
        pairs.tick();
        match self.found_next(Node::Pair(left, right)) {
            Some(id) => Ok(id),
            None => self.insert_pair(left, right),
        }
    }

    /// The id of the pair of two blocks of 2^height bytes each, whose trees have this height. It returns what `pair`
    /// returns, without reading their lengths and heights. It counts as one step.
    ///
    /// # Errors
    ///
    /// Those of `pair`.
    pub fn pair_blocks<L: Ledger>(
        &mut self,
        left: NodeId,
        right: NodeId,
        height: u8,
        pairs: &mut Steps<L>,
    ) -> Result<NodeId, NoMemory>
        requires left { IsBlockOf self.old height left }
        requires right { IsBlockOf self.old height right }
        requires short { height < 48 }
        ensures grows { Grows self.old self.new pairs.old pairs.new }
        ensures kept { IsKept self.old self.new (Node.Pair left right) }
        ensures node { IfOk result (λ id. slice_get self.new id.index ≡ Some (Node.Pair left right)) }
        ensures live { IfOk result (λ id. id.index < length self.new) }
        ensures tree { IfOk result (λ id. tree self.new id.index ≡ Fork (tree self.old left.index) (tree self.old right.index)) }
        ensures err { OnErr result (self.new ≡ self.old) }
        ensures step { pairs.new ≡ pairs.old + 1 }
    {
        pairs.tick();
        let pair = Node::Pair(left, right);
        if let Some(id) = self.found_next(pair) {
            return Ok(id);
        }
        let facts = Facts {
            len: 1 << (height + 1),
            height: height + 1,
        };
        self.insert(pair, facts)
    }

    /// Makes room for the pairs of neighbours (the first with the second, the third with the fourth and so on) that
    /// aren't found at once, as far as memory allows. It helps before many pairs are requested one after the other: the
    /// processor then waits for the memory of all of them at once.
    pub fn make_room(&mut self, blocks: &[NodeId])
        ensures { self.new ≡ self.old }
    {
        let count = self.nodes.unknown_pairs(blocks);
        self.lens.make_room(count);
        let _heights = self.heights.reserve(count);
        self.nodes.make_room(count);
    }

    /// Makes room for the blocks of the words of further bytes, as many as pay, if memory allows. Called before each
    /// piece of a text, with the piece's number of bytes.
    pub fn expect_bytes(&mut self, len: usize)
        ensures { self.new ≡ self.old }
    {
        self.words.expect_bytes(len);
    }

    /// Makes room for the blocks of a piece's words of eight bytes that `block_of_word` doesn't find, as far as memory
    /// allows. It helps before many words are requested one after the other, as `make_room` does.
    pub fn make_room_for_words(&mut self, piece: &[u8])
        ensures { self.new ≡ self.old }
    {
        let count = self.words.unknown_words(piece);
        self.lens.make_room(count);
        let _heights = self.heights.reserve(count);
        self.nodes.make_room(count);
    }

    /// The block of a word, if it was noted and no later word took its entry. `bytes` are the bytes of the word as a
    /// number, the first one lowest. Takes constant time.
    #[inline(always)]
    pub fn block_of_word(&self, size: WordSize, bytes: u64) -> Option<NodeId>
        ensures { IfSome result (λ id. IsBlockOfWord self.now size bytes id.index) }
    {
        self.words.block_of(size, bytes)
    }

    /// Notes the block of a word for `block_of_word`, if there is room. Takes constant time.
    #[inline(always)]
    pub fn note_word(&mut self, size: WordSize, bytes: u64, block: NodeId)
        requires { IsBlockOfWord self.old size bytes block.index }
        ensures { self.new ≡ self.old }
    {
        self.words.note(size, bytes, block);
    }

    // The id of the node, if it follows the one that was found last.
    fn found_next(&mut self, node: Node) -> Option<NodeId>
        ensures sound { IsSound self.old }
        ensures same { self.new ≡ self.old }
        ensures live { IfSome result (λ id. id.index < length self.old) }
        ensures node { IfSome result (λ id. slice_get self.old id.index ≡ Some node) }
        ensures tree { IfSome result (λ id. tree self.old id.index ≡ node_tree (trees self.old) node) }
    {
        let index = self.next;
        if !self.is_at(index, node) {
            return None;
        }
        self.next = index.wrapping_add(1);
        Some(NodeId { index })
    }

    // Whether the node has this index.
    fn is_at(&self, index: usize, node: Node) -> bool
        ensures sound { IsSound self.now }
        ensures live { IsTrue result → index < length self.now }
        ensures node { IsTrue result → slice_get self.now index ≡ Some node }
        ensures tree { IsTrue result → tree self.now index ≡ node_tree (trees self.now) node }
    {
        index < self.nodes.len() && self.nodes.at(index) == node
    }

    /// A store of the kept nodes alone, in their order and under new numbers, and the new number of each. Takes time
    /// linear in the nodes of this store, and makes no call to `pair`.
    ///
    /// # Errors
    ///
    /// `NoMemory` if allocation fails.
    pub fn thin(&self, alloc: Global, keep: &[bool]) -> Result<(Store, Moves), NoMemory>
        requires plan { IsPlanOf self.now keep.now }
        ensures store { IfOk result (λ made. made.0 ≡ thinning.thin self.now keep.now) }
        ensures moves { IfOk result (λ made. made.1 ≡ keep.now) }
        ensures thin { IfOk result (λ made. IsCompactionOf self.now keep.now made.0) }
    {
        let (moves, count) = Moves::new(alloc, keep)?;
        let store = compacted_nodes(alloc, self, &moves, count)?;
        Ok((store, moves))
    }

    // No nodes, and room for this many.
    fn with_room(alloc: Global, count: usize) -> Result<Store, NoMemory>
        ensures { IfOk result (λ store. store ≡ []) }
    {
        Ok(Store {
            nodes: Nodes::with_capacity(alloc, count)?,
            lens: Lengths::with_capacity(alloc, count)?,
            heights: Vec::with_capacity(alloc, count)?,
            next: 0,
            words: Words::new(alloc),
        })
    }

    // The id of the pair. The lengths and heights of its children are read only if it is added: a wait for memory less
    // for each pair that is there.
    fn insert_pair(&mut self, left: NodeId, right: NodeId) -> Result<NodeId, NoMemory>
        requires left { left.index < length self.old }
        requires right { right.index < length self.old }
        requires near { IsNear (height (tree self.old left.index)) (height (tree self.old right.index)) }
        requires short { leaves (tree self.old left.index) + leaves (tree self.old right.index) ≤ 2 ^ 48 }
        ensures kept { IsKept self.old self.new (Node.Pair left right) }
        ensures node { IfOk result (λ id. slice_get self.new id.index ≡ Some (Node.Pair left right)) }
        ensures live { IfOk result (λ id. id.index < length self.new) }
        ensures tree { IfOk result (λ id. tree self.new id.index ≡ Fork (tree self.old left.index) (tree self.old right.index)) }
        ensures err { OnErr result (self.new ≡ self.old) }
    {
        self.lens.reserve_one()?;
        reserve_one(&mut self.heights)?;
        let (index, added) = self.nodes.insert(Node::Pair(left, right))?;
        self.next = index.wrapping_add(1);
        if added {
            let facts = pair_facts(&self.lens, &self.heights, left, right);
            self.lens.push(facts.len);
            self.heights.push_reserved(facts.height);
        }
        Ok(NodeId { index })
    }

    // The id of the node, whose facts are these.
    fn insert(&mut self, node: Node, facts: Facts) -> Result<NodeId, NoMemory>
        requires { IsNext self.old node facts }
        ensures kept { IsKept self.old self.new node }
        ensures node { IfOk result (λ id. slice_get self.new id.index ≡ Some node) }
        ensures live { IfOk result (λ id. id.index < length self.new) }
        ensures tree { IfOk result (λ id. tree self.new id.index ≡ node_tree (trees self.old) node) }
        ensures err { OnErr result (self.new ≡ self.old) }
    {
        self.lens.reserve_one()?;
        reserve_one(&mut self.heights)?;
        let (index, added) = self.nodes.insert(node)?;
        self.next = index.wrapping_add(1);
        if added {
            self.lens.push(facts.len);
            self.heights.push_reserved(facts.height);
        }
        Ok(NodeId { index })
    }
}

// The length and the height of a pair, from those of its children.
fn pair_facts(lens: &Lengths, heights: &[u8], left: NodeId, right: NodeId) -> Facts
    requires lens_left { left.index < length lens.now.all }
    requires lens_right { right.index < length lens.now.all }
    requires heights_left { left.index < length heights.now }
    requires heights_right { right.index < length heights.now }
    requires short { get_or lens.now.all left.index 0 + get_or lens.now.all right.index 0 ≤ 2 ^ 48 }
    requires low_left { get_or heights.now left.index 0 < 255 }
    requires low_right { get_or heights.now right.index 0 < 255 }
    ensures len { result.len ≡ get_or lens.now.all left.index 0 + get_or lens.now.all right.index 0 }
    ensures height { result.height ≡ max (get_or heights.now left.index 0) (get_or heights.now right.index 0) + 1 }
{
    Facts {
        len: lens.at(left.index) + lens.at(right.index),
        height: heights[left.index].max(heights[right.index]) + 1,
    }
}
