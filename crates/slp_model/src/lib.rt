//! Nodes of a shared straight-line program, the trees below them, and how trees are joined.
//!
//! ```text
//! let nodes = [Node::Byte(b'a'), Node::Byte(b'b'), Node::Pair(NodeId { index: 0 }, NodeId { index: 1 })];
//! law::trees();                                            // what a proof may use from here on, at no cost
//! ```
//!
//! A text is the tree below one node. A node that many trees share is stored once: node 2 above is the text `ab`. The
//! crate has the two types and, in the folder `specs`, the definitions: what a list of nodes means, when a tree is
//! balanced, what a join and the loader make of trees, and which nodes a compaction keeps. The module `law` has what is
//! proved of these: a balanced tree of n bytes has height at most H(n), and joins keep trees balanced.
//!
//! Nodes and ids are values of a few machine words. The calls of `law` do nothing when the program runs, and take no
//! time.
//!
//! Straight-line programs whose sibling trees differ by at most one in height are the strongly balanced ones of M. L.
//! Schmid and N. Schweikardt, *Query evaluation over SLP-represented document databases with complex document
//! editing*, PODS 2022. The rule itself is that of G. Adelson-Velsky and E. Landis, 1962.
//!
//! Proved: Laws of trees, joins and the loader's shape, and of the kept nodes of a store (`law`).
#![tactic(auto)]

pub mod law;

/// The index of a node in its store, from 0.
#[derive(Clone, Copy, PartialEq, Eq, Hash, Debug)]
pub struct NodeId {
    pub index: usize,
}

/// A rule of the straight-line program: a byte, or a pair of nodes that come before it.
#[derive(Clone, Copy, PartialEq, Eq, Hash, Debug)]
pub enum Node {
    Byte(u8),
    Pair(NodeId, NodeId),
}
