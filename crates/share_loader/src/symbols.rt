//! Symbols: the nodes of a block that are paired in rounds.

use node_store::NodeId;

/// A node with its height, and a hash of its text and tree that decides with which neighbours it is paired.
#[derive(Clone, Copy)]
pub(crate) struct Symbol {
    pub(crate) node: NodeId,
    pub(crate) hash: u32,
    pub(crate) height: u8,
}
