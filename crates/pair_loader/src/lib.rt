//! Loads a text in pieces: its bytes are paired level by level, and what is left over is joined.
//!
//! ```text
//! let mut loader = Loader::new(alloc)?;
//! loader.feed(&mut store, b"abra", &mut pairs)?;           // pieces of any size
//! loader.feed(&mut store, b"cadabra", &mut pairs)?;
//! let root = loader.finish(&mut store, &mut pairs)?;       // the same root, whatever the pieces were
//! ```
//!
//! The loader has at most one full block of each height, like a binary counter. So equal parts at multiples of their
//! length become the same nodes. For n bytes it makes at most n + 4·(H(n)+1) calls to `pair`, each of expected constant
//! time. Its own memory is at most 49 blocks. The nodes that it makes are in the store, and so is a cache of the blocks
//! of two, four and eight bytes, which makes most calls to `pair` needless.
//!
//! A text without repetition takes a node for each byte or so: there is no search for the smallest grammar, which is
//! hard (M. Charikar et al., *The smallest grammar problem*, 2005). The trees are balanced by construction, as those of
//! M. L. Schmid and N. Schweikardt, PODS 2022, ask.
//!
//! Proved: The tree of the bytes, for any cutting into pieces, and its cost (`load`, `Loader`).
//!
//! Tested: That pairs are made while pieces arrive.
#![tactic(auto)]

ghost use Rattle.pair_loader.specs.Pending.{IsLoader, fed, pending_count};
ghost use Rattle.slp_model.specs.Nodes.{root_tree, Grows, IsLive};
ghost use Rattle.slp_model.specs.Shape.{shape};
ghost use Rattle.span_types.specs.Fibonacci.{height_limit};
ghost use Rattle.std.specs.Prelude.{◌≡◌, ◌+◌, ◌*◌, ◌^◌, ◌≤◌, ◌++◌, [], length, None, Some, IfOk, OnOk, OnErr, IsErr};

mod blocks;
pub mod law;
mod levels;
mod words;

use blocks::{gather_blocks, push_piece};
use node_store::{NodeId, Store};
use span_types::{NoMemory, Steps};
use std::alloc::Global;
use std::marker::Model;
use std::sync::ledger::Ledger;

/// A text that is being loaded into a store.
///
/// It has full blocks of bytes, at most one of each height, as nodes of the store: a block of height h has 2^h bytes.
/// After an error it has none, and returns `NoMemory` from every call.
#[derive(Drop)]
pub struct Loader {
    // The highest block first.
    pending: Option<Vec<NodeId>>,
}

impl Model for Loader {
    ghost use Rattle.std.specs.Prelude.{List, Option};
    ghost use Rattle.std.specs.Option.{option_map};
    ghost use Rattle.slp_model.specs.declared.NodeId.{NodeId};

    ghost Value = { Option (List NodeId) };

    ghost view = { λ l. option_map (λ blocks. blocks.items) l.pending };
}

impl Loader {
    /// A loader that was fed no bytes. Allocates room for 49 blocks.
    ///
    /// # Errors
    ///
    /// `NoMemory` if allocation fails.
    pub fn new(alloc: Global) -> Result<Loader, NoMemory>
        ensures { IfOk result (λ loader. loader ≡ Some []) }
    {
        let blocks = Vec::with_capacity(alloc, MAX_BLOCKS).map_err(|_| NoMemory)?;
        Ok(Loader {
            pending: Some(blocks),
        })
    }

    /// Appends a piece to the bytes that were fed, and makes all pairs of full blocks that it can.
    ///
    /// The store is the one used before, possibly grown, and all bytes fed are at most 2^48. The calls to `pair` plus
    /// the pending blocks afterwards are at most the pending blocks before plus the bytes of the piece. So it takes
    /// expected time linear in the piece, amortized over the pieces.
    ///
    /// # Errors
    ///
    /// `NoMemory` if allocation fails now or failed in an earlier call. The store may have more nodes then, and every
    /// later call returns `NoMemory`.
    pub fn feed<L: Ledger>(
        &mut self,
        store: &mut Store,
        piece: &[u8],
        pairs: &mut Steps<L>,
    ) -> Result<(), NoMemory>
        requires used { IsLoader store.old self.old }
        requires short { length (fed store.old self.old) + length piece.now ≤ 2 ^ 48 }
        ensures grows { Grows store.old store.new pairs.old pairs.new }
        ensures used { IsLoader store.new self.new }
        ensures fed { OnOk result (fed store.new self.new ≡ fed store.old self.old ++ piece.now) }
        ensures failed { OnErr result (self.new ≡ None) }
        ensures refused { self.old ≡ None → IsErr result }
        ensures cost { pairs.new + pending_count self.new ≤ pairs.old + pending_count self.old + length piece.now }
    {
        let mut blocks = self.pending.take().ok_or(NoMemory)?;
        store.expect_bytes(piece.len());
        push_piece(&mut blocks, store, piece, pairs)?;
        self.pending = Some(blocks);
        Ok(())
    }

    /// A root of all bytes fed, whatever the pieces were, with the tree `shape`. The pending blocks are joined from the
    /// lowest up, each to the left of what was joined before.
    ///
    /// The store is the one used before, possibly grown. For n bytes it makes at most 4·(H(n)+1) calls to `pair`, so
    /// that all calls on one loader make at most n + 4·(H(n)+1).
    ///
    /// # Errors
    ///
    /// `NoMemory` if allocation fails now or failed in an earlier call. The store may have more nodes then.
    pub fn finish<L: Ledger>(
        self,
        store: &mut Store,
        pairs: &mut Steps<L>,
    ) -> Result<Option<NodeId>, NoMemory>
        requires used { IsLoader store.old self }
        ensures grows { Grows store.old store.new pairs.old pairs.new }
        ensures live { IfOk result (λ root. IsLive store.new root) }
        ensures tree { IfOk result (λ root. root_tree store.new root ≡ shape (fed store.old self)) }
        ensures refused { self ≡ None → IsErr result }
        ensures cost { pairs.new ≤ pairs.old + 4 * (height_limit (length (fed store.old self)) + 1) }
    {
        let blocks = self.pending.ok_or(NoMemory)?;
        gather_blocks(blocks, store, pairs)
    }
}

// A text of at most 2^48 bytes has blocks of the heights 0 to 48.
const MAX_BLOCKS: usize = 49;

/// A root of the bytes, with the tree `shape`: a loader that is fed once.
///
/// There are n bytes, and n is at most 2^48. At most n + 4·(H(n)+1) calls to `pair` are made.
///
/// # Errors
///
/// `NoMemory` if allocation fails. The store may have more nodes then.
pub fn load<L: Ledger>(
    alloc: Global,
    store: &mut Store,
    bytes: &[u8],
    pairs: &mut Steps<L>,
) -> Result<Option<NodeId>, NoMemory>
    requires { length bytes.now ≤ 2 ^ 48 }
    ensures grows { Grows store.old store.new pairs.old pairs.new }
    ensures live { IfOk result (λ root. IsLive store.new root) }
    ensures tree { IfOk result (λ root. root_tree store.new root ≡ shape bytes.now) }
    ensures cost { pairs.new ≤ pairs.old + length bytes.now + 4 * (height_limit (length bytes.now) + 1) }
{
    let mut loader = Loader::new(alloc)?;
    loader.feed(store, bytes, pairs)?;
    loader.finish(store, pairs)
}
