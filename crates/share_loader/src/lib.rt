//! Loads a text in pieces so that equal parts share nodes at any offset: the cuts between subtrees depend on the bytes, and
//! not on their positions.
//!
//! ```text
//! let mut sharer = Sharer::new(alloc)?;
//! sharer.feed(&mut store, b"abra", &mut pairs)?;           // pieces of any size
//! sharer.feed(&mut store, b"cadabra", &mut pairs)?;
//! let root = sharer.finish(&mut store, &mut pairs)?;       // the same root, whatever the pieces were
//! ```
//!
//! The bytes are cut into words of 3 to 8 bytes, each where the two bytes beside the cut fit worst together. A word is a symbol:
//! a node and a hash. In rounds, neighbouring symbols are paired in groups of two or three. A group ends where a hash is the
//! least among its neighbours. So two equal parts are cut in the same way, except at their ends. A text of more than 65,536
//! words is cut into blocks, again by a hash of the words there, and each block's root is joined to the blocks before.
//!
//! For n bytes there are at most n + (n/65,536 + 1)·(6·H(n) + 1) calls to `pair`, each of expected constant time. Beside the
//! store a sharer has the symbols of one block of at most 4 MiB, of 16 bytes each, as much room for the next round, and 4 MB
//! for words that it has seen before.
//!
//! Cuts that depend on the content are those of A. Muthitacharoen, B. Chen and D. Mazières, *A low-bandwidth network file
//! system*, SOSP 2001. Rounds of groups whose borders depend on a few neighbours are locally consistent parsing (S. C. Sahinalp
//! and U. Vishkin, 1994; K. Mehlhorn, R. Sundar and C. Uhrig, 1997). Here a group joins nodes of nearly equal height, so that
//! the trees are balanced as those of M. L. Schmid and N. Schweikardt, PODS 2022.
//!
//! Proved: The text of the bytes, for any cutting into pieces, and its cost (`share`, `Sharer`).
//!
//! Tested: The same root for any pieces, and that equal parts share nodes.
#![tactic(auto)]

ghost use Rattle.share_loader.specs.Blocks.{all_cost};
ghost use Rattle.share_loader.specs.Sharer.{unfed, IsSharer, fed, open_count, ended_cost};
ghost use Rattle.slp_model.specs.Nodes.{root_tree, Grows, IsLive};
ghost use Rattle.slp_model.specs.Tree.{root_text};
ghost use Rattle.span_types.specs.Fibonacci.{height_limit};
ghost use Rattle.std.specs.Prelude.{◌≡◌, ◌+◌, ◌*◌, ◌/◌, ◌^◌, ◌≤◌, ◌++◌, length, None, Some, IfOk, OnOk, OnErr, IsErr};

mod blocks;
mod ends;
mod hashes;
pub mod law;
mod parts;
mod rounds;
mod symbols;
mod words;

use blocks::Blocks;
use node_store::{NodeId, Store};
use parts::{Parts, feed_piece, finish_parts};
use span_types::{NoMemory, Steps};
use std::alloc::Global;
use std::marker::Model;
use std::sync::ledger::Ledger;

/// A text that is being loaded into a store so that its equal parts are shared.
///
/// It has the root of the blocks that ended, the symbols of fewer than 2^19 words behind them, and at most 10 bytes that aren't
/// in a word yet. After an error it has none, and returns `NoMemory` from every call. From 4,096 bytes on it also has a cache
/// of the nodes of the last words and of their halves, if memory allows. The cache takes 64 KB, and 4 MB from 262,144 bytes on.
/// So most words need no calls to `pair`.
#[derive(Drop)]
pub struct Sharer {
    parts: Option<Parts>,
}

impl Model for Sharer {
    ghost use Rattle.std.specs.Prelude.{Option};
    ghost use Rattle.std.specs.Option.{option_map};
    ghost use Rattle.share_loader.specs.Sharer.{Kept};
    ghost use Rattle.share_loader.specs.PartsView.{kept_of};

    ghost Value = { Option Kept };

    ghost view = { λ s. option_map kept_of s.parts };
}

impl Sharer {
    /// A sharer that was fed no bytes.
    ///
    /// # Errors
    ///
    /// `NoMemory` if allocation fails.
    pub fn new(alloc: Global) -> Result<Sharer, NoMemory>
        ensures { IfOk result (λ sharer. sharer ≡ Some unfed) }
    {
        let rest = Vec::with_capacity(alloc, FIRST_CAPACITY).map_err(|_| NoMemory)?;
        let parts = Parts {
            blocks: Blocks::new(alloc),
            rest,
        };
        Ok(Sharer { parts: Some(parts) })
    }

    /// Appends a piece to the bytes that were fed, and makes the nodes of all words and blocks that end in it.
    ///
    /// The store is the one used before, possibly grown, and all bytes fed are at most 2^48. All calls on one sharer for n bytes
    /// make at most n + (n/65,536 + 1)·(6·H(n) + 1) calls to `pair`. One call makes at most one for each byte of the piece and
    /// for each open symbol or byte that it ends, and 6·H(n) + 1 for each 65,536 bytes in blocks.
    ///
    /// # Errors
    ///
    /// `NoMemory` if allocation fails now or failed in an earlier call. The store may have more nodes then, and every
    /// later call returns `NoMemory`.
    pub fn feed<L: Ledger>(
        &mut self,
        store: &mut Store,
        piece: &[u8],
        pairs: &mut Steps<L>,
    ) -> Result<(), NoMemory>
        requires used { IsSharer store.old self.old }
        requires short { length (fed store.old self.old) + length piece.now ≤ 2 ^ 48 }
        ensures grows { Grows store.old store.new pairs.old pairs.new }
        ensures used { IsSharer store.new self.new }
        ensures fed { OnOk result (fed store.new self.new ≡ fed store.old self.old ++ piece.now) }
        ensures failed { OnErr result (self.new ≡ None) }
        ensures refused { self.old ≡ None → IsErr result }
        ensures cost { OnOk result (pairs.new + open_count self.new + ended_cost store.old self.old ≤ pairs.old + open_count self.old + length piece.now + ended_cost store.new self.new) }
        ensures most { pairs.new + ended_cost store.old self.old ≤ pairs.old + open_count self.old + length piece.now + all_cost (length (fed store.old self.old) + length piece.now) }
    {
        let mut parts = self.parts.take().ok_or(NoMemory)?;
        feed_piece(&mut parts, store, piece, pairs)?;
        self.parts = Some(parts);
        Ok(())
    }

    /// A root of all bytes fed. The tree depends on the bytes alone, and not on the pieces.
    ///
    /// The store is the one used before, possibly grown.
    ///
    /// # Errors
    ///
    /// `NoMemory` if allocation fails now or failed in an earlier call. The store may have more nodes then.
    pub fn finish<L: Ledger>(
        self,
        store: &mut Store,
        pairs: &mut Steps<L>,
    ) -> Result<Option<NodeId>, NoMemory>
        requires { IsSharer store.old self }
        ensures grows { Grows store.old store.new pairs.old pairs.new }
        ensures live { IfOk result (λ root. IsLive store.new root) }
        ensures text { IfOk result (λ root. root_text (root_tree store.new root) ≡ fed store.old self) }
        ensures refused { self ≡ None → IsErr result }
        ensures cost { pairs.new + ended_cost store.old self ≤ pairs.old + open_count self + all_cost (length (fed store.old self)) }
    {
        let parts = self.parts.ok_or(NoMemory)?;
        finish_parts(parts, store, pairs)
    }
}

// Room for the first bytes.
const FIRST_CAPACITY: usize = 16;

/// A root of the bytes: a sharer that is fed once.
///
/// There are n bytes, and n is at most 2^48. At most n + (n/65,536 + 1)·(6·H(n) + 1) calls to `pair` are made.
///
/// # Errors
///
/// `NoMemory` if allocation fails. The store may have more nodes then.
pub fn share<L: Ledger>(
    alloc: Global,
    store: &mut Store,
    bytes: &[u8],
    pairs: &mut Steps<L>,
) -> Result<Option<NodeId>, NoMemory>
    requires { length bytes.now ≤ 2 ^ 48 }
    ensures grows { Grows store.old store.new pairs.old pairs.new }
    ensures live { IfOk result (λ root. IsLive store.new root) }
    ensures text { IfOk result (λ root. root_text (root_tree store.new root) ≡ bytes.now) }
    ensures cost { pairs.new ≤ pairs.old + length bytes.now + (length bytes.now / 65536 + 1) * (6 * height_limit (length bytes.now) + 1) }
{
    let mut sharer = Sharer::new(alloc)?;
    sharer.feed(store, bytes, pairs)?;
    let root = sharer.finish(store, pairs)?;
    Ok(root)
}
