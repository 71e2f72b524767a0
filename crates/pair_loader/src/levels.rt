//! Blocks made level by level.
ghost use Rattle.node_store.specs.Blocks.{IsBlockAt};
ghost use Rattle.pair_loader.specs.Blocks.{AreBlocks};
ghost use Rattle.slp_model.specs.Nodes.{Grows};
ghost use Rattle.std.specs.Prelude.{◌≡◌, ◌+◌, ◌*◌, ◌/◌, ◌^◌, ◌<◌, ◌≤◌, length, IfOk, OnOk};

use super::words::{WORD_HEIGHT, block_of_eight};
use node_store::{NodeId, Store};
use span_types::{NoMemory, Steps};
use std::sync::ledger::Ledger;

// The number of words of eight bytes in a block of height 9.
const MAX_WORDS: usize = 64;

/// The block of 2^height bytes: first the blocks of its words, and then level by level their pairs. The requests of one
/// level to the store don't depend on each other, so a processor can overlap them. The two halves of a block and their
/// pair do depend on each other.
pub(crate) fn block_by_levels<L: Ledger>(
    store: &mut Store,
    piece: &[u8],
    height: u8,
    pairs: &mut Steps<L>,
) -> Result<NodeId, NoMemory>
    requires high { 3 ≤ height }
    requires low { height ≤ 9 }
    requires long { length piece.now ≡ 2 ^ height }
    ensures grows { Grows store.old store.new pairs.old pairs.new }
    ensures block { IfOk result (λ id. IsBlockAt store.new height piece.now id.index) }
    ensures cost { pairs.new + 1 ≤ pairs.old + length piece.now }
{
    let mut ids = [NodeId { index: 0 }; MAX_WORDS];
    put_words(store, piece, &mut ids, pairs)?;
    for level in WORD_HEIGHT..height {
        pair_neighbours(store, piece, level, &mut ids, pairs)?;
    }
    Ok(ids[0])
}

// Writes the blocks of the words of eight bytes of a piece, in their order, to the start of `ids`.
fn put_words<L: Ledger>(
    store: &mut Store,
    piece: &[u8],
    ids: &mut [NodeId],
    pairs: &mut Steps<L>,
) -> Result<(), NoMemory>
    requires { length piece.now / 8 ≤ length ids.old }
    ensures grows { Grows store.old store.new pairs.old pairs.new }
    ensures made { OnOk result (AreBlocks store.new 3 (length piece.now / 8) piece.now ids.new) }
    ensures cost { pairs.new ≤ pairs.old + 7 * (length piece.now / 8) }
{
    store.make_room_for_words(piece);
    for index in 0..piece.len() / 8 {
        let start = 8 * index;
        ids[index] = block_of_eight(store, &piece[start..start + 8], pairs)?;
    }
    Ok(())
}

// Turns the blocks of this height of a piece, at the start of `ids`, into those of the next height: each two neighbours
// become one pair.
fn pair_neighbours<L: Ledger>(
    store: &mut Store,
    piece: &[u8],
    height: u8,
    ids: &mut [NodeId],
    pairs: &mut Steps<L>,
) -> Result<(), NoMemory>
    requires low { height < 9 }
    requires room { length piece.now / 2 ^ height ≤ length ids.old }
    requires made { AreBlocks store.old height (length piece.now / 2 ^ height) piece.now ids.old }
    ensures grows { Grows store.old store.new pairs.old pairs.new }
    ensures made { OnOk result (AreBlocks store.new (height + 1) (length piece.now / 2 ^ (height + 1)) piece.now ids.new) }
    ensures cost { pairs.new ≤ pairs.old + length piece.now / 2 ^ (height + 1) }
{
    store.make_room(&ids[..piece.len() >> height]);
    for index in 0..piece.len() >> (height + 1) {
        ids[index] = store.pair_blocks(ids[2 * index], ids[2 * index + 1], height, pairs)?;
    }
    Ok(())
}
