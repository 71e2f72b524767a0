//! The blocks of words of two, four and eight bytes.
ghost use Rattle.node_store.specs.Blocks.{IsBlockAt};
ghost use Rattle.slp_model.specs.Nodes.{Grows};
ghost use Rattle.std.specs.Int.{w16, w32, w64, to_le_bytes};
ghost use Rattle.std.specs.Prelude.{◌≡◌, ◌+◌, ◌≤◌, [], ◌∷◌, length, IfOk};

use node_store::{NodeId, Store, WordSize};
use span_types::{NoMemory, Steps};
use std::sync::ledger::Ledger;

/// The height of the blocks of the longest words, which have eight bytes.
pub(crate) const WORD_HEIGHT: u8 = 3;

/// The block of two bytes.
pub(crate) fn block_of_two<L: Ledger>(
    store: &mut Store,
    word: &[u8],
    pairs: &mut Steps<L>,
) -> Result<NodeId, NoMemory>
    requires { length word.now ≡ 2 }
    ensures grows { Grows store.old store.new pairs.old pairs.new }
    ensures block { IfOk result (λ id. IsBlockAt store.new 1 word.now id.index) }
    ensures cost { pairs.new ≤ pairs.old + 1 }
{
    let bytes = number_of_two(word);
    if let Some(block) = store.block_of_word(WordSize::Two, bytes) {
        return Ok(block);
    }
    let block = pair_of_bytes(store, word[0], word[1], pairs)?;
    store.note_word(WordSize::Two, bytes, block);
    Ok(block)
}

/// The block of four bytes.
pub(crate) fn block_of_four<L: Ledger>(
    store: &mut Store,
    word: &[u8],
    pairs: &mut Steps<L>,
) -> Result<NodeId, NoMemory>
    requires { length word.now ≡ 4 }
    ensures grows { Grows store.old store.new pairs.old pairs.new }
    ensures block { IfOk result (λ id. IsBlockAt store.new 2 word.now id.index) }
    ensures cost { pairs.new ≤ pairs.old + 3 }
{
    let bytes = number_of_four(word);
    if let Some(block) = store.block_of_word(WordSize::Four, bytes) {
        return Ok(block);
    }
    let (first, second) = word.split_at(2);
    let left = block_of_two(store, first, pairs)?;
    let right = block_of_two(store, second, pairs)?;
    let block = store.pair_blocks(left, right, 1, pairs)?;
    store.note_word(WordSize::Four, bytes, block);
    Ok(block)
}

/// The block of eight bytes.
pub(crate) fn block_of_eight<L: Ledger>(
    store: &mut Store,
    word: &[u8],
    pairs: &mut Steps<L>,
) -> Result<NodeId, NoMemory>
    requires { length word.now ≡ 8 }
    ensures grows { Grows store.old store.new pairs.old pairs.new }
    ensures block { IfOk result (λ id. IsBlockAt store.new 3 word.now id.index) }
    ensures cost { pairs.new ≤ pairs.old + 7 }
{
    let bytes = number_of_eight(word);
    if let Some(block) = store.block_of_word(WordSize::Eight, bytes) {
        return Ok(block);
    }
    let (first, second) = word.split_at(4);
    let left = block_of_four(store, first, pairs)?;
    let right = block_of_four(store, second, pairs)?;
    let block = store.pair_blocks(left, right, 2, pairs)?;
    store.note_word(WordSize::Eight, bytes, block);
    Ok(block)
}

fn number_of_two(word: &[u8]) -> u64
    requires { length word.now ≡ 2 }
    ensures { to_le_bytes w16 result ≡ word.now }
{
    u64::from(u16::from_le_bytes([word[0], word[1]]))
}

fn number_of_four(word: &[u8]) -> u64
    requires { length word.now ≡ 4 }
    ensures { to_le_bytes w32 result ≡ word.now }
{
    u64::from(u32::from_le_bytes([word[0], word[1], word[2], word[3]]))
}

fn number_of_eight(word: &[u8]) -> u64
    requires { length word.now ≡ 8 }
    ensures { to_le_bytes w64 result ≡ word.now }
{
    u64::from_le_bytes([
        word[0], word[1], word[2], word[3], word[4], word[5], word[6], word[7],
    ])
}

// The block of two bytes, by the store.
fn pair_of_bytes<L: Ledger>(
    store: &mut Store,
    first: u8,
    second: u8,
    pairs: &mut Steps<L>,
) -> Result<NodeId, NoMemory>
    ensures grows { Grows store.old store.new pairs.old pairs.new }
    ensures block { IfOk result (λ id. IsBlockAt store.new 1 (first ∷ second ∷ []) id.index) }
    ensures cost { pairs.new ≤ pairs.old + 1 }
{
    let left = store.byte(first)?;
    let right = store.byte(second)?;
    let block = store.pair_blocks(left, right, 0, pairs)?;
    Ok(block)
}
