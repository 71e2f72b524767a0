//! Blocks of words, and the root of those that ended.
ghost use Rattle.share_loader.specs.Blocks.{IsTaken, ended_text, taken_text, blocks_cost, all_cost};
ghost use Rattle.share_loader.specs.BlocksView.{taken_of};
ghost use Rattle.share_loader.specs.Known.{word_height};
ghost use Rattle.share_loader.specs.Symbols.{symbols_text};
ghost use Rattle.slp_model.specs.Nodes.{tree, root_tree, Grows, IsLive};
ghost use Rattle.slp_model.specs.Tree.{text, leaves, root_text, root_leaves};
ghost use Rattle.span_types.specs.Fibonacci.{height_limit};
ghost use Rattle.std.specs.Prelude.{◌≡◌, ◌+◌, ◌*◌, ◌^◌, ◌<◌, ◌≤◌, ◌⊎◌, ◌++◌, None, [], length, vec_len, take, IfOk, OnOk, IsTrue, IsFalse};

use super::ends::word_len;
use super::hashes::{symbol_hash, window_hash};
use super::rounds::{WORD_LEVEL, block_of};
use super::symbols::Symbol;
use super::words::{Words, word_of};
use node_store::{NodeId, Store};
use slp_concat::join;
use span_types::{NoMemory, Steps};
use std::alloc::Global;
use std::sync::ledger::Ledger;

// The minimum number of words of a block other than the last one.
const LEAST_WORDS: usize = 1 << 16;

// The maximum number of words of a block.
const MAX_WORDS: usize = 1 << 19;

// A block ends where this number of bits of the window's hash are zero.
const BLOCK_BITS: u32 = 17;

/// The blocks that ended, as one root, and the symbols of the words behind them.
#[derive(Drop)]
pub(crate) struct Blocks {
    pub(crate) root: Option<NodeId>,
    pub(crate) symbols: Vec<Symbol>,
    pub(crate) words: Words,
    // Room for the symbols of the next round.
    spare: Vec<Symbol>,
    // The hash of the last 64 words.
    window: u64,
}

impl Blocks {
    /// No words, and no memory.
    pub(crate) fn new(alloc: Global) -> Blocks
        ensures { taken_of result ≡ record { root = None; symbols = []; known = [] } }
    {
        Blocks {
            root: None,
            symbols: Vec::new(alloc),
            words: Words::new(alloc),
            spare: Vec::new(alloc),
            window: 0,
        }
    }
}

// The height of a word's node.
fn height_of(len: usize) -> u8
    requires least { 3 ≤ len }
    requires most { len ≤ 8 }
    ensures height { result ≡ word_height len }
    ensures least { 2 ≤ result }
    ensures most { result ≤ 3 }
{
    if len > 4 { WORD_LEVEL + 1 } else { WORD_LEVEL }
}

// Puts the symbol of the word of the first `len` bytes of a text behind the others.
fn push_word<L: Ledger>(
    blocks: &mut Blocks,
    store: &mut Store,
    text: &[u8],
    len: usize,
    pairs: &mut Steps<L>,
) -> Result<(), NoMemory>
    requires taken { IsTaken store.old (taken_of blocks.old) }
    requires least { 3 ≤ len }
    requires most { len ≤ 8 }
    requires within { len ≤ length text.now }
    ensures grows { Grows store.old store.new pairs.old pairs.new }
    ensures taken { OnOk result (IsTaken store.new (taken_of blocks.new)) }
    ensures root { blocks.new.root ≡ blocks.old.root }
    ensures text { OnOk result (symbols_text store.new blocks.new.symbols.items ≡ symbols_text store.old blocks.old.symbols.items ++ take len text.now) }
    ensures len { OnOk result (vec_len blocks.new.symbols ≡ vec_len blocks.old.symbols + 1) }
    ensures cost { pairs.new + 1 ≤ pairs.old + len }
{
    let found = word_of(&mut blocks.words, store, text, len, pairs)?;
    let symbol = Symbol {
        node: found.node,
        hash: symbol_hash(found.hash),
        height: height_of(len),
    };
    blocks.window = window_hash(blocks.window, found.hash);
    blocks.symbols.push(symbol)?;
    Ok(())
}

// Whether the block ends behind the last word.
fn ends_block(blocks: &Blocks) -> bool
    ensures many { IsTrue result → 2 ^ 16 ≤ vec_len blocks.now.symbols }
    ensures few { IsFalse result → vec_len blocks.now.symbols < 2 ^ 19 }
{
    let count = blocks.symbols.len();
    if count >= MAX_WORDS {
        return true;
    }
    count >= LEAST_WORDS && blocks.window >> (64 - BLOCK_BITS) == 0
}

// The root of the blocks with one more block.
fn with_block<L: Ledger>(
    store: &mut Store,
    root: Option<NodeId>,
    block: NodeId,
    pairs: &mut Steps<L>,
) -> Result<NodeId, NoMemory>
    requires root { IsLive store.old root }
    requires block { block.index < length store.old }
    requires short { root_leaves (root_tree store.old root) + leaves (tree store.old block.index) ≤ 2 ^ 48 }
    ensures grows { Grows store.old store.new pairs.old pairs.new }
    ensures live { IfOk result (λ id. id.index < length store.new) }
    ensures text { IfOk result (λ id. text (tree store.new id.index) ≡ root_text (root_tree store.old root) ++ text (tree store.old block.index)) }
    ensures cost { pairs.new ≤ pairs.old + 3 * height_limit (root_leaves (root_tree store.old root) + leaves (tree store.old block.index)) + 1 }
{
    match root {
        Some(root) => {
            let joined = join(store, root, block, pairs)?;
            Ok(joined)
        }
        None => Ok(block),
    }
}

/// Ends the block: its symbols become one node, which is joined to the root of the blocks before.
pub(crate) fn end_block<L: Ledger>(
    blocks: &mut Blocks,
    store: &mut Store,
    pairs: &mut Steps<L>,
) -> Result<(), NoMemory>
    requires taken { IsTaken store.old (taken_of blocks.old) }
    requires some { 0 < vec_len blocks.old.symbols }
    requires short { length (taken_text store.old (taken_of blocks.old)) ≤ 2 ^ 48 }
    ensures grows { Grows store.old store.new pairs.old pairs.new }
    ensures taken { OnOk result (IsTaken store.new (taken_of blocks.new)) }
    ensures text { OnOk result (ended_text store.new (taken_of blocks.new) ≡ taken_text store.old (taken_of blocks.old)) }
    ensures symbols { OnOk result (blocks.new.symbols.items ≡ []) }
    ensures len { OnOk result (vec_len blocks.new.symbols ≡ 0) }
    ensures cost { pairs.new ≤ pairs.old + vec_len blocks.old.symbols + 6 * height_limit (length (taken_text store.old (taken_of blocks.old))) }
{
    let block = block_of(store, &mut blocks.symbols, &mut blocks.spare, pairs)?;
    let root = with_block(store, blocks.root, block, pairs)?;
    blocks.symbols.clear();
    blocks.root = Some(root);
    Ok(())
}

// Takes the first word of a text, and says how long it is.
fn take_word<L: Ledger>(
    blocks: &mut Blocks,
    store: &mut Store,
    text: &[u8],
    pairs: &mut Steps<L>,
) -> Result<usize, NoMemory>
    requires taken { IsTaken store.old (taken_of blocks.old) }
    requires least { 3 ≤ length text.now }
    requires short { length (taken_text store.old (taken_of blocks.old)) + length text.now ≤ 2 ^ 48 }
    ensures grows { Grows store.old store.new pairs.old pairs.new }
    ensures least { IfOk result (λ len. 3 ≤ len) }
    ensures longest { IfOk result (λ len. len ≤ 8) }
    ensures left { IfOk result (λ len. (len ≡ length text.now) ⊎ (len + 3 ≤ length text.now)) }
    ensures taken { OnOk result (IsTaken store.new (taken_of blocks.new)) }
    ensures few { OnOk result (vec_len blocks.new.symbols < 2 ^ 19) }
    ensures text { IfOk result (λ len. taken_text store.new (taken_of blocks.new) ≡ taken_text store.old (taken_of blocks.old) ++ take len text.now) }
    ensures cost { IfOk result (λ len. pairs.new + vec_len blocks.new.symbols + blocks_cost (length (ended_text store.old (taken_of blocks.old))) (length (taken_text store.old (taken_of blocks.old))) ≤ pairs.old + vec_len blocks.old.symbols + len + blocks_cost (length (ended_text store.new (taken_of blocks.new))) (length (taken_text store.new (taken_of blocks.new)))) }
    ensures most { pairs.new ≤ pairs.old + vec_len blocks.old.symbols + length text.now + 6 * height_limit (length (taken_text store.old (taken_of blocks.old)) + length text.now) }
{
    let len = word_len(text);
    push_word(blocks, store, text, len, pairs)?;
    if !ends_block(blocks) {
        return Ok(len);
    }
    end_block(blocks, store, pairs)?;
    Ok(len)
}

/// Takes the words of a text while at least `least` bytes are left, and returns how many bytes they have. If the text has
/// three bytes, or if it keeps nine, each word has at least three.
pub(crate) fn take_words<L: Ledger>(
    blocks: &mut Blocks,
    store: &mut Store,
    text: &[u8],
    least: usize,
    pairs: &mut Steps<L>,
) -> Result<usize, NoMemory>
    requires taken { IsTaken store.old (taken_of blocks.old) }
    requires few { vec_len blocks.old.symbols < 2 ^ 19 }
    requires least { 0 < least }
    requires start { (3 ≤ length text.now) ⊎ (9 ≤ least) }
    requires short { length (taken_text store.old (taken_of blocks.old)) + length text.now ≤ 2 ^ 48 }
    ensures grows { Grows store.old store.new pairs.old pairs.new }
    ensures within { IfOk result (λ count. count ≤ length text.now) }
    ensures all { IfOk result (λ count. length text.now < count + least) }
    ensures left { IfOk result (λ count. (count ≡ 0) ⊎ ((count + 3 ≤ length text.now) ⊎ (least ≤ 8))) }
    ensures taken { OnOk result (IsTaken store.new (taken_of blocks.new)) }
    ensures few { OnOk result (vec_len blocks.new.symbols < 2 ^ 19) }
    ensures text { IfOk result (λ count. taken_text store.new (taken_of blocks.new) ≡ taken_text store.old (taken_of blocks.old) ++ take count text.now) }
    ensures cost { IfOk result (λ count. pairs.new + vec_len blocks.new.symbols + blocks_cost (length (ended_text store.old (taken_of blocks.old))) (length (taken_text store.old (taken_of blocks.old))) ≤ pairs.old + vec_len blocks.old.symbols + count + blocks_cost (length (ended_text store.new (taken_of blocks.new))) (length (taken_text store.new (taken_of blocks.new)))) }
    ensures most { pairs.new + blocks_cost (length (ended_text store.old (taken_of blocks.old))) (length (taken_text store.old (taken_of blocks.old))) ≤ pairs.old + vec_len blocks.old.symbols + length text.now + all_cost (length (taken_text store.old (taken_of blocks.old)) + length text.now) }
{
    let mut count = 0;
    while text.len() - count >= least {
        let len = take_word(blocks, store, &text[count..], pairs)?;
        count += len;
    }
    Ok(count)
}
