//! The pending blocks of a loader.
ghost use Rattle.node_store.specs.Blocks.{IsFull, IsBlockAt};
ghost use Rattle.pair_loader.specs.Pending.{AreRising, stack_of, stack_text, IsPending};
ghost use Rattle.slp_model.specs.Nodes.{tree, root_tree, Grows, IsLive, AreLiveIds};
ghost use Rattle.slp_model.specs.Shape.{shape};
ghost use Rattle.slp_model.specs.Tree as spec;
ghost use Rattle.slp_model.specs.Tree.{text, leaves};
ghost use Rattle.span_types.specs.Fibonacci.{height_limit};
ghost use Rattle.std.specs.Prelude.{◌≡◌, ◌+◌, ◌*◌, ◌^◌, ◌<◌, ◌≤◌, ◌++◌, length, take, vec_len, IfOk, OnOk};

use super::levels::block_by_levels;
use super::words::{WORD_HEIGHT, block_of_eight, block_of_four, block_of_two};
use node_store::{NodeId, Store};
use slp_concat::concat;
use span_types::{NoMemory, Steps};
use std::sync::ledger::Ledger;

// Blocks of at most this height are made without reading any height.
const MAX_HEIGHT: u8 = 9;

// The number of bytes of a block of this height.
fn size(height: u8) -> usize
    requires { height ≤ 9 }
    ensures { result ≡ 2 ^ height }
{
    1 << height
}

// Appends a block of this height to the blocks, which are no lower. Two of equal height become a pair.
fn push_block<L: Ledger>(
    blocks: &mut Vec<NodeId>,
    store: &mut Store,
    block: NodeId,
    height: u8,
    pairs: &mut Steps<L>,
) -> Result<(), NoMemory>
    requires blocks { AreLiveIds store.old blocks.old.items }
    requires block { block.index < length store.old }
    requires height { height ≡ spec.height (tree store.old block.index) }
    requires full { IsFull (tree store.old block.index) }
    requires rising { AreRising height (stack_of store.old blocks.old.items) }
    requires short { length (stack_text (stack_of store.old blocks.old.items)) + leaves (tree store.old block.index) ≤ 2 ^ 48 }
    ensures grows { Grows store.old store.new pairs.old pairs.new }
    ensures live { OnOk result (AreLiveIds store.new blocks.new.items) }
    ensures rising { OnOk result (AreRising 0 (stack_of store.new blocks.new.items)) }
    ensures text { OnOk result (stack_text (stack_of store.new blocks.new.items) ≡ stack_text (stack_of store.old blocks.old.items) ++ text (tree store.old block.index)) }
    ensures cost { OnOk result (pairs.new + vec_len blocks.new ≤ pairs.old + vec_len blocks.old + 1) }
    ensures most { pairs.new ≤ pairs.old + vec_len blocks.old }
{
    if let Some(top) = blocks.pop() {
        if store.height(top) == height {
            let pair = store.pair(top, block, pairs)?;
            return push_block(blocks, store, pair, height + 1, pairs);
        }
        blocks.push(top).map_err(|_| NoMemory)?;
    }
    blocks.push(block).map_err(|_| NoMemory)
}

/// The block of 2^height bytes, at most 512.
pub(crate) fn block_of<L: Ledger>(
    store: &mut Store,
    piece: &[u8],
    height: u8,
    pairs: &mut Steps<L>,
) -> Result<NodeId, NoMemory>
    requires low { height ≤ 9 }
    requires long { length piece.now ≡ 2 ^ height }
    ensures grows { Grows store.old store.new pairs.old pairs.new }
    ensures block { IfOk result (λ id. IsBlockAt store.new height piece.now id.index) }
    ensures cost { pairs.new + 1 ≤ pairs.old + length piece.now }
{
    match height {
        0 => store.byte(piece[0]),
        1 => block_of_two(store, piece, pairs),
        2 => block_of_four(store, piece, pairs),
        WORD_HEIGHT => block_of_eight(store, piece, pairs),
        _ => block_by_levels(store, piece, height, pairs),
    }
}

// The height of the next block: the greatest that the bytes left and the block before it allow.
fn next_height(blocks: &Vec<NodeId>, store: &Store, len: usize) -> u8
    requires pending { IsPending store.now blocks.now.items }
    requires some { 0 < len }
    ensures rising { AreRising result (stack_of store.now blocks.now.items) }
    ensures short { 2 ^ result ≤ len }
    ensures low { result ≤ 9 }
{
    let mut height = match blocks.last() {
        Some(top) => store.height(*top).min(MAX_HEIGHT),
        None => MAX_HEIGHT,
    };
    while size(height) > len {
        height -= 1;
    }
    height
}

// Appends a block of the first bytes to the blocks, and returns the number of these bytes.
fn push_some<L: Ledger>(
    blocks: &mut Vec<NodeId>,
    store: &mut Store,
    piece: &[u8],
    pairs: &mut Steps<L>,
) -> Result<usize, NoMemory>
    requires pending { IsPending store.old blocks.old.items }
    requires some { 0 < length piece.now }
    requires short { length (stack_text (stack_of store.old blocks.old.items)) + length piece.now ≤ 2 ^ 48 }
    ensures grows { Grows store.old store.new pairs.old pairs.new }
    ensures some { IfOk result (λ count. 0 < count) }
    ensures within { IfOk result (λ count. count ≤ length piece.now) }
    ensures pending { OnOk result (IsPending store.new blocks.new.items) }
    ensures text { IfOk result (λ count. stack_text (stack_of store.new blocks.new.items) ≡ stack_text (stack_of store.old blocks.old.items) ++ take count piece.now) }
    ensures cost { IfOk result (λ count. pairs.new + vec_len blocks.new ≤ pairs.old + vec_len blocks.old + count) }
    ensures most { pairs.new ≤ pairs.old + vec_len blocks.old + length piece.now }
{
    let height = next_height(blocks, store, piece.len());
    let count = size(height);
    let block = block_of(store, &piece[..count], height, pairs)?;
    push_block(blocks, store, block, height, pairs)?;
    Ok(count)
}

/// Appends the bytes of a piece to the blocks.
pub(crate) fn push_piece<L: Ledger>(
    blocks: &mut Vec<NodeId>,
    store: &mut Store,
    piece: &[u8],
    pairs: &mut Steps<L>,
) -> Result<(), NoMemory>
    requires pending { IsPending store.old blocks.old.items }
    requires short { length (stack_text (stack_of store.old blocks.old.items)) + length piece.now ≤ 2 ^ 48 }
    ensures grows { Grows store.old store.new pairs.old pairs.new }
    ensures pending { OnOk result (IsPending store.new blocks.new.items) }
    ensures text { OnOk result (stack_text (stack_of store.new blocks.new.items) ≡ stack_text (stack_of store.old blocks.old.items) ++ piece.now) }
    ensures cost { OnOk result (pairs.new + vec_len blocks.new ≤ pairs.old + vec_len blocks.old + length piece.now) }
    ensures most { pairs.new ≤ pairs.old + vec_len blocks.old + length piece.now }
{
    let mut rest = piece;
    while !rest.is_empty() {
        let count = push_some(blocks, store, rest, pairs)?;
        rest = &rest[count..];
    }
    Ok(())
}

/// A root of the bytes of all blocks.
pub(crate) fn gather_blocks<L: Ledger>(
    mut blocks: Vec<NodeId>,
    store: &mut Store,
    pairs: &mut Steps<L>,
) -> Result<Option<NodeId>, NoMemory>
    requires { IsPending store.old blocks.items }
    ensures grows { Grows store.old store.new pairs.old pairs.new }
    ensures live { IfOk result (λ root. IsLive store.new root) }
    ensures tree { IfOk result (λ root. root_tree store.new root ≡ shape (stack_text (stack_of store.old blocks.items))) }
    ensures cost { pairs.new ≤ pairs.old + 4 * (height_limit (length (stack_text (stack_of store.old blocks.items))) + 1) }
{
    let mut tail = None;
    while let Some(block) = blocks.pop() {
        tail = concat(store, Some(block), tail, pairs)?;
    }
    Ok(tail)
}
