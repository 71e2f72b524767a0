//! A text that comes in pieces of any size.
ghost use Rattle.share_loader.specs.Blocks.{all_cost};
ghost use Rattle.share_loader.specs.Known.{AreKnown};
ghost use Rattle.share_loader.specs.PartsView.{kept_of};
ghost use Rattle.share_loader.specs.Sharer.{IsKept, kept_text, kept_count, kept_cost};
ghost use Rattle.slp_model.specs.Nodes.{root_tree, Grows, IsLive};
ghost use Rattle.slp_model.specs.Tree.{root_text};
ghost use Rattle.std.specs.Prelude.{◌≡◌, ◌+◌, ◌^◌, ◌<◌, ◌≤◌, ◌++◌, length, vec_len, drop, IfOk, OnOk};

use super::blocks::{Blocks, end_block, take_words};
use super::ends::{ENOUGH, MIN_WORD_BYTES};
use super::words::{Words, node_of};
use node_store::{NodeId, Store};
use span_types::{NoMemory, Steps};
use std::sync::ledger::Ledger;

// The number of bytes of a piece that are copied at once.
const CHUNK: usize = 1 << 16;

/// The words that were taken, and the bytes behind them.
#[derive(Drop)]
pub(crate) struct Parts {
    pub(crate) blocks: Blocks,
    pub(crate) rest: Vec<u8>,
}

// Takes the first `count` bytes away.
fn remove_prefix(text: &mut Vec<u8>, count: usize)
    requires { count ≤ vec_len text.old }
    ensures items { text.new.items ≡ drop count text.old.items }
    ensures len { vec_len text.new + count ≡ vec_len text.old }
{
    let left = text.len() - count;
    text.copy_within(count.., 0);
    text.truncate(left);
}

// Puts some bytes behind those that were fed.
fn feed_chunk<L: Ledger>(
    parts: &mut Parts,
    store: &mut Store,
    chunk: &[u8],
    pairs: &mut Steps<L>,
) -> Result<(), NoMemory>
    requires kept { IsKept store.old (kept_of parts.old) }
    requires short { length (kept_text store.old (kept_of parts.old)) + length chunk.now ≤ 2 ^ 48 }
    ensures grows { Grows store.old store.new pairs.old pairs.new }
    ensures kept { OnOk result (IsKept store.new (kept_of parts.new)) }
    ensures text { OnOk result (kept_text store.new (kept_of parts.new) ≡ kept_text store.old (kept_of parts.old) ++ chunk.now) }
    ensures cost { OnOk result (pairs.new + kept_count (kept_of parts.new) + kept_cost store.old (kept_of parts.old) ≤ pairs.old + kept_count (kept_of parts.old) + length chunk.now + kept_cost store.new (kept_of parts.new)) }
    ensures most { pairs.new + kept_cost store.old (kept_of parts.old) ≤ pairs.old + kept_count (kept_of parts.old) + length chunk.now + all_cost (length (kept_text store.old (kept_of parts.old)) + length chunk.now) }
{
    parts.rest.extend_from_slice(chunk).map_err(|_| NoMemory)?;
    let count = take_words(&mut parts.blocks, store, &parts.rest, ENOUGH, pairs)?;
    remove_prefix(&mut parts.rest, count);
    Ok(())
}

/// Puts a piece behind the bytes that were fed.
pub(crate) fn feed_piece<L: Ledger>(
    parts: &mut Parts,
    store: &mut Store,
    piece: &[u8],
    pairs: &mut Steps<L>,
) -> Result<(), NoMemory>
    requires kept { IsKept store.old (kept_of parts.old) }
    requires short { length (kept_text store.old (kept_of parts.old)) + length piece.now ≤ 2 ^ 48 }
    ensures grows { Grows store.old store.new pairs.old pairs.new }
    ensures kept { OnOk result (IsKept store.new (kept_of parts.new)) }
    ensures text { OnOk result (kept_text store.new (kept_of parts.new) ≡ kept_text store.old (kept_of parts.old) ++ piece.now) }
    ensures cost { OnOk result (pairs.new + kept_count (kept_of parts.new) + kept_cost store.old (kept_of parts.old) ≤ pairs.old + kept_count (kept_of parts.old) + length piece.now + kept_cost store.new (kept_of parts.new)) }
    ensures most { pairs.new + kept_cost store.old (kept_of parts.old) ≤ pairs.old + kept_count (kept_of parts.old) + length piece.now + all_cost (length (kept_text store.old (kept_of parts.old)) + length piece.now) }
{
    parts.blocks.words.make_room(piece.len());
    let mut rest = piece;
    while !rest.is_empty() {
        let count = rest.len().min(CHUNK);
        feed_chunk(parts, store, &rest[..count], pairs)?;
        rest = &rest[count..];
    }
    Ok(())
}

// The root of at most two bytes.
fn short_root<L: Ledger>(
    words: &mut Words,
    store: &mut Store,
    text: &[u8],
    pairs: &mut Steps<L>,
) -> Result<Option<NodeId>, NoMemory>
    requires known { AreKnown store.old words.old.entries.items }
    requires short { length text.now ≤ 2 }
    ensures grows { Grows store.old store.new pairs.old pairs.new }
    ensures live { IfOk result (λ root. IsLive store.new root) }
    ensures text { IfOk result (λ root. root_text (root_tree store.new root) ≡ text.now) }
    ensures cost { pairs.new ≤ pairs.old + length text.now }
{
    if text.is_empty() {
        return Ok(None);
    }
    let node = node_of(words, store, text, pairs)?;
    Ok(Some(node))
}

/// The root of all bytes that were fed.
pub(crate) fn finish_parts<L: Ledger>(
    mut parts: Parts,
    store: &mut Store,
    pairs: &mut Steps<L>,
) -> Result<Option<NodeId>, NoMemory>
    requires { IsKept store.old (kept_of parts) }
    ensures grows { Grows store.old store.new pairs.old pairs.new }
    ensures live { IfOk result (λ root. IsLive store.new root) }
    ensures text { IfOk result (λ root. root_text (root_tree store.new root) ≡ kept_text store.old (kept_of parts)) }
    ensures cost { pairs.new + kept_cost store.old (kept_of parts) ≤ pairs.old + kept_count (kept_of parts) + all_cost (length (kept_text store.old (kept_of parts))) }
{
    if parts.rest.len() < MIN_WORD_BYTES {
        let root = short_root(&mut parts.blocks.words, store, &parts.rest, pairs)?;
        return Ok(root);
    }
    take_words(&mut parts.blocks, store, &parts.rest, 1, pairs)?;
    if parts.blocks.symbols.is_empty() {
        return Ok(parts.blocks.root);
    }
    end_block(&mut parts.blocks, store, pairs)?;
    Ok(parts.blocks.root)
}
