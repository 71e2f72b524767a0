//! The nodes of words, found by their bytes.
ghost use Rattle.share_loader.specs.Known.{IsWordAt, AreKnown};
ghost use Rattle.slp_model.specs.Nodes.{Grows};
ghost use Rattle.slp_model.specs.declared.Node.{Node};
ghost use Rattle.std.specs.Int.{w64, to_le_bytes};
ghost use Rattle.std.specs.Prelude.{◌≡◌, ◌+◌, ◌<◌, ◌≤◌, length, IfSome, IfOk, List, [], take};

use super::ends::MAX_WORD_BYTES;
use super::hashes::word_hash;
use node_store::{NodeId, Store};
use span_types::{NoMemory, Steps};
use std::alloc::Global;
use std::sync::ledger::Ledger;

// From this number of bytes on a text pays for a small table of its words.
const SHORT_TEXT: usize = 1 << 12;

// From this number of bytes on it pays for a large one.
const LONG_TEXT: usize = 1 << 18;

// The numbers of entries of the tables.
const SHORT_TEXT_ENTRIES: usize = 1 << 12;

const LONG_TEXT_ENTRIES: usize = 1 << 18;

/// A word that was met, with the index of its node: its bytes as a number with the first byte lowest, and how many they are.
/// An empty entry has length 0.
#[derive(Clone, Copy)]
pub(crate) struct Entry {
    pub(crate) bytes: u64,
    pub(crate) len: u8,
    pub(crate) index: u32,
}

/// The nodes of the words that were met last: each word has one index, and a new word replaces the one at its index.
#[derive(Drop)]
pub(crate) struct Words {
    pub(crate) entries: Vec<Entry>,
    // How many bytes were fed. Nothing that is proved depends on it.
    fed: usize,
}

impl Words {
    /// No words, and no memory.
    pub(crate) fn new(alloc: Global) -> Words
        ensures { result.entries.items ≡ [] }
    {
        Words {
            entries: Vec::new(alloc),
            fed: 0,
        }
    }

    /// Makes room for the words of `len` further bytes, as much as pays, if there is memory for it.
    pub(crate) fn make_room(&mut self, len: usize)
        ensures { (nodes : List Node) → AreKnown nodes self.old.entries.items → AreKnown nodes self.new.entries.items }
    {
        self.fed = self.fed.saturating_add(len);
        if self.fed >= LONG_TEXT {
            make_entries(&mut self.entries, LONG_TEXT_ENTRIES);
        } else if self.fed >= SHORT_TEXT {
            make_entries(&mut self.entries, SHORT_TEXT_ENTRIES);
        }
    }
}

// Makes `count` empty entries, unless there are as many, if there is memory for them.
fn make_entries(entries: &mut Vec<Entry>, count: usize)
    ensures { (nodes : List Node) → AreKnown nodes entries.old.items → AreKnown nodes entries.new.items }
{
    let empty = Entry {
        bytes: 0,
        len: 0,
        index: 0,
    };
    if entries.len() < count {
        entries.clear();
        let _ = entries.resize(count, empty);
    }
}

/// The bytes of a word as a number with the first byte lowest, how many they are, and a hash of both.
#[derive(Clone, Copy)]
pub(crate) struct Key {
    pub(crate) bytes: u64,
    pub(crate) len: u8,
    pub(crate) hash: u64,
}

/// The node of a word, and the hash of its bytes.
#[derive(Clone, Copy)]
pub(crate) struct Word {
    pub(crate) node: NodeId,
    pub(crate) hash: u64,
}

/// The node of the first `len` bytes of a text, at most eight.
pub(crate) fn word_of<L: Ledger>(
    words: &mut Words,
    store: &mut Store,
    text: &[u8],
    len: usize,
    pairs: &mut Steps<L>,
) -> Result<Word, NoMemory>
    requires known { AreKnown store.old words.old.entries.items }
    requires some { 0 < len }
    requires short { len ≤ 8 }
    requires within { len ≤ length text.now }
    ensures grows { Grows store.old store.new pairs.old pairs.new }
    ensures known { AreKnown store.new words.new.entries.items }
    ensures word { IfOk result (λ found. IsWordAt store.new (take len text.now) found.node.index) }
    ensures cost { pairs.new + 1 ≤ pairs.old + len }
{
    let key = key_of(text, len);
    let hash = key.hash;
    if let Some(node) = found(&words.entries, key) {
        return Ok(Word { node, hash });
    }
    let node = node_of(words, store, &text[..len], pairs)?;
    Ok(Word { node, hash })
}

// The key of the first `len` bytes of a text.
#[inline(always)]
fn key_of(text: &[u8], len: usize) -> Key
    requires short { len ≤ 8 }
    requires within { len ≤ length text.now }
    ensures len { result.len ≡ len }
    ensures word { take result.len (to_le_bytes w64 result.bytes) ≡ take len text.now }
{
    let bytes = number_of(text, len);
    let hash = word_hash(bytes, len as u8);
    Key {
        bytes,
        len: len as u8,
        hash,
    }
}

// The first `len` bytes of a text as a number, with the first byte lowest.
#[inline(always)]
fn number_of(text: &[u8], len: usize) -> u64
    requires short { len ≤ 8 }
    requires within { len ≤ length text.now }
    ensures { take len (to_le_bytes w64 result) ≡ take len text.now }
{
    if text.len() < MAX_WORD_BYTES {
        return number_of_eight(&padded(&text[..len]));
    }
    let number = number_of_eight(&text[..MAX_WORD_BYTES]);
    if len == MAX_WORD_BYTES {
        return number;
    }
    number % (1 << (8 * len))
}

#[inline(always)]
fn number_of_eight(bytes: &[u8]) -> u64
    requires { length bytes.now ≡ 8 }
    ensures { to_le_bytes w64 result ≡ bytes.now }
{
    u64::from_le_bytes([
        bytes[0], bytes[1], bytes[2], bytes[3], bytes[4], bytes[5], bytes[6], bytes[7],
    ])
}

// The bytes of a word, and zeros behind them.
fn padded(word: &[u8]) -> [u8; MAX_WORD_BYTES]
    requires { length word.now ≤ 8 }
    ensures long { length result ≡ 8 }
    ensures prefix { take (length word.now) result ≡ word.now }
{
    let mut bytes = [0; MAX_WORD_BYTES];
    bytes[..word.len()].copy_from_slice(word);
    bytes
}

// The index of a hash in the table: its highest bits, in proportion to the table's length.
fn index_of(entries: &[Entry], hash: u64) -> usize {
    ((hash >> 32).wrapping_mul(entries.len() as u64) >> 32) as usize
}

// The node of the word, if it is at its index.
#[inline(always)]
fn found(entries: &[Entry], key: Key) -> Option<NodeId>
    requires { 0 < key.len }
    ensures { IfSome result (λ id. (nodes : List Node) → AreKnown nodes entries.now → IsWordAt nodes (take key.len (to_le_bytes w64 key.bytes)) id.index) }
{
    let entry = entries.get(index_of(entries, key.hash))?;
    if entry.bytes == key.bytes && entry.len == key.len {
        let index = entry.index as usize;
        return Some(NodeId { index });
    }
    None
}

// Puts a word at its index, if there is a table.
fn note(entries: &mut Vec<Entry>, key: Key, node: NodeId)
    ensures { (nodes : List Node) → IsWordAt nodes (take key.len (to_le_bytes w64 key.bytes)) node.index → AreKnown nodes entries.old.items → AreKnown nodes entries.new.items }
{
    let slot = index_of(entries, key.hash);
    let Key { bytes, len, .. } = key;
    if let (Some(entry), Ok(index)) = (entries.get_mut(slot), u32::try_from(node.index)) {
        *entry = Entry { bytes, len, index };
    }
}

/// The node of at most eight bytes: the pair of the nodes of their halves, which are in the table as words are. Most words that
/// aren't in the table have halves that are.
pub(crate) fn node_of<L: Ledger>(
    words: &mut Words,
    store: &mut Store,
    bytes: &[u8],
    pairs: &mut Steps<L>,
) -> Result<NodeId, NoMemory>
    requires known { AreKnown store.old words.old.entries.items }
    requires some { 0 < length bytes.now }
    requires short { length bytes.now ≤ 8 }
    ensures grows { Grows store.old store.new pairs.old pairs.new }
    ensures known { AreKnown store.new words.new.entries.items }
    ensures word { IfOk result (λ id. IsWordAt store.new bytes.now id.index) }
    ensures cost { pairs.new + 1 ≤ pairs.old + length bytes.now }
{
    if bytes.len() == 1 {
        return store.byte(bytes[0]);
    }
    let key = key_of(bytes, bytes.len());
    if let Some(node) = found(&words.entries, key) {
        return Ok(node);
    }
    let middle = bytes.len() - bytes.len() / 2;
    let (first, second) = bytes.split_at(middle);
    let left = node_of(words, store, first, pairs)?;
    let right = node_of(words, store, second, pairs)?;
    let node = store.pair(left, right, pairs)?;
    note(&mut words.entries, key, node);
    Ok(node)
}
