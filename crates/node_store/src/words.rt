//! The blocks of short words, found by their bytes.
ghost use Rattle.node_store.specs.Blocks.{IsBlockAt};
ghost use Rattle.node_store.specs.Known.{AreShortWords, AreLongWords, AreKnown, AreMade, IsBlockOfWord};
ghost use Rattle.node_store.specs.WordsView.{known_of};
ghost use Rattle.slp_model.specs.declared.Node.{Node};
ghost use Rattle.std.specs.Int.{Width, to_le_bytes};
ghost use Rattle.std.specs.Prelude.{◌≡◌, ℕ, suc, ◌+◌, ◌≤◌, [], List, length, IfSome, set, slice_get};

use slp_model::NodeId;
use std::alloc::Global;

// The numbers of bytes from which a small table of their words pays, and from which a large one does.
const FEW_BYTES: usize = 1 << 12;

const MANY_BYTES: usize = 1 << 18;

// The number of entries for the words of each length after few bytes, and for those of two, four and eight bytes after
// many. Of the words of four bytes looked up while real texts were loaded, some six in seven were found here. A word
// that is found here needs no lookup in the store's index.
const FEW_ENTRIES: usize = 1 << 12;

const TWOS: usize = 1 << 16;

const FOURS: usize = 1 << 18;

const EIGHTS: usize = 1 << 17;

/// The length of a word: two, four or eight bytes.
#[derive(Clone, Copy)]
pub enum WordSize {
    Two,
    Four,
    Eight,
}

/// The bytes of a word of at most four bytes, as a number with the first byte lowest, and one more than the index of its
/// block, or 0 if none is known.
#[derive(Clone, Copy)]
pub struct ShortWord {
    pub(crate) bytes: u32,
    pub(crate) link: u32,
}

/// The same for a word of eight bytes.
#[derive(Clone, Copy)]
pub struct LongWord {
    pub(crate) bytes: u64,
    pub(crate) link: u32,
}

/// For words of two, four and eight bytes the blocks that were noted last: a word belongs to one entry, and each new
/// word for an entry replaces the one that is there.
#[derive(Drop)]
pub(crate) struct Words {
    pub(crate) twos: Vec<ShortWord>,
    pub(crate) fours: Vec<ShortWord>,
    pub(crate) eights: Vec<LongWord>,
    // The number of bytes that were expected. No proof depends on it.
    expected: usize,
}

impl Words {
    /// No words. Allocates nothing.
    pub(crate) fn new(alloc: Global) -> Words
        ensures { known_of result ≡ record { twos = []; fours = []; eights = [] } }
    {
        Words {
            twos: Vec::new(alloc),
            fours: Vec::new(alloc),
            eights: Vec::new(alloc),
            expected: 0,
        }
    }

    /// Makes room for the words of further bytes, as many as pay, if memory allows.
    pub(crate) fn expect_bytes(&mut self, len: usize)
        ensures { (nodes : List Node) → AreKnown nodes (known_of self.old) → AreKnown nodes (known_of self.new) }
    {
        self.expected = self.expected.saturating_add(len);
        if self.expected >= MANY_BYTES {
            self.make_entries(TWOS, FOURS, EIGHTS);
        } else if self.expected >= FEW_BYTES {
            self.make_entries(FEW_ENTRIES, FEW_ENTRIES, FEW_ENTRIES);
        }
    }

    // At least this many entries for words of two, four and eight bytes, if memory allows.
    fn make_entries(&mut self, twos: usize, fours: usize, eights: usize)
        ensures { (nodes : List Node) → AreKnown nodes (known_of self.old) → AreKnown nodes (known_of self.new) }
    {
        let short = ShortWord { bytes: 0, link: 0 };
        make_entries(&mut self.twos, twos, short);
        make_entries(&mut self.fours, fours, short);
        make_entries(&mut self.eights, eights, LongWord { bytes: 0, link: 0 });
    }

    /// The block of the word with these bytes, if it is in its entry.
    #[inline(always)]
    pub(crate) fn block_of(&self, size: WordSize, bytes: u64) -> Option<NodeId>
        ensures { IfSome result (λ id. (nodes : List Node) → AreKnown nodes (known_of self.now) → IsBlockOfWord nodes size bytes id.index) }
    {
        match size {
            WordSize::Two => found_short(&self.twos, bytes),
            WordSize::Four => found_short(&self.fours, bytes),
            WordSize::Eight => found_long(&self.eights, bytes),
        }
    }

    /// The number of words of eight bytes of a piece that aren't in their entries, and of the words of four bytes in these
    /// that aren't either.
    pub(crate) fn unknown_words(&self, piece: &[u8]) -> usize {
        let mut count: usize = 0;
        for index in 0..piece.len() / 8 {
            let bytes = number_at(piece, 8 * index);
            if found_long(&self.eights, bytes).is_none() {
                count = count.saturating_add(self.unknown_parts(bytes));
            }
        }
        count
    }

    // The number of nodes that an unknown word of eight bytes may need: one, and one for each unknown half.
    #[inline(always)]
    fn unknown_parts(&self, bytes: u64) -> usize {
        let first = found_short(&self.fours, bytes % (1 << 32));
        let second = found_short(&self.fours, bytes / (1 << 32));
        1 + usize::from(first.is_none()) + usize::from(second.is_none())
    }

    /// Writes the word with these bytes to its entry, if there are entries.
    #[inline(always)]
    pub(crate) fn note(&mut self, size: WordSize, bytes: u64, block: NodeId)
        ensures { (nodes : List Node) → IsBlockOfWord nodes size bytes block.index → AreKnown nodes (known_of self.old) → AreKnown nodes (known_of self.new) }
    {
        match size {
            WordSize::Two => note_short(&mut self.twos, bytes, block),
            WordSize::Four => note_short(&mut self.fours, bytes, block),
            WordSize::Eight => note_long(&mut self.eights, bytes, block),
        }
    }
}

// The entry of a word among some: the highest bits of a multiplicative hash, which are the best (D. E. Knuth, The Art of
// Computer Programming, volume 3, section 6.4), scaled to the number of entries.
#[inline(always)]
fn entry_of(bytes: u64, entries: usize) -> usize {
    let hash = bytes.wrapping_mul(0x9E37_79B9_7F4A_7C15) >> 32;
    (hash.wrapping_mul(entries as u64) >> 32) as usize
}

// The word of eight bytes from this index on.
#[inline(always)]
fn number_at(piece: &[u8], start: usize) -> u64
    requires { start + 8 ≤ length piece.now }
{
    let word = &piece[start..start + 8];
    u64::from_le_bytes([
        word[0], word[1], word[2], word[3], word[4], word[5], word[6], word[7],
    ])
}

// The index that a link leads to, if it isn't 0.
#[inline(always)]
fn linked(link: u32) -> Option<NodeId>
    ensures { IfSome result (λ id. link ≡ suc id.index) }
{
    let index = link.checked_sub(1)? as usize;
    Some(NodeId { index })
}

// The link to a node, unless its index is too great.
#[inline(always)]
fn link_to(block: NodeId) -> Option<u32>
    ensures { IfSome result (λ link. link ≡ suc block.index) }
{
    u32::try_from(block.index).ok()?.checked_add(1)
}

// This many empty entries, if there are fewer and memory allows.
fn make_entries<W: Copy>(words: &mut Vec<W>, count: usize, none: W)
    ensures { AreMade none words.old.items words.new.items }
{
    if words.len() < count {
        words.clear();
        let _ = words.resize(count, none);
    }
}

// The word in this entry, if there is one.
#[inline(always)]
fn word_at<W: Copy>(words: &Vec<W>, entry: usize) -> Option<W>
    ensures { result ≡ slice_get words.now.items entry }
{
    words.get(entry).copied()
}

// Writes a word to this entry, if there is one.
#[inline(always)]
fn put<W: Copy>(words: &mut Vec<W>, entry: usize, word: W)
    ensures { words.new.items ≡ set words.old.items entry word }
{
    if let Some(place) = words.get_mut(entry) {
        *place = word;
    }
}

// The block of a word of at most four bytes, if it is in its entry.
#[inline(always)]
fn found_short(words: &Vec<ShortWord>, bytes: u64) -> Option<NodeId>
    ensures { IfSome result (λ id. (nodes : List Node) (h : ℕ) (w : Width) → AreShortWords nodes h w words.now.items → IsBlockAt nodes h (to_le_bytes w bytes) id.index) }
{
    let word = word_at(words, entry_of(bytes, words.len()))?;
    if u64::from(word.bytes) == bytes {
        linked(word.link)
    } else {
        None
    }
}

// The same for a word of eight bytes.
#[inline(always)]
fn found_long(words: &Vec<LongWord>, bytes: u64) -> Option<NodeId>
    ensures { IfSome result (λ id. (nodes : List Node) (h : ℕ) (w : Width) → AreLongWords nodes h w words.now.items → IsBlockAt nodes h (to_le_bytes w bytes) id.index) }
{
    let word = word_at(words, entry_of(bytes, words.len()))?;
    if word.bytes == bytes {
        linked(word.link)
    } else {
        None
    }
}

// Writes a word of at most four bytes to its entry, if there are entries.
#[inline(always)]
fn note_short(words: &mut Vec<ShortWord>, bytes: u64, block: NodeId)
    ensures { (nodes : List Node) (h : ℕ) (w : Width) → IsBlockAt nodes h (to_le_bytes w bytes) block.index → AreShortWords nodes h w words.old.items → AreShortWords nodes h w words.new.items }
{
    let entry = entry_of(bytes, words.len());
    if let (Ok(bytes), Some(link)) = (u32::try_from(bytes), link_to(block)) {
        put(words, entry, ShortWord { bytes, link });
    }
}

// The same for a word of eight bytes.
#[inline(always)]
fn note_long(words: &mut Vec<LongWord>, bytes: u64, block: NodeId)
    ensures { (nodes : List Node) (h : ℕ) (w : Width) → IsBlockAt nodes h (to_le_bytes w bytes) block.index → AreLongWords nodes h w words.old.items → AreLongWords nodes h w words.new.items }
{
    let entry = entry_of(bytes, words.len());
    if let Some(link) = link_to(block) {
        put(words, entry, LongWord { bytes, link });
    }
}
