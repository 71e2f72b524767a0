//! Sets of bytes, and lists of bytes.
ghost use Rattle.std.specs.Prelude.{◌≡◌, ◌<◌, ◌↔◌, false, true, not, map, replicate, slice_set, slice_index_or, length, IfOk, IsTrue};

use crate::refusal::NoMemory;
use std::alloc::Global;
use std::marker::Model;

/// A set of bytes, in 32 bytes. Contracts see it as 256 truth values, one for each byte.
#[derive(Clone, Copy)]
pub struct ByteSet {
    // Byte b is bit b % 64 of word b / 64.
    words: [u64; 4],
}

impl Model for ByteSet {
    ghost use Rattle.std.specs.Prelude.{List, Bool};

    ghost Value = { List Bool };

    ghost use Rattle.span_types.specs.ByteWords.{members, words_of, AreWords};

    ghost view = { λ s. members s.words };

    ghost invariant = { λ s. AreWords s.words };

    ghost inverse = { λ v. record { words = words_of v } };

    ghost use Rattle.span_types.specs.ByteWordLaws.{words_of-members};

    ghost inverse_ok = { λ s h i. record { words = words_of-members s.words h i } };
}

const WORD_BITS: usize = 64;

impl ByteSet {
    /// The set with no member.
    pub fn empty() -> ByteSet
        ensures { result ≡ replicate 256 false }
    {
        ByteSet { words: [0; 4] }
    }

    /// Puts a byte into the set.
    pub fn insert(&mut self, b: u8)
        ensures { self.new ≡ slice_set self.old b true }
    {
        let byte = b as usize;
        self.words[byte / WORD_BITS] |= 1 << (byte % WORD_BITS);
    }

    /// The set of the bytes that aren't in this one.
    pub fn complement(&self) -> ByteSet
        ensures { result ≡ map not self.now }
    {
        let mut words = self.words;
        for word in &mut words {
            *word = !*word;
        }
        ByteSet { words }
    }

    /// Whether a byte is in the set.
    pub fn contains(&self, b: u8) -> bool
        ensures value { result ≡ slice_index_or self.now b false }
        ensures all { length self.now ≡ 256 }
    {
        let byte = b as usize;
        self.words[byte / WORD_BITS] >> (byte % WORD_BITS) & 1 == 1
    }

    /// Whether another set has the same members.
    pub fn is_same(&self, other: &ByteSet) -> bool
        ensures { IsTrue result ↔ (self.now ≡ other.now) }
    {
        self.words == other.words
    }
}

/// A list of bytes of any length, which contracts see as that list.
#[derive(Drop)]
pub struct ByteList {
    items: Vec<u8>,
}

impl Model for ByteList {
    ghost use Rattle.std.specs.Prelude.{ℕ, List};

    ghost Value = { List ℕ };

    ghost view = { λ b. b.items.items };
}

impl ByteList {
    /// A list of these bytes.
    ///
    /// # Errors
    ///
    /// `NoMemory` if allocation fails.
    pub fn new(alloc: Global, bytes: &[u8]) -> Result<ByteList, NoMemory>
        ensures { IfOk result (λ list. list ≡ bytes.now) }
    {
        Ok(ByteList {
            items: bytes.to_vec(alloc)?,
        })
    }

    /// The bytes of the list.
    pub fn bytes(&self) -> &[u8]
        ensures { result.now ≡ self.now }
    {
        &self.items
    }
}
