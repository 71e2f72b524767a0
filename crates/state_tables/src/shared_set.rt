//! Sets of states that the rows of several tables may have.

ghost use Rattle.state_tables.specs.Digest.{set_digest};
ghost use Rattle.state_tables.specs.SharedSet.{set_branch, set_root};
ghost use Rattle.std.specs.Int.{bit_at};
ghost use Rattle.std.specs.Prelude.{◌≡◌, ◌/◌, ◌%◌, get_or, IfOk};

use crate::digest::set_digest;
use distinct_items::Digested;
use span_types::NoMemory;
use std::alloc::Global;
use std::marker::Model;
use std::ops::Deref;
use std::sync::Arc;

/// The words of a set of states, with a digest by which equal sets are found.
#[derive(Drop)]
struct SetWords {
    words: Vec<u64>,
    digest: u128,
}

impl Model for SetWords {
    ghost use Rattle.std.specs.Prelude.{◌≡◌, ℕ, List};
    ghost use Rattle.state_tables.specs.Digest.{set_digest};

    ghost Value = { List ℕ };

    ghost view = { λ s. s.words.items };

    ghost invariant = { λ s. s.digest ≡ set_digest s.words.items };
}

impl SetWords {
    // The set with these words.
    fn new(alloc: Global, words: &[u64]) -> Result<SetWords, NoMemory>
        ensures { IfOk result (λ s. s ≡ words.now) }
    {
        let digest = set_digest(words);
        let words = Vec::from_slice(alloc, words)?;
        Ok(SetWords { words, digest })
    }
}

const WORD_BITS: usize = 64;

// A bit of the concatenated words, or 0 past the end.
fn word_bit(words: &[u64], index: usize) -> usize
    ensures { result ≡ bit_at (get_or words.now (index / 64) 0) (index % 64) }
{
    match words.get(index / WORD_BITS) {
        Some(word) => (*word >> (index % WORD_BITS) as u64 & 1) as usize,
        None => 0,
    }
}

/// A set of states that the rows of several tables may have, as its words.
#[derive(Drop)]
pub(crate) struct SharedSet {
    set: Arc<SetWords, Global>,
}

impl Model for SharedSet {
    ghost use Rattle.std.specs.Prelude.{ℕ, List};
    ghost use Rattle.std.specs.Arc.{arc_value};

    ghost Value = { List ℕ };

    ghost view = { λ s. arc_value s.set };
}

impl SharedSet {
    /// The set with these words.
    ///
    /// # Errors
    ///
    /// `NoMemory` if allocation fails.
    pub(crate) fn new(alloc: Global, words: &[u64]) -> Result<SharedSet, NoMemory>
        ensures { IfOk result (λ s. s ≡ words.now) }
    {
        let set = Arc::new(alloc, SetWords::new(alloc, words)?)?;
        Ok(SharedSet { set })
    }

    /// The same set once more. Nothing is copied.
    ///
    /// # Errors
    ///
    /// `NoMemory` if there are too many owners, 2^63.
    pub(crate) fn share(&self) -> Result<SharedSet, NoMemory>
        ensures { IfOk result (λ s. s ≡ self.now) }
    {
        let set = Arc::try_clone(&self.set)?;
        Ok(SharedSet { set })
    }

    /// The words of the set, the lowest states first.
    pub(crate) fn words(&self) -> &[u64]
        ensures { result.now ≡ self.now }
    {
        &Deref::deref(&self.set).words
    }

    // The digest of the words.
    fn digest(&self) -> u128
        ensures { result ≡ set_digest self.now }
    {
        Deref::deref(&self.set).digest
    }
}

impl Digested for SharedSet {
    ghost root = { set_root };

    ghost branch = { set_branch };

    fn root(&self, roots: usize) -> usize {
        (self.digest() & (roots - 1) as u128) as usize
    }

    fn branch(&self, depth: usize) -> usize {
        if depth < 64 {
            (self.digest() >> (127 - depth) & 1) as usize
        } else {
            word_bit(self.words(), depth - 64)
        }
    }

    fn is_same(&self, other: &SharedSet) -> bool {
        self.words() == other.words()
    }
}
