//! Sets of states.

ghost use Rattle.marker_dfa.specs.StateWords.{IsNextMember};
ghost use Rattle.std.specs.Prelude.{◌≡◌, ◌<◌, ◌↔◌, false, true, replicate, slice_set, slice_index_or, length, IfOk, IsTrue};

use span_types::NoMemory;
use std::alloc::Global;
use std::marker::Model;

/// A set of states, as bits in words of 64. Contracts see it as one truth value for each state.
#[derive(Drop)]
pub struct StateSet {
    states: u16,

    // State q is bit q % 64 of word q / 64. No other bit is set.
    words: Vec<u64>,
}

impl Model for StateSet {
    ghost use Rattle.std.specs.Prelude.{List, Bool};

    ghost Value = { List Bool };

    ghost use Rattle.marker_dfa.specs.StateWords.{members, AreWords};

    ghost view = { λ s. members s.states s.words.items };

    ghost invariant = { λ s. AreWords s.states s.words.items };
}

const WORD_BITS: usize = 64;

// An odd number with the bits of 2^64 divided by the golden ratio, which spreads numbers in a row.
pub(crate) const HASH_FACTOR: u64 = 0x9E37_79B9_7F4A_7C15;

impl StateSet {
    /// The set with no member, of this many states.
    ///
    /// # Errors
    ///
    /// `NoMemory` if allocation fails.
    pub fn empty(alloc: Global, states: u16) -> Result<StateSet, NoMemory>
        ensures { IfOk result (λ s. s ≡ replicate states false) }
    {
        let count = states as usize / WORD_BITS + 1;
        Ok(StateSet {
            states,
            words: vec![in alloc; 0; count]?,
        })
    }

    /// A copy of the set.
    ///
    /// # Errors
    ///
    /// `NoMemory` if allocation fails.
    pub fn copy(&self, alloc: Global) -> Result<StateSet, NoMemory>
        ensures { IfOk result (λ s. s ≡ self.now) }
    {
        Ok(StateSet {
            states: self.states,
            words: self.words.as_slice().to_vec(alloc)?,
        })
    }

    /// Puts a state into the set.
    pub fn insert(&mut self, state: u16)
        requires { state < length self.old }
        ensures { self.new ≡ slice_set self.old state true }
    {
        let state = state as usize;
        self.words[state / WORD_BITS] |= 1 << (state % WORD_BITS);
    }

    /// Whether a state is in the set.
    pub fn contains(&self, state: u16) -> bool
        requires { state < length self.now }
        ensures { result ≡ slice_index_or self.now state false }
    {
        let state = state as usize;
        self.words[state / WORD_BITS] >> (state % WORD_BITS) & 1 == 1
    }

    /// The least member from a state on, if there is one. A step of the loop skips a word without such a member.
    pub fn member_from(&self, state: usize) -> Option<u16>
        ensures { IsNextMember self.now state result }
    {
        let states = self.states;
        let mut next = state;
        while next < states as usize {
            let rest = self.words[next / WORD_BITS] >> (next % WORD_BITS);
            if rest != 0 {
                return Some((next + rest.trailing_zeros() as usize) as u16);
            }
            next = (next / WORD_BITS + 1) * WORD_BITS;
        }
        None
    }

    /// Whether two sets have the same members.
    pub fn same(&self, other: &StateSet) -> bool
        ensures { IsTrue result ↔ self.now ≡ other.now }
    {
        self.states == other.states && self.words == other.words
    }

    /// A number that depends on the members alone, and is rarely the same for two sets.
    pub fn hash(&self) -> u64 {
        let mut hash: u64 = 0;
        for word in &self.words {
            hash = (hash.rotate_left(5) ^ *word).wrapping_mul(HASH_FACTOR);
        }
        hash
    }
}
