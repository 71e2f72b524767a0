//! Sets of states in a fixed number of words.
ghost use Rattle.state_tables.specs.StateSet.{member, number_of_words};
ghost use Rattle.state_tables.specs.StateSetView.{set_of, width_of};
ghost use Rattle.std.specs.Prelude.{◌≡◌, ◌≢◌, ℕ, ◌<◌, ◌≤◌, ◌*◌, ◌^◌, ◌==◌, true, false, not, length, bit_and, bit_or, MatchOption, IfSome, if◌then◌else◌};

use state_tables::state_set::StateSet;
use std::marker::Model;

const WORD_BITS: usize = 64;

/// A set of states, as N words of 64 bits. Contracts see it as a number: bit q says whether state q is in it.
#[derive(Clone, Copy)]
pub(crate) struct States<const N: usize> {
    // State q is bit q % 64 of word q / 64.
    words: [u64; N],
}

impl<const N: usize> Model for States<N> {
    ghost use Rattle.std.specs.Prelude.{ℕ};

    ghost Value = { ℕ };

    ghost use Rattle.state_tables.specs.StateSet.{number_of_words, words_of};
    ghost use Rattle.span_enum.specs.States.{HasWords};

    ghost view = { λ s. number_of_words s.words };

    ghost invariant = { λ s. HasWords N s.words };

    ghost inverse = { λ n. record { words = words_of N n } };

    ghost use Rattle.span_enum.specs.States.{words_of-number};

    ghost inverse_ok = { λ s h i. record { words = words_of-number N s.words h i } };
}

impl<const N: usize> Default for States<N> {
    /// No state.
    fn default() -> States<N>
        ensures { result ≡ 0 }
    {
        States { words: [0; N] }
    }
}

impl<const N: usize> States<N> {
    /// No state.
    pub(crate) fn none() -> States<N>
        ensures { result ≡ 0 }
    {
        States { words: [0; N] }
    }

    /// The states of a set of at most N words.
    pub(crate) fn of(set: StateSet<'_>) -> States<N>
        requires { width_of set ≤ N }
        ensures { result ≡ set_of set.entry }
    {
        States::of_words(set.words())
    }

    // The states of these words.
    fn of_words(set: &[u64]) -> States<N>
        requires { length set.now ≤ N }
        ensures { result ≡ number_of_words set.now }
    {
        let mut words = [0; N];
        for index in 0..set.len().min(N) {
            words[index] = set[index];
        }
        States { words }
    }

    /// Whether the state is in the set.
    pub(crate) fn holds(&self, q: u16) -> bool
        ensures { result ≡ member self.now q }
    {
        match self.words.get(q as usize / WORD_BITS) {
            Some(word) => *word >> (q as usize % WORD_BITS) & 1 == 1,
            None => false,
        }
    }

    /// Whether some state is in both sets.
    pub(crate) fn meets(&self, set: StateSet<'_>) -> bool
        ensures { result ≡ not (bit_and (set_of set.entry) self.now == 0) }
    {
        self.meets_words(set.words())
    }

    // Whether some state is in both this set and that of these words.
    fn meets_words(&self, set: &[u64]) -> bool
        ensures { result ≡ not (bit_and (number_of_words set.now) self.now == 0) }
    {
        for index in 0..set.len().min(N) {
            if set[index] & self.words[index] != 0 {
                return true;
            }
        }
        false
    }

    /// Puts the state into the set, if it is to be included.
    pub(crate) fn include(&mut self, q: u16, included: bool)
        requires { q < 64 * N }
        ensures { self.new ≡ bit_or self.old (if included then 2 ^ q else 0) }
    {
        let q = q as usize;
        if included {
            self.words[q / WORD_BITS] |= 1 << (q % WORD_BITS);
        }
    }

    /// Removes a state of the set.
    pub(crate) fn remove(&mut self, q: u16)
        requires few { q < 64 * N }
        requires member { member self.old q ≡ true }
        ensures gone { member self.new q ≡ false }
        ensures others { (i : ℕ) → i ≢ q → member self.new i ≡ member self.old i }
        ensures less { self.new < self.old }
    {
        let q = q as usize;
        self.words[q / WORD_BITS] ^= 1 << (q % WORD_BITS);
    }

    /// The least state of the set, if it has one.
    pub(crate) fn least(&self) -> Option<u16>
        requires { (q : ℕ) → member self.now q ≡ true → q < 65536 }
        ensures member { MatchOption result (self.now ≡ 0) (λ q. member self.now q ≡ true) }
        ensures few { IfSome result (λ q. q < 64 * N) }
    {
        for index in 0..N {
            let word = self.words[index];
            if word != 0 {
                return Some((WORD_BITS * index + word.trailing_zeros() as usize) as u16);
            }
        }
        None
    }
}
