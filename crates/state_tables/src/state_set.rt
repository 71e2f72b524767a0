//! Sets of states: bit q % 64 of word q / 64 stands for state q.

ghost use Rattle.state_tables.specs.StateSet.{AreWords, member, number_of_words};
ghost use Rattle.state_tables.specs.StateSetView.{set_of, width_of};
ghost use Rattle.std.specs.Int.{bit_at};
ghost use Rattle.std.specs.Prelude.{◌≡◌, ◌≢◌, ℕ, ◌<◌, ◌*◌, ◌^◌, ◌==◌, ◌↔◌, IsTrue, bit_or, length};

const WORD_BITS: u16 = 64;

/// The most words of a set: an automaton has at most 1,024 states.
pub(crate) const MAX_WORDS: usize = 16;

/// A set of states, as words of 64 bits. Bit q % 64 of word q / 64 says whether state q is in the set.
#[derive(Clone, Copy)]
pub struct StateSet<'a> {
    words: &'a [u64],
}

impl<'a> StateSet<'a> {
    /// The set with these words.
    pub(crate) fn new(words: &'a [u64]) -> StateSet<'a>
        ensures number { set_of result ≡ number_of_words words.now }
        ensures width { width_of result ≡ length words.now }
    {
        StateSet { words }
    }

    /// The words of the set, the lowest states first.
    pub fn words(&self) -> &'a [u64]
        ensures number { number_of_words result.now ≡ set_of self.now }
        ensures width { length result.now ≡ width_of self.now }
    {
        self.words
    }

    /// Whether the state is in the set.
    pub fn holds(&self, q: u16) -> bool
        ensures { result ≡ member (set_of self.now) q }
    {
        self.bit(q) == 1
    }

    /// The bit of the state: 1 if it is in the set.
    pub(crate) fn bit(&self, q: u16) -> u64
        ensures { result ≡ bit_at (set_of self.now) q }
    {
        bit(self.words, q)
    }

    /// Whether no state is in the set.
    pub fn is_empty(&self) -> bool
        ensures { result ≡ (set_of self.now == 0) }
    {
        is_empty(self.words)
    }
}

/// The bit of the state in these words.
pub(crate) fn bit(words: &[u64], q: u16) -> u64
    ensures { result ≡ bit_at (number_of_words words.now) q }
{
    let index = (q / WORD_BITS) as usize;
    if index < words.len() {
        words[index] >> (q % WORD_BITS) & 1
    } else {
        0
    }
}

// Whether each word is 0.
fn is_empty(words: &[u64]) -> bool
    ensures { result ≡ (number_of_words words.now == 0) }
{
    for word in words {
        if *word != 0 {
            return false;
        }
    }
    true
}

/// Whether two sets with as many words are the same.
pub(crate) fn is_same(words: &[u64], others: &[u64]) -> bool
    requires { length words.now ≡ length others.now }
    ensures { IsTrue result ↔ number_of_words words.now ≡ number_of_words others.now }
{
    for index in 0..words.len() {
        if words[index] != others[index] {
            return false;
        }
    }
    true
}

/// Removes all states.
pub(crate) fn clear(words: &mut [u64])
    ensures value { number_of_words words.new ≡ 0 }
    ensures width { length words.new ≡ length words.old }
{
    for word in words.iter_mut() {
        *word = 0;
    }
}

/// Puts in a state.
pub(crate) fn add(words: &mut [u64], q: u16)
    requires within { q < 64 * length words.old }
    requires words { AreWords words.old }
    ensures value { number_of_words words.new ≡ bit_or (number_of_words words.old) (2 ^ q) }
    ensures width { length words.new ≡ length words.old }
{
    words[(q / WORD_BITS) as usize] |= 1 << (q % WORD_BITS);
}

/// Puts in the states of a set that has as many words.
pub(crate) fn add_all(words: &mut [u64], others: &[u64])
    requires { length words.old ≡ length others.now }
    ensures value { number_of_words words.new ≡ bit_or (number_of_words words.old) (number_of_words others.now) }
    ensures width { length words.new ≡ length words.old }
{
    for index in 0..words.len() {
        words[index] |= others[index];
    }
}

/// Makes the words those of the union of two sets that have as many words.
pub(crate) fn put_union(words: &mut [u64], first: &[u64], second: &[u64])
    requires first { length words.old ≡ length first.now }
    requires second { length words.old ≡ length second.now }
    ensures value { number_of_words words.new ≡ bit_or (number_of_words first.now) (number_of_words second.now) }
    ensures width { length words.new ≡ length words.old }
{
    for index in 0..words.len() {
        words[index] = first[index] | second[index];
    }
}

/// The least bit of a word that has one.
pub(crate) fn least(word: u64) -> u16
    requires { 0 < word }
    ensures bit { bit_at word result ≡ 1 }
    ensures few { result < 64 }
{
    word.trailing_zeros() as u16
}

/// The word without one of its bits.
pub(crate) fn without(word: u64, bit: u16) -> u64
    requires few { bit < 64 }
    requires bit { bit_at word bit ≡ 1 }
    ensures gone { bit_at result bit ≡ 0 }
    ensures others { (i : ℕ) → i ≢ bit → bit_at result i ≡ bit_at word i }
    ensures less { result < word }
{
    word ^ 1 << bit
}
