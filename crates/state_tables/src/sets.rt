//! The sets of a table with words of their own.

ghost use Rattle.state_tables.specs.Coded.{SetList, with_set};
ghost use Rattle.state_tables.specs.StateSet.{number_of_words};
ghost use Rattle.std.specs.Prelude.{◌≡◌, ◌+◌, ◌*◌, ◌^◌, ◌<◌, ◌≤◌, [], drop, get_or, length, take, IfOk, OnErr, OnOk};

use span_types::NoMemory;
use std::alloc::Global;
use std::marker::Model;

/// Sets of states that have the same number of words. The words of all sets are in one list.
#[derive(Drop)]
pub(crate) struct Sets {
    // The number of words of each set.
    width: usize,
    count: usize,
    words: Vec<u64>,
}

impl Model for Sets {
    ghost use Rattle.std.specs.Prelude.{◌≡◌, ◌*◌, length};
    ghost use Rattle.state_tables.specs.Coded.{SetList, sets_of};

    ghost Value = { SetList };

    ghost view = { λ s. record { width = s.width; sets = sets_of s.width s.count s.words.items } };

    ghost invariant = { λ s. length s.words.items ≡ s.count * s.width };
}

impl Sets {
    /// No sets, and room for this many of this many words.
    pub(crate) fn with_capacity(alloc: Global, width: usize, sets: usize) -> Result<Sets, NoMemory>
        ensures { IfOk result (λ s. s ≡ record { width = width; sets = [] }) }
    {
        Ok(Sets {
            width,
            count: 0,
            words: Vec::with_capacity(alloc, sets.saturating_mul(width))?,
        })
    }

    /// The number of sets.
    pub(crate) fn len(&self) -> usize
        ensures { result ≡ length self.now.sets }
    {
        self.count
    }

    /// The number of words of each set.
    pub(crate) fn width(&self) -> usize
        ensures { result ≡ self.now.width }
    {
        self.width
    }

    /// The words of the set.
    pub(crate) fn words(&self, set: usize) -> &[u64]
        requires { set < length self.now.sets }
        ensures number { number_of_words result.now ≡ get_or self.now.sets set 0 }
        ensures width { length result.now ≡ self.now.width }
    {
        words_at(&self.words, self.width, set)
    }

    /// Adds a set at the end.
    ///
    /// # Errors
    ///
    /// `NoMemory` if allocation fails; the sets are then unchanged.
    pub(crate) fn push(&mut self, words: &[u64]) -> Result<(), NoMemory>
        requires width { length words.now ≡ self.old.width }
        requires few { length self.old.sets < 2 ^ 16 }
        ensures ok { OnOk result (self.new ≡ with_set self.old (number_of_words words.now)) }
        ensures err { OnErr result (self.new ≡ self.old) }
    {
        self.words.extend_from_slice(words)?;
        self.count += 1;
        Ok(())
    }

    /// Frees the room for further sets.
    pub(crate) fn shrink(&mut self)
        ensures { self.new ≡ self.old }
    {
        self.words.shrink_to_fit();
    }
}

// The words of the set with this index.
fn words_at(words: &[u64], width: usize, set: usize) -> &[u64]
    requires { set * width + width ≤ length words.now }
    ensures words { result.now ≡ take width (drop (set * width) words.now) }
    ensures width { length result.now ≡ width }
{
    &words[set * width..set * width + width]
}
