//! The sets of a table that is kept.

ghost use Rattle.state_tables.specs.Coded.{SetList, with_set};
ghost use Rattle.state_tables.specs.StateSet.{number_of_words};
ghost use Rattle.std.specs.Prelude.{◌≡◌, ◌<◌, [], get_or, length, IfOk, OnErr, OnOk};

use crate::shared_set::SharedSet;
use span_types::NoMemory;
use std::alloc::Global;
use std::marker::Model;

/// Sets of states that have the same number of words, and that other tables may have too. A set takes 8 bytes here.
#[derive(Drop)]
pub(crate) struct SharedSets {
    // The number of words of each set.
    width: usize,
    sets: Vec<SharedSet>,
}

impl Model for SharedSets {
    ghost use Rattle.std.specs.Prelude.{◌≡◌, ℕ, ◌<◌, [], length, get_or, map};
    ghost use Rattle.state_tables.specs.StateSet.{number_of_words};
    ghost use Rattle.state_tables.specs.Coded.{SetList};

    ghost Value = { SetList };

    ghost view = { λ s. record { width = s.width; sets = map number_of_words s.sets.items } };

    ghost invariant = { λ s. (k : ℕ) → k < length s.sets.items → length (get_or s.sets.items k []) ≡ s.width };
}

impl SharedSets {
    /// No sets, and room for this many of this many words.
    pub(crate) fn with_capacity(
        alloc: Global,
        width: usize,
        sets: usize,
    ) -> Result<SharedSets, NoMemory>
        ensures { IfOk result (λ s. s ≡ record { width = width; sets = [] }) }
    {
        Ok(SharedSets {
            width,
            sets: Vec::with_capacity(alloc, sets)?,
        })
    }

    /// The number of sets.
    pub(crate) fn len(&self) -> usize
        ensures { result ≡ length self.now.sets }
    {
        self.sets.len()
    }

    /// The number of words of each set.
    pub(crate) fn width(&self) -> usize
        ensures { result ≡ self.now.width }
    {
        self.width
    }

    /// The words of the set.
    pub(crate) fn words(&self, set: usize) -> &[u64]
        requires { set < length self.now.sets }
        ensures number { number_of_words result.now ≡ get_or self.now.sets set 0 }
        ensures width { length result.now ≡ self.now.width }
    {
        self.sets[set].words()
    }

    /// Adds a set at the end.
    ///
    /// # Errors
    ///
    /// `NoMemory` if allocation fails; the sets are then unchanged.
    pub(crate) fn push(&mut self, set: SharedSet) -> Result<(), NoMemory>
        requires { length set ≡ self.old.width }
        ensures ok { OnOk result (self.new ≡ with_set self.old (number_of_words set)) }
        ensures err { OnErr result (self.new ≡ self.old) }
    {
        self.sets.push(set)?;
        Ok(())
    }
}
