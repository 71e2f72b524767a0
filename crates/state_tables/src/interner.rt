//! What several tables have in common, stored once.

ghost use Rattle.state_tables.specs.TableRows.{sets_in};
ghost use Rattle.std.specs.Prelude.{◌≡◌, [], IfOk};

use crate::partition::SharedPartition;
use crate::sets::Sets;
use crate::shared_set::SharedSet;
use crate::shared_sets::SharedSets;
use crate::table_sets::TableSets;
use distinct_items::DistinctItems;
use span_types::NoMemory;
use std::alloc::Global;
use std::marker::Model;

// The maximum number of partitions, and of sets, so that one more than a number takes 32 bits.
const MAX_ITEMS: usize = (1 << 32) - 2;

// A set with at most this many words isn't shared.
const OWN_WORDS: usize = 2;

/// The partitions and the sets of tables, each once. Contracts see the sets, by their words. Tables are owners of theirs
/// too, so what is here may go at any time.
#[derive(Drop)]
pub(crate) struct Interner {
    alloc: Global,
    partitions: DistinctItems<SharedPartition>,
    sets: DistinctItems<SharedSet>,
}

impl Model for Interner {
    ghost use Rattle.std.specs.Prelude.{ℕ, List};

    ghost Value = { List (List ℕ) };

    ghost view = { λ i. i.sets };
}

impl Interner {
    /// Nothing in common. Allocates nothing.
    pub(crate) fn new(alloc: Global) -> Interner
        ensures { result ≡ [] }
    {
        Interner {
            alloc,
            partitions: DistinctItems::new(alloc),
            sets: DistinctItems::new(alloc),
        }
    }

    /// Forgets all partitions and sets. Allocates nothing.
    pub(crate) fn clear(&mut self)
        ensures { self.new ≡ [] }
    {
        *self = Interner::new(self.alloc);
    }

    /// The partition, shared with the tables that have it.
    ///
    /// # Errors
    ///
    /// `NoMemory` if allocation fails.
    pub(crate) fn partition(
        &mut self,
        partition: SharedPartition,
    ) -> Result<SharedPartition, NoMemory>
        ensures { IfOk result (λ p. p ≡ partition) }
    {
        if self.partitions.len() > MAX_ITEMS {
            return Err(NoMemory);
        }
        let number = self.partitions.insert(partition)?;
        self.partitions.at(number).share()
    }

    // The set with these words, shared with the rows that have it.
    fn set(&mut self, words: &[u64]) -> Result<SharedSet, NoMemory>
        ensures { IfOk result (λ s. s ≡ words.now) }
    {
        if self.sets.len() > MAX_ITEMS {
            return Err(NoMemory);
        }
        let number = self.sets.insert(SharedSet::new(self.alloc, words)?)?;
        self.sets.at(number).share()
    }

    // The sets, shared with the tables that have them.
    fn shared_sets(&mut self, sets: &Sets) -> Result<SharedSets, NoMemory>
        ensures { IfOk result (λ s. s ≡ sets.now) }
    {
        let mut shared = SharedSets::with_capacity(self.alloc, sets.width(), sets.len())?;
        for index in 0..sets.len() {
            let set = self.set(sets.words(index))?;
            shared.push(set)?;
        }
        Ok(shared)
    }

    /// The sets of a table, shared with the tables that have them. Sets of at most two words aren't shared, since a
    /// reference takes as much memory.
    ///
    /// # Errors
    ///
    /// `NoMemory` if allocation fails.
    pub(crate) fn sets(&mut self, sets: TableSets) -> Result<TableSets, NoMemory>
        ensures { IfOk result (λ s. sets_in s ≡ sets_in sets) }
    {
        match sets {
            TableSets::Own(mut sets) if sets.width() <= OWN_WORDS => {
                sets.shrink();
                Ok(TableSets::Own(sets))
            }
            TableSets::Own(sets) => Ok(TableSets::Shared(self.shared_sets(&sets)?)),
            TableSets::Shared(sets) => Ok(TableSets::Shared(sets)),
        }
    }
}
