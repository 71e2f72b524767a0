//! Hints at the indices of pairs of states in a list.

use crate::pairs::Pair;
use span_types::NoMemory;
use std::alloc::Global;

/// For a pair of states, the index in a list that it may have. It is only a hint: the pair at this index is tested.
#[derive(Drop)]
pub struct Hints {
    rights: u16,
    by_left: Vec<Vec<u16>>,
}

impl Hints {
    /// No hints yet, for a right side with this number of states.
    pub fn new(alloc: Global, rights: u16) -> Hints {
        Hints {
            rights,
            by_left: Vec::new(alloc),
        }
    }

    /// The hint for a pair.
    pub fn get(&self, pair: Pair) -> u16 {
        match self.by_left.get(pair.left as usize) {
            Some(row) => row.get(pair.right as usize).copied().unwrap_or(0),
            None => 0,
        }
    }

    // Makes room for a left state.
    fn reach(&mut self, alloc: Global, left: u16) -> Result<(), NoMemory> {
        for next in self.by_left.len()..=left as usize {
            self.by_left.push(Vec::new(alloc))?;
        }
        Ok(())
    }

    /// Makes an index the hint for a pair.
    ///
    /// # Errors
    ///
    /// `NoMemory` if allocation fails.
    pub fn set(&mut self, alloc: Global, pair: Pair, index: u16) -> Result<(), NoMemory> {
        self.reach(alloc, pair.left)?;
        if let Some(row) = self.by_left.get_mut(pair.left as usize) {
            if row.is_empty() {
                row.resize(self.rights as usize, 0)?;
            }
            if let Some(hint) = row.get_mut(pair.right as usize) {
                *hint = index;
            }
        }
        Ok(())
    }
}
