//! The indices of composed rows.

ghost use Rattle.std.specs.List.{range_with_len};
ghost use Rattle.std.specs.Prelude.{◌≡◌, ℕ, ◌++◌, ◌<◌, [], ◌∷◌, get_or, length, IfOk, IsTrue, OnOk};

use span_types::NoMemory;
use std::alloc::Global;
use std::marker::Model;

/// For each row of a left text the index of its composed row. While each row has the index that it had, as in most
/// compositions, nothing is allocated.
#[derive(Drop)]
pub(crate) struct Places {
    // The number of rows for which room is made at once.
    rows: usize,
    // The number of the first rows that have the indices that they had.
    kept: u16,
    // The indices of the rows after these.
    others: Vec<u16>,
}

impl Model for Places {
    ghost use Rattle.std.specs.Prelude.{ℕ, List, ◌++◌};
    ghost use Rattle.std.specs.List.{range_with_len};

    ghost Value = { List ℕ };

    ghost view = { λ p. range_with_len 0 p.kept ++ p.others.items };
}

impl Places {
    /// No indices yet, for about this many rows. Nothing is allocated.
    pub(crate) fn new(alloc: Global, rows: usize) -> Places
        ensures { result ≡ [] }
    {
        Places {
            rows,
            kept: 0,
            others: Vec::new(alloc),
        }
    }

    /// Adds an index at the end.
    ///
    /// # Errors
    ///
    /// `NoMemory` if allocation fails.
    pub(crate) fn push(&mut self, index: u16) -> Result<(), NoMemory>
        ensures { OnOk result (self.new ≡ self.old ++ index ∷ []) }
    {
        if index == self.kept && self.others.is_empty() && index < u16::MAX {
            self.kept += 1;
        } else {
            add(&mut self.others, self.rows, index)?;
        }
        Ok(())
    }

    /// Whether it is known that each row has the index that it had.
    pub(crate) fn are_kept(&self) -> bool
        ensures { IsTrue result → (k : ℕ) → k < length self.now → get_or self.now k 0 ≡ k }
    {
        self.others.is_empty()
    }

    /// The indices.
    ///
    /// # Errors
    ///
    /// `NoMemory` if allocation fails.
    pub(crate) fn list(&self, alloc: Global) -> Result<Vec<u16>, NoMemory>
        ensures { IfOk result (λ list. list.items ≡ self.now) }
    {
        list_of(alloc, self.kept, &self.others)
    }
}

// Adds an index at the end. The first one makes room for this many.
fn add(others: &mut Vec<u16>, room: usize, index: u16) -> Result<(), NoMemory>
    ensures { OnOk result (others.new.items ≡ others.old.items ++ index ∷ []) }
{
    if others.is_empty() {
        others.reserve(room)?;
    }
    others.push(index)?;
    Ok(())
}

// The first numbers, and then these.
fn list_of(alloc: Global, count: u16, others: &[u16]) -> Result<Vec<u16>, NoMemory>
    ensures { IfOk result (λ list. list.items ≡ range_with_len 0 count ++ others.now) }
{
    let mut list = Vec::with_capacity(alloc, (count as usize).saturating_add(others.len()))?;
    for index in 0..count {
        list.push(index)?;
    }
    list.extend_from_slice(others)?;
    Ok(list)
}
