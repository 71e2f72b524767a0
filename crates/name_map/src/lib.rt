//! An ordered map from names to values.
//!
//! ```text
//! let mut sizes = NameMap::new(alloc);
//! sizes.set(alloc, name, 4)?;                 // `name` is called "d"
//! assert_eq!(sizes.get(b"d"), Some(&4));
//! *sizes.value_mut(0) = 5;
//! assert_eq!(sizes.take_out(b"d"), Some(5));
//! ```
//!
//! Names keep the order in which they were added, also if their values change. Contracts see the map as a list of pairs
//! in this order.
//!
//! The pairs are in a list of slots, and a B-tree maps each name to the number of its slot. Removing a name leaves an
//! empty slot. When more than half of the slots are empty, they are dropped and the others are renumbered. So `set`,
//! `get` and `take_out` take O(log n) time for n names, for any names in any order. The bound is amortised if the map
//! grows or slots are dropped.
//!
//! `at` and `value_mut` take constant time if no slot is empty, and otherwise up to linear time. `settle` drops the
//! empty slots, so a caller that visits all indices calls it first.
//!
//! Proved: An ordered map of values by distinct names (`NameMap`).
//!
//! Neither: Time.
#![tactic(auto)]

ghost use Rattle.name_map.specs.Named.{AreDistinctNames, is_same, put, taken_out, value_of};
ghost use Rattle.std.specs.Borrow.{sem};
ghost use Rattle.std.specs.Option.{option_copied, option_map};
ghost use Rattle.std.specs.Prelude.{◌≡◌, ◌<◌, ℕ, List, [], false, length, slice_get, Some, None, IfNone, IfOk, OnOk, OnErr};

use crate::closing::close_up;
use crate::slots::{Slots, set, slot_named, slot_of, take_out};
use span_types::{Name, NoMemory};
use std::alloc::Global;
use std::collections::BTreeMap;
use std::marker::Model;

/// Values under distinct names, in the order in which the names were added. Contracts see them as a list of pairs of a
/// name's bytes and a value. A lookup by name takes time logarithmic in their number.
#[derive(Drop)]
pub struct NameMap<V> {
    slots: Slots<V>,
}

impl<V> Model for NameMap<V> {
    ghost use Rattle.name_map.specs.Named.{Named};
    ghost use Rattle.name_map.specs.Kept.{AreSlots, indexed, live};

    ghost Value = { Named V };

    ghost view = { λ m. live m.slots.items.items };

    ghost invariant = { λ m. AreSlots (indexed m.slots.index.entries) m.slots.items.items m.slots.empty };
}

impl<V> NameMap<V> {
    ghost use Rattle.name_map.specs.Lending.{lends_value};

    /// An empty map.
    pub fn new(alloc: Global) -> NameMap<V>
        ensures { result ≡ [] }
    {
        NameMap {
            slots: Slots {
                items: Vec::new(alloc),
                index: BTreeMap::new(alloc),
                empty: 0,
            },
        }
    }

    /// Sets the value of this name. An existing name keeps its index, and a new name goes last. Takes O(log n) time for n
    /// names, amortised if the name is new.
    ///
    /// # Errors
    ///
    /// `NoMemory` if allocation fails. The map is then unchanged.
    pub fn set(&mut self, alloc: Global, name: Name, value: V) -> Result<(), NoMemory>
    where
        V: Drop,
        ensures ok { OnOk result (self.new ≡ put self.old name value) }
        ensures given { OnOk result (value_of self.new name ≡ Some value) }
        ensures others { OnOk result ((other : List ℕ) → is_same other name ≡ false → value_of self.new other ≡ value_of self.old other) }
        ensures err { OnErr result (self.new ≡ self.old) }
    {
        set(&mut self.slots, alloc, name, value)
    }

    /// The value of this name, or `None` if the map doesn't have the name. Takes O(log n) time for n names.
    pub fn get(&self, name: &[u8]) -> Option<&V>
        ensures { option_copied result ≡ value_of self.now name.now }
    {
        match slot_named(&self.slots, name) {
            Some(slot) => match &self.slots.items[slot] {
                Some(named) => Some(&named.1),
                None => None,
            },
            None => None,
        }
    }

    /// Removes the name and returns its value, or `None` if the map doesn't have the name. Each later name moves down by one
    /// index. Takes amortised O(log n) time for n names.
    pub fn take_out(&mut self, name: &[u8]) -> Option<V>
    where
        V: Drop,
        ensures value { result ≡ value_of self.old name.now }
        ensures rest { self.new ≡ taken_out self.old name.now }
        ensures gone { value_of self.new name.now ≡ None }
        ensures others { (other : List ℕ) → is_same other name.now ≡ false → value_of self.new other ≡ value_of self.old other }
        ensures same { IfNone result (self.new ≡ self.old) }
    {
        take_out(&mut self.slots, name)
    }

    /// Makes `at` and `value_mut` take constant time until the next name is removed. The names, values and indices are
    /// unchanged. Allocates nothing. Takes constant time if no slot is empty, and otherwise O(n log n) time for n names.
    pub fn settle(&mut self)
    where
        V: Drop,
        ensures { self.new ≡ self.old }
    {
        if self.slots.empty > 0 {
            close_up(&mut self.slots);
        }
    }

    /// A copy with the same names and values in the same order. Takes O(n log n) time and linear memory for n names.
    ///
    /// # Errors
    ///
    /// `NoMemory` if allocation fails.
    pub fn copy(&self, alloc: Global) -> Result<NameMap<V>, NoMemory>
    where
        V: Copy,
        ensures { IfOk result (λ copy. copy ≡ self.now) }
    {
        let mut copy = NameMap::new(alloc);
        for held in &self.slots.items {
            if let Some(named) = held {
                copy.set(alloc, named.0.copy(alloc)?, named.1)?;
            }
        }
        Ok(copy)
    }

    /// The number of names.
    pub fn count(&self) -> usize
        ensures count { result ≡ length self.now }
        ensures distinct { AreDistinctNames self.now }
    {
        self.slots.items.len() - self.slots.empty
    }

    /// The name and the value at index `index`, counted from 0. Takes constant time after `settle`, and otherwise up to
    /// linear time.
    pub fn at(&self, index: usize) -> (&Name, &V)
        requires { index < length self.now }
        ensures { slice_get self.now index ≡ Some (result.0.now, result.1.now) }
    {
        let slot = slot_of(&self.slots, index);
        // `slot_of` returns the number of a slot with a name.
        let named = self.slots.items[slot].as_ref().unwrap();
        (&named.0, &named.1)
    }

    /// The value at index `index`, by mutable reference. Takes constant time after `settle`, and otherwise up to linear time.
    pub fn value_mut(&mut self, index: usize) -> &mut V
        requires { index < length self.old }
        ensures* writes_back { sem 𝓛 (lends_value V.row self.entry index result) }
        ensures value { option_map (λ p. p.1) (slice_get self.old index) ≡ Some result.now }
    {
        let slot = slot_of(&self.slots, index);
        let slots = &mut self.slots;
        // `slot_of` returns the number of a slot with a name.
        let named = slots.items[slot].as_mut().unwrap();
        &mut named.1
    }
}

mod closing;
mod slots;
