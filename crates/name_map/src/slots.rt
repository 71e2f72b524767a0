//! The slots of the map, in the order in which the names were added, and the B-tree that finds a name's slot.
ghost use Rattle.name_map.specs.Kept.{AreSlots, IsSlotOf, indexed, live};
ghost use Rattle.name_map.specs.Named.{is_same, put, taken_out, value_of};
ghost use Rattle.std.specs.Option.{option_map};
ghost use Rattle.std.specs.Prelude.{◌≡◌, ◌<◌, ◌+◌, ℕ, List, ◌∷◌, [], ◌++◌, length, cond, Some, OnOk, OnErr};

use crate::closing::close_sparse;
use span_types::{Name, NoMemory};
use std::alloc::Global;
use std::collections::BTreeMap;

/// Slots, each empty or with a name and its value, and the number of each name's slot.
#[derive(Drop)]
pub(crate) struct Slots<V> {
    pub items: Vec<Option<(Name, V)>>,
    pub index: BTreeMap<Vec<u8>, usize>,
    /// The number of empty slots.
    pub empty: usize,
}

/// The number of the slot with this name, if there is one.
pub(crate) fn slot_named<V>(slots: &Slots<V>, name: &[u8]) -> Option<usize>
    ensures { result ≡ indexed slots.now.index.entries name.now }
{
    slots.index.get(name).copied()
}

/// The number of the slot that has the pair at index `index`. Takes constant time if no slot is empty, and otherwise
/// time linear in the number of slots.
pub(crate) fn slot_of<V>(slots: &Slots<V>, index: usize) -> usize
    requires within { index < length (live slots.now.items.items) }
    requires count { length (live slots.now.items.items) + slots.now.empty ≡ length slots.now.items.items }
    ensures { IsSlotOf slots.now.items.items index result }
{
    if slots.empty == 0 {
        return index;
    }
    let mut left = index;
    for (slot, held) in slots.items.iter().enumerate() {
        if held.is_some() {
            if left == 0 {
                return slot;
            }
            left -= 1;
        }
    }
    // `index` is less than the number of slots with a name.
    unreachable!()
}

/// Sets the value of this name, in the name's slot or in a new last slot.
pub(crate) fn set<V: Drop>(
    slots: &mut Slots<V>,
    alloc: Global,
    name: Name,
    value: V,
) -> Result<(), NoMemory>
    requires { AreSlots (indexed slots.old.index.entries) slots.old.items.items slots.old.empty }
    ensures ok { OnOk result (live slots.new.items.items ≡ put (live slots.old.items.items) name value) }
    ensures err { OnErr result (live slots.new.items.items ≡ live slots.old.items.items) }
    ensures kept { AreSlots (indexed slots.new.index.entries) slots.new.items.items slots.new.empty }
{
    match slot_named(slots, name.bytes()) {
        Some(slot) => {
            slots.items[slot] = Some((name, value));
            Ok(())
        }
        None => push(slots, alloc, name, value),
    }
}

/// Adds a last slot.
fn push<V: Drop>(slots: &mut Slots<V>, alloc: Global, name: Name, value: V) -> Result<(), NoMemory>
    ensures empty { slots.new.empty ≡ slots.old.empty }
    ensures items { OnOk result (slots.new.items.items ≡ slots.old.items.items ++ Some (name, value) ∷ []) }
    ensures index { OnOk result ((other : List ℕ) → indexed slots.new.index.entries other ≡ cond (is_same name other) (Some (length slots.old.items.items)) (indexed slots.old.index.entries other)) }
    ensures items_err { OnErr result (slots.new.items.items ≡ slots.old.items.items) }
    ensures index_err { OnErr result (slots.new.index.entries ≡ slots.old.index.entries) }
{
    let key = name.bytes().to_vec(alloc)?;
    let slot = slots.items.len();
    slots.items.reserve(1)?;
    if slots.index.insert(key, slot).is_err() {
        return Err(NoMemory);
    }
    slots.items.push_reserved(Some((name, value)));
    Ok(())
}

/// Removes the name and returns its value, if the name is there. If more than half of the slots are empty then, they are
/// dropped.
pub(crate) fn take_out<V: Drop>(slots: &mut Slots<V>, name: &[u8]) -> Option<V>
    requires { AreSlots (indexed slots.old.index.entries) slots.old.items.items slots.old.empty }
    ensures value { result ≡ value_of (live slots.old.items.items) name.now }
    ensures rest { live slots.new.items.items ≡ taken_out (live slots.old.items.items) name.now }
    ensures kept { AreSlots (indexed slots.new.index.entries) slots.new.items.items slots.new.empty }
{
    let Some(slot) = slot_named(slots, name) else {
        return None;
    };
    let held = empty_slot(slots, slot, name);
    close_sparse(slots);
    match held {
        Some((_name, value)) => Some(value),
        None => None,
    }
}

/// Removes the name in this slot, and leaves the slot empty.
fn empty_slot<V>(slots: &mut Slots<V>, slot: usize, name: &[u8]) -> Option<(Name, V)>
    requires kept { AreSlots (indexed slots.old.index.entries) slots.old.items.items slots.old.empty }
    requires there { indexed slots.old.index.entries name.now ≡ Some slot }
    ensures value { option_map (λ p. p.1) result ≡ value_of (live slots.old.items.items) name.now }
    ensures rest { live slots.new.items.items ≡ taken_out (live slots.old.items.items) name.now }
    ensures kept { AreSlots (indexed slots.new.index.entries) slots.new.items.items slots.new.empty }
{
    slots.index.remove(name);
    slots.empty += 1;
    slots.items[slot].take()
}
