//! Dropping empty slots, and renumbering the others.
ghost use Rattle.name_map.specs.Kept.{AreIndexed, AreSlots, HasNames, IsNumbered, indexed, live};
ghost use Rattle.name_map.specs.Named.{AreDistinctNames};
ghost use Rattle.std.specs.Prelude.{◌≡◌, ◌<◌, length};

use crate::slots::Slots;

/// Drops the empty slots if they are more than half of all.
pub(crate) fn close_sparse<V: Drop>(slots: &mut Slots<V>)
    requires { AreSlots (indexed slots.old.index.entries) slots.old.items.items slots.old.empty }
    ensures same { live slots.new.items.items ≡ live slots.old.items.items }
    ensures kept { AreSlots (indexed slots.new.index.entries) slots.new.items.items slots.new.empty }
{
    if slots.empty > slots.items.len() / 2 {
        close_up(slots);
    }
}

/// Drops the empty slots. Allocates nothing. Finds each name once.
pub(crate) fn close_up<V: Drop>(slots: &mut Slots<V>)
    requires { AreSlots (indexed slots.old.index.entries) slots.old.items.items slots.old.empty }
    ensures same { live slots.new.items.items ≡ live slots.old.items.items }
    ensures kept { AreSlots (indexed slots.new.index.entries) slots.new.items.items slots.new.empty }
    ensures none { slots.new.empty ≡ 0 }
{
    slots.items.retain(|slot| slot.is_some());
    slots.empty = 0;
    number_all(slots);
}

/// Sets the number of each name in the B-tree to that of its slot.
fn number_all<V>(slots: &mut Slots<V>)
    requires full { length (live slots.old.items.items) ≡ length slots.old.items.items }
    requires names { HasNames (indexed slots.old.index.entries) slots.old.items.items }
    requires distinct { AreDistinctNames (live slots.old.items.items) }
    ensures items { slots.new.items.items ≡ slots.old.items.items }
    ensures empty { slots.new.empty ≡ slots.old.empty }
    ensures numbers { AreIndexed (indexed slots.new.index.entries) 0 slots.new.items.items }
    ensures names { HasNames (indexed slots.new.index.entries) slots.new.items.items }
{
    for slot in 0..slots.items.len() {
        number(slots, slot);
    }
}

/// Sets the number of this slot's name in the B-tree to `slot`.
fn number<V>(slots: &mut Slots<V>, slot: usize)
    requires { slot < length slots.old.items.items }
    ensures items { slots.new.items.items ≡ slots.old.items.items }
    ensures empty { slots.new.empty ≡ slots.old.empty }
    ensures numbered { IsNumbered (indexed slots.old.index.entries) (indexed slots.new.index.entries) slots.new.items.items slot }
{
    match &slots.items[slot] {
        Some(named) => match slots.index.get_mut(named.0.bytes()) {
            Some(number) => *number = slot,
            None => {}
        },
        None => {}
    }
}
