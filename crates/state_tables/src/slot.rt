//! The slots of a hash table with linear probing (D. E. Knuth, The Art of Computer Programming, volume 3, section 6.4).

ghost use Rattle.std.specs.Prelude.{◌≡◌, ◌+◌, ◌-◌, ◌<◌, ◌^◌, slice_set};

/// The end of a lookup: the index of an equal item, or the slot for it.
pub(crate) enum Slot {
    Taken(u16),
    Free(usize),
}

// At most this many items are compared one after the other, and have no slots.
const FEW: usize = 8;

/// The number of slots for this many items: a power of two and at least two for each item, or 0 if they are few.
pub(crate) fn slot_count(items: u16) -> usize {
    let items = items as usize;
    if items <= FEW {
        0
    } else {
        (2 * items + 1).next_power_of_two()
    }
}

/// The slot after this one. The first one comes after the last one.
pub(crate) fn next(slot: usize, slots: usize) -> usize
    requires { slot < slots }
    ensures { result < slots }
{
    (slot + 1) & (slots - 1)
}

/// Puts one more than the index of an item into the slot, if there is such a slot.
pub(crate) fn fill(slots: &mut [u16], slot: usize, index: u16)
    requires { index < 2 ^ 16 - 1 }
    ensures { slots.new ≡ slice_set slots.old slot (index + 1) }
{
    if slot < slots.len() {
        slots[slot] = index + 1;
    }
}
