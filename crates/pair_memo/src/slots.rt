//! An open-addressing hash table over a list of slots: a pair's entry is in the first slot, from the pair's own on, that had none
//! (D. E. Knuth, *The Art of Computer Programming*, volume 3, section 6.4).
ghost use Rattle.pair_memo.specs.Entries.{Entry, entries_of};
ghost use Rattle.std.specs.Prelude.{◌≡◌, ◌⊎◌, ◌+◌, ◌≤◌, [], length, IfOk, IfSome, Contains, Some};

use span_types::NoMemory;
use std::alloc::Global;

/// An entry, if there is one: the two numbers of a pair, and the pair's number. It takes 16 bytes.
pub(crate) type Slot = Option<((u32, u32), u32)>;

// The least number of slots, besides 0.
const MIN_SLOTS: usize = 64;

/// The own slot of a pair among `slots`, which are a power of two and at most 2^24, by a multiplicative hash of its numbers.
#[inline(always)]
pub(crate) fn slot_of(left: usize, right: usize, slots: usize) -> usize {
    let mixed = left.wrapping_mul(0x9E37_79B9_7F4A_7C15).wrapping_add(right);
    mixed.wrapping_mul(0x9E37_79B9_7F4A_7C15) >> 40 & slots.wrapping_sub(1)
}

/// The number of the pair, if there is an entry for it.
#[inline(always)]
pub(crate) fn find(slots: &[Slot], left: usize, right: usize) -> Option<usize>
    ensures { IfSome result (λ number. Contains (entries_of slots.now) ((left, right), number)) }
{
    let own = slot_of(left, right, slots.len());
    let ((first, second), number) = (*slots.get(own)?)?;
    if first as usize == left && second as usize == right {
        Some(number as usize)
    } else {
        find_behind(slots, own, left, right)
    }
}

// The same, if the pair's own slot has the entry of another pair.
#[inline(never)]
fn find_behind(slots: &[Slot], own: usize, left: usize, right: usize) -> Option<usize>
    ensures { IfSome result (λ number. Contains (entries_of slots.now) ((left, right), number)) }
{
    for step in 1..slots.len() {
        let index = own.wrapping_add(step) & (slots.len() - 1);
        let ((first, second), number) = (*slots.get(index)?)?;
        if first as usize == left && second as usize == right {
            return Some(number as usize);
        }
    }
    None
}

// The index of the first slot, from the pair's own on, that has no entry or the pair's. Without one it is any index.
fn index_for(slots: &[Slot], pair: (u32, u32)) -> usize {
    let own = slot_of(pair.0 as usize, pair.1 as usize, slots.len());
    for step in 0..slots.len() {
        let index = own.wrapping_add(step) & (slots.len() - 1);
        match slots.get(index) {
            Some(Some((other, _))) if *other != pair => {}
            _ => return index,
        }
    }
    own
}

// Writes an entry, in place of the one that the pair has. Returns by how many the entries are more: 0 or 1.
fn put(slots: &mut [Slot], entry: ((u32, u32), u32)) -> usize
    ensures entries { (e : Entry) → Contains (entries_of slots.new) e → Contains (entries_of slots.old) e ⊎ (e ≡ entry) }
    ensures count { length (entries_of slots.new) ≡ length (entries_of slots.old) + result }
    ensures one { result ≤ 1 }
    ensures long { length slots.new ≡ length slots.old }
{
    let index = index_for(slots, entry.0);
    if index >= slots.len() {
        return 0;
    }
    let before = slots[index];
    slots[index] = Some(entry);
    match before {
        Some(_) => 0,
        None => 1,
    }
}

// Writes the entry of a slot, if it has one. Returns by how many the entries are more: 0 or 1.
fn put_slot(slots: &mut [Slot], slot: Slot) -> usize
    ensures entries { (e : Entry) → Contains (entries_of slots.new) e → Contains (entries_of slots.old) e ⊎ (slot ≡ Some e) }
    ensures count { length (entries_of slots.new) ≡ length (entries_of slots.old) + result }
    ensures one { result ≤ 1 }
    ensures long { length slots.new ≡ length slots.old }
{
    match slot {
        Some(entry) => put(slots, entry),
        None => 0,
    }
}

// Writes the entries of `from` to slots without entries, and returns their number.
fn put_all(from: &[Slot], to: &mut [Slot]) -> usize
    requires { entries_of to.old ≡ [] }
    ensures entries { (e : Entry) → Contains (entries_of to.new) e → Contains (entries_of from.now) e }
    ensures count { result ≡ length (entries_of to.new) }
    ensures long { length to.new ≡ length to.old }
{
    let mut count = 0;
    for slot in from {
        count += put_slot(to, *slot);
    }
    count
}

// This many slots without entries.
fn empty_slots(alloc: Global, count: usize) -> Result<Vec<Slot>, NoMemory>
    ensures { IfOk result (λ slots. entries_of slots.items ≡ []) }
{
    let mut slots = Vec::new(alloc);
    slots.resize(count, None)?;
    Ok(slots)
}

// Doubles the slots if half of them have entries and memory allows, and returns the number of entries.
fn make_room(alloc: Global, slots: &mut Vec<Slot>, count: usize) -> usize
    requires { count ≡ length (entries_of slots.old.items) }
    ensures entries { (e : Entry) → Contains (entries_of slots.new.items) e → Contains (entries_of slots.old.items) e }
    ensures count { result ≡ length (entries_of slots.new.items) }
{
    if count < slots.len() / 2 {
        return count;
    }
    let double = slots.len().saturating_mul(2).max(MIN_SLOTS);
    let Ok(mut larger) = empty_slots(alloc, double) else {
        return count;
    };
    let count = put_all(slots, &mut larger);
    *slots = larger;
    count
}

/// Removes all entries if there are `size`. Returns the number of those that are left.
pub(crate) fn leave_room(slots: &mut Vec<Slot>, count: usize, size: usize) -> usize
    requires { count ≡ length (entries_of slots.old.items) }
    ensures entries { (e : Entry) → Contains (entries_of slots.new.items) e → Contains (entries_of slots.old.items) e }
    ensures count { result ≡ length (entries_of slots.new.items) }
{
    if count < size {
        return count;
    }
    slots.clear();
    0
}

/// Writes an entry, in place of the one that the pair has, if less than half of the slots have entries or memory allows more
/// slots. Returns the number of entries.
pub(crate) fn note(
    alloc: Global,
    slots: &mut Vec<Slot>,
    count: usize,
    entry: ((u32, u32), u32),
) -> usize
    requires { count ≡ length (entries_of slots.old.items) }
    ensures entries { (e : Entry) → Contains (entries_of slots.new.items) e → Contains (entries_of slots.old.items) e ⊎ (e ≡ entry) }
    ensures count { result ≡ length (entries_of slots.new.items) }
{
    let count = make_room(alloc, slots, count);
    if count < slots.len() / 2 {
        count + put(slots, entry)
    } else {
        count
    }
}
