//! Which items are used, and their new numbers.

ghost use Rattle.distinct_items.specs.Renumbering.{flags_of, is_used, kept_items};
ghost use Rattle.slp_model.specs.Kept.{Keeps};
ghost use Rattle.slp_model.specs.Thin.{rank};
ghost use Rattle.std.specs.Prelude.{◌≡◌, ℕ, ◌+◌, ◌-◌, ◌<◌, ◌≤◌, ◌^◌, All, cond, get_or, length, map};

/// Writes 0 everywhere.
pub(crate) fn clear(marks: &mut [u32])
    ensures { (k : ℕ) → get_or marks.new k 0 ≡ 0 }
{
    for mark in marks.iter_mut() {
        *mark = 0;
    }
}

/// Writes 1 at each of the numbers, and 0 elsewhere.
pub(crate) fn mark_used(marks: &mut [u32], numbers: &[u32])
    requires { All (λ n. n < length marks.old) numbers.now }
    ensures { (k : ℕ) → get_or marks.new k 0 ≡ cond (is_used numbers.now k) 1 0 }
{
    clear(marks);
    for number in numbers {
        marks[*number as usize] = 1;
    }
}

/// Removes the items whose marks are 0, and replaces the other marks by one more than the item's new index.
pub(crate) fn close_up<T: Drop>(items: &mut Vec<T>, marks: &mut [u32])
    requires long { length items.old.items ≤ length marks.old }
    requires low { length items.old.items < 2 ^ 32 }
    ensures items { items.new.items ≡ kept_items items.old.items (flags_of marks.old) }
    ensures places { (k : ℕ) → k < length items.old.items → Keeps (flags_of marks.old) k → get_or marks.new k 0 ≡ rank (flags_of marks.old) k + 1 }
{
    let mut kept = 0;
    for index in 0..items.len() {
        if marks[index] != 0 {
            items.swap(kept, index);
            kept += 1;
            marks[index] = kept as u32;
        }
    }
    items.truncate(kept);
}

/// Replaces each number by the index in its mark.
pub(crate) fn follow(numbers: &mut [u32], marks: &[u32])
    requires { All (λ n. (n < length marks.now) × (0 < get_or marks.now n 0)) numbers.old }
    ensures { numbers.new ≡ map (λ n. get_or marks.now n 0 - 1) numbers.old }
{
    for number in numbers.iter_mut() {
        *number = marks[*number as usize] - 1;
    }
}
