//! Lists of marks at states.

ghost use Rattle.marker_nfa.specs.Parts.{Adds, AreShort, AreShortAt, AreShortHops, IsHop, IsHopIn, IsRaised, IsRaisedBy};
ghost use Rattle.marker_nfa.specs.declared.nfa.End.{End};
ghost use Rattle.std.specs.Prelude.{◌≡◌, ◌+◌, ◌<◌, ◌⊎◌, ◌≢◌, ◌↔◌, ℕ, AllPairs, Contains, OnOk, IfOk, ◌∷◌, [], ◌*◌, ◌^◌};

use crate::nfa::End;
use span_types::NoMemory;

/// A step from an occurrence to the next, with a mark.
#[derive(Clone, Copy, PartialEq, Eq, PartialOrd, Ord)]
pub struct Hop {
    pub from: u16,
    pub mark: u16,
    pub to: u16,
}

/// Appends a value.
///
/// # Errors
///
/// `NoMemory` if allocation fails.
pub fn put<T: Drop>(list: &mut Vec<T>, value: T) -> Result<(), NoMemory>
    ensures { OnOk result (Adds list.old.items list.new.items (λ x. x ≡ value)) }
{
    list.push(value)?;
    Ok(())
}

/// Appends a mark, unless it is there.
///
/// # Errors
///
/// `NoMemory` if allocation fails.
pub fn push_new(marks: &mut Vec<u16>, mark: u16) -> Result<(), NoMemory>
    ensures { OnOk result (Adds marks.old.items marks.new.items (λ m. m ≡ mark)) }
{
    if !marks.contains(&mark) {
        marks.push(mark)?;
    }
    Ok(())
}

/// Appends each mark of a list to another, unless it is there.
///
/// # Errors
///
/// `NoMemory` if allocation fails.
pub fn push_marks(marks: &mut Vec<u16>, more: &[u16]) -> Result<(), NoMemory>
    ensures { OnOk result (Adds marks.old.items marks.new.items (λ x. (y : ℕ) × Contains more.now y × (x ≡ y))) }
{
    for mark in more {
        push_new(marks, *mark)?;
    }
    Ok(())
}

/// Appends each mark at a state of a list to another.
///
/// # Errors
///
/// `NoMemory` if allocation fails.
pub fn push_ends(out: &mut Vec<End>, more: &[End]) -> Result<(), NoMemory>
    ensures { OnOk result (Adds out.old.items out.new.items (λ x. (y : End) × Contains more.now y × (x ≡ y))) }
{
    for end in more {
        put(out, *end)?;
    }
    Ok(())
}

/// Appends each mark to a list, at the start's state.
///
/// # Errors
///
/// `NoMemory` if allocation fails.
pub fn push_at_start(out: &mut Vec<End>, marks: &[u16]) -> Result<(), NoMemory>
    ensures { OnOk result (Adds out.old.items out.new.items (λ x. (y : ℕ) × Contains marks.now y × (x ≡ record { state = 0; mark = y }))) }
{
    for mark in marks {
        let end = End {
            state: 0,
            mark: *mark,
        };
        put(out, end)?;
    }
    Ok(())
}

/// Appends the sums of one mark and each of a list to a list.
///
/// # Errors
///
/// `NoMemory` if allocation fails.
pub fn push_sums(marks: &mut Vec<u16>, left: u16, right: &[u16]) -> Result<(), NoMemory>
    requires { (y : ℕ) → Contains right.now y → left + y < 65536 }
    ensures { OnOk result (Adds marks.old.items marks.new.items (λ m. (y : ℕ) × Contains right.now y × (m ≡ left + y))) }
{
    for mark in right {
        push_new(marks, left + *mark)?;
    }
    Ok(())
}

/// Appends the sums of each mark of one list and each of another to a list.
///
/// # Errors
///
/// `NoMemory` if allocation fails.
pub fn push_all_sums(marks: &mut Vec<u16>, left: &[u16], right: &[u16]) -> Result<(), NoMemory>
    requires { AreShort left.now right.now }
    ensures { OnOk result (Adds marks.old.items marks.new.items (λ m. (x : ℕ) × Contains left.now x × ((y : ℕ) × Contains right.now y × (m ≡ x + y)))) }
{
    for mark in left {
        push_sums(marks, *mark, right)?;
    }
    Ok(())
}

/// Appends the marks at states to a list, with one mark added.
///
/// # Errors
///
/// `NoMemory` if allocation fails.
pub fn push_raised(out: &mut Vec<End>, by: u16, ends: &[End]) -> Result<(), NoMemory>
    requires { (y : End) → Contains ends.now y → by + y.mark < 65536 }
    ensures { OnOk result (Adds out.old.items out.new.items (IsRaised by ends.now)) }
{
    for end in ends {
        let raised = End {
            state: end.state,
            mark: by + end.mark,
        };
        put(out, raised)?;
    }
    Ok(())
}

/// Appends the marks at states to a list, with each of some marks added.
///
/// # Errors
///
/// `NoMemory` if allocation fails.
pub fn push_all_raised(out: &mut Vec<End>, marks: &[u16], ends: &[End]) -> Result<(), NoMemory>
    requires { AreShortAt marks.now ends.now }
    ensures { OnOk result (Adds out.old.items out.new.items (IsRaisedBy marks.now ends.now)) }
{
    for mark in marks {
        push_raised(out, *mark, ends)?;
    }
    Ok(())
}

/// Appends the steps from one last occurrence to the first ones to a list.
///
/// # Errors
///
/// `NoMemory` if allocation fails.
pub fn push_hops(hops: &mut Vec<Hop>, last: End, firsts: &[End]) -> Result<(), NoMemory>
    requires { (y : End) → Contains firsts.now y → last.mark + y.mark < 65536 }
    ensures { OnOk result (Adds hops.old.items hops.new.items (IsHop last firsts.now)) }
{
    for first in firsts {
        let hop = Hop {
            from: last.state,
            mark: last.mark + first.mark,
            to: first.state,
        };
        put(hops, hop)?;
    }
    Ok(())
}

/// Appends the steps from the last occurrences to the first ones to a list.
///
/// # Errors
///
/// `NoMemory` if allocation fails.
pub fn push_all_hops(hops: &mut Vec<Hop>, lasts: &[End], firsts: &[End]) -> Result<(), NoMemory>
    requires { AreShortHops lasts.now firsts.now }
    ensures { OnOk result (Adds hops.old.items hops.new.items (IsHopIn lasts.now firsts.now)) }
{
    for last in lasts {
        push_hops(hops, *last, firsts)?;
    }
    Ok(())
}

/// Sorts a list and removes duplicates.
pub fn put_in_order(hops: &mut Vec<Hop>)
    ensures same { (h : _) → Contains hops.new.items h ↔ Contains hops.old.items h }
    ensures once { AllPairs (λ x y. x ≢ y) hops.new.items }
{
    hops.sort_unstable();
    hops.dedup();
}

/// Sorts a list and removes duplicates.
pub fn put_ends_in_order(ends: &mut Vec<End>)
    ensures same { (x : End) → Contains ends.new.items x ↔ Contains ends.old.items x }
    ensures once { AllPairs (λ x y. x ≢ y) ends.new.items }
{
    ends.sort_unstable();
    ends.dedup();
}
