//! Mark order.
ghost use Rattle.span_types.specs.Marks.{Comes, IsFirstDifference};
ghost use Rattle.span_types.specs.Search.{Passes, PassesSpan, IsLower};
ghost use Rattle.std.specs.Prelude.{◌≡◌, ◌↔◌, length, Option, Some};
ghost use Rattle.std.specs.declared.cmp.Ordering.{Ordering};

use crate::tuple::marks::mark_at;
use crate::tuple::{Span, Tuple};
use std::cmp::Ordering;

/// One position past the greatest bound of a span.
const PAST: u64 = 281474976710658;

/// Mark order, this project's own: of two different tuples the one that has the greater mark at the first position at which their marks differ comes first, which is `Less`. No text is part of this. For one variable it is start ascending, then end ascending, and the tuple without a span comes last.
pub fn compare(a: &Tuple, b: &Tuple) -> Ordering
    requires { length a.now ≡ length b.now }
    ensures less { (result ≡ Ordering.Less) ↔ Comes a.now b.now }
    ensures greater { (result ≡ Ordering.Greater) ↔ Comes b.now a.now }
    ensures equal { (result ≡ Ordering.Equal) ↔ (a.now ≡ b.now) }
{
    let p = first_difference(a, b);
    let first = mark_at(a, p);
    let second = mark_at(b, p);
    second.cmp(&first)
}

/// The first position at which two tuples have different marks, or one past all of their bounds.
fn first_difference(a: &Tuple, b: &Tuple) -> u64
    requires { length a.now ≡ length b.now }
    ensures { IsFirstDifference a.now b.now result }
{
    let mut first = PAST;
    let _others = b.count();
    for v in 0..a.count() {
        first = lower_bound(a, b, a.span(v), first);
        first = lower_bound(a, b, b.span(v), first);
    }
    first
}

/// The least of a position and the bounds of a span at which the marks differ.
fn lower_bound(a: &Tuple, b: &Tuple, span: Option<Span>, first: u64) -> u64
    ensures lower { IsLower a.now b.now first result }
    ensures passes { PassesSpan a.now b.now span result }
{
    match span {
        None => first,
        Some(span) => lower(a, b, span.end, lower(a, b, span.start, first)),
    }
}

/// The lesser of two positions, where the first one counts only if the marks differ there.
fn lower(a: &Tuple, b: &Tuple, p: u64, first: u64) -> u64
    ensures lower { IsLower a.now b.now first result }
    ensures passes { Passes a.now b.now p result }
{
    let differ = mark_at(a, p) != mark_at(b, p);
    if differ && p < first { p } else { first }
}
