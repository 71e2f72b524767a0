//! The marks of a tuple.
ghost use Rattle.span_types.specs.Marks.{mark_of, part_of};
ghost use Rattle.std.specs.Prelude.{◌≡◌, ◌≤◌, ◌^◌, ℕ};

use crate::tuple::{Span, Tuple};

/// The mark of a tuple at a position: the sum of 4^v over the variables v whose span starts there, and of 2·4^v over those whose span ends there. It is 0 where there is none, also past any text.
pub fn mark_at(t: &Tuple, p: u64) -> u16
    ensures { result ≡ mark_of t.now p }
{
    let mut sum = 0u16;
    let mut opening = 1u16;
    for v in 0..t.count() {
        sum += part(t.span(v), opening, p);
        if v < 7 {
            opening *= 4;
        }
    }
    sum
}

/// What one variable adds to the mark at a position.
fn part(span: Option<Span>, opening: u16, p: u64) -> u16
    requires { opening ≤ 4 ^ 7 }
    ensures { (v : ℕ) → opening ≡ 4 ^ v → result ≡ part_of v span p }
{
    let Some(span) = span else {
        return 0;
    };
    let first = if p == span.start { opening } else { 0 };
    let second = if p == span.end { 2 * opening } else { 0 };
    first + second
}
