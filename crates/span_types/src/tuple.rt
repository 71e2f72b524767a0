//! Spans and tuples of spans.
ghost use Rattle.span_types.specs.Marks.{spans_of};
ghost use Rattle.span_types.specs.Places.{IsTuple, IsSpanOr};
ghost use Rattle.span_types.specs.Writes.{blanks};
ghost use Rattle.std.specs.Prelude.{◌≡◌, ◌<◌, ◌≤◌, length};

use std::marker::Model;

mod marks;
mod order;
mod writes;

pub use marks::mark_at;
pub use order::compare;

/// The span `[start,end)` of a text (Fagin et al., *Document Spanners*, JACM 2015): the bytes at the positions from
/// `start` up to `end`, which isn't part of it. The positions of a text of n bytes are 1 to n+1.
#[derive(Clone, Copy, PartialEq, Eq, Debug)]
pub struct Span {
    /// The first position.
    pub start: u64,

    /// One position past the last byte.
    pub end: u64,
}

/// One span or none for each of at most eight variables. Contracts see it as the list of these.
#[derive(Clone, Copy, PartialEq, Eq, Debug)]
pub struct Tuple {
    /// The number of variables, at most 8.
    pub count: u8,

    /// The spans by variable number. An entry below `count` has 1 ≤ start ≤ end ≤ 2^48 + 1, or is `[0,0)` if the
    /// variable has no span. Entries from `count` on are `[0,0)`.
    pub spans: [Span; 8],
}

impl Model for Tuple {
    ghost use Rattle.std.specs.Prelude.{List, Option};
    ghost use Rattle.span_types.specs.declared.tuple.Span.{Span};
    ghost use Rattle.span_types.specs.Places.{places_of, ArePlaces, filled};
    ghost use Rattle.std.specs.Prelude.{length};

    ghost Value = { List (Option Span) };

    ghost view = { λ t. places_of t.count t.spans };

    ghost invariant = { λ t. ArePlaces 8 t.count t.spans };

    ghost inverse = { λ v. record { count = length v; spans = filled 8 v } };

    ghost use Rattle.span_types.specs.PlaceLaws.{filled-places, length-places};

    ghost inverse_ok = { λ t h i. record { count = length-places 8 t.count t.spans h i; spans = filled-places 8 t.count t.spans h i } };
}

/// The entry of a variable that has no span.
const BLANK: Span = Span { start: 0, end: 0 };

impl Tuple {
    /// The tuple of `count` variables without spans.
    pub fn none(count: u8) -> Tuple
        requires { count ≤ 8 }
        ensures { result ≡ blanks count }
    {
        Tuple {
            count,
            spans: [BLANK; 8],
        }
    }

    /// The number of variables.
    pub fn count(&self) -> u8
        ensures value { result ≡ length self.now }
        ensures tuple { IsTuple self.now }
    {
        self.count
    }

    /// The span of a variable, by its number.
    pub fn span(&self, v: u8) -> Option<Span>
        requires { v < length self.now }
        ensures value { result ≡ spans_of self.now v }
        ensures span { IsSpanOr result }
    {
        let span = self.spans[v as usize];
        if span.start == 0 { None } else { Some(span) }
    }
}
