//! Tuples that are written mark by mark.
ghost use Rattle.span_types.specs.Marks.{mark_of};
ghost use Rattle.span_types.specs.Places.{IsTuple, IsSpanOr, unplaced};
ghost use Rattle.span_types.specs.Writes.{write_one, write_mark, cut_one, cut};
ghost use Rattle.span_types.specs.declared.tuple.Span.{Span as OneSpan};
ghost use Rattle.std.specs.Prelude.{◌≡◌, ◌<◌, ◌≤◌, ◌+◌, length, slice_set, List, Option};

use crate::tuple::{BLANK, Span, Tuple};

impl Tuple {
    /// The tuple with this span, or none, for a variable.
    pub fn with_span(&self, v: u8, span: Option<Span>) -> Tuple
        requires index { v < length self.now }
        requires span { IsSpanOr span }
        ensures { result ≡ slice_set self.now v span }
    {
        let mut out = *self;
        out.spans[v as usize] = index_of(span);
        out
    }

    /// The tuple after the bounds that a mark puts at a position. A span that is opened is empty until it is closed. So marks
    /// written by rising position make the tuple that has them.
    pub fn with_mark(&self, m: u16, p: u64) -> Tuple
        requires positive { 1 ≤ p }
        requires small { p ≤ 281474976710657 }
        ensures value { result ≡ write_mark m p self.now }
        ensures next { (t : List (Option OneSpan)) → IsTuple t → self.now ≡ cut p t → m ≡ mark_of t p → result ≡ cut (p + 1) t }
    {
        let mut out = *self;
        let mut rest = m;
        for v in 0..self.count() {
            out = out.with_span(v, written(rest % 4, p, self.span(v)));
            rest /= 4;
        }
        out
    }

    /// What the bounds before a position say, where an open span counts as empty.
    pub fn cut_at(&self, p: u64) -> Tuple
        ensures { result ≡ cut p self.now }
    {
        let mut out = *self;
        for v in 0..self.count() {
            out = out.with_span(v, known(p, self.span(v)));
        }
        out
    }
}

/// The entry that says what span there is.
fn index_of(span: Option<Span>) -> Span
    ensures { result ≡ unplaced span }
{
    match span {
        Some(span) => span,
        None => BLANK,
    }
}

/// An entry after the marker of its variable.
fn written(digit: u16, p: u64, span: Option<Span>) -> Option<Span>
    requires positive { 1 ≤ p }
    requires small { p ≤ 281474976710657 }
    requires span { IsSpanOr span }
    ensures value { result ≡ write_one digit p span }
    ensures span { IsSpanOr result }
{
    match (digit, span) {
        (0, _) => span,
        (2, None) => None,
        (2, Some(open)) => Some(Span {
            start: open.start,
            end: open.start.max(p),
        }),
        _ => Some(Span { start: p, end: p }),
    }
}

/// What the bounds before a position say of an entry.
fn known(p: u64, span: Option<Span>) -> Option<Span>
    requires { IsSpanOr span }
    ensures value { result ≡ cut_one p span }
    ensures span { IsSpanOr result }
{
    let span = span?;
    if p <= span.start {
        None
    } else if p <= span.end {
        Some(Span {
            start: span.start,
            end: span.start,
        })
    } else {
        Some(span)
    }
}
