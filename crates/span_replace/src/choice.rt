//! Which answer is chosen next.
ghost use Rattle.span_enum.specs.Members.{IsFirstMember};
ghost use Rattle.span_replace.specs.Cursor.{NoSpanLeft, IsLongestLeft, past};
ghost use Rattle.span_replace.specs.Search.{Finds, cursor_past, search_cost};
ghost use Rattle.span_types.specs.Fibonacci.{looks_limit};
ghost use Rattle.span_types.specs.Places.{IsSpan, IsSpanOr};
ghost use Rattle.std.specs.Prelude.{◌≡◌, ◌+◌, ◌*◌, ◌≤◌, [], ◌∷◌, length, Some, MatchOption};

use span_enum::Answers;
use span_types::{Span, Steps, Tuple};
use std::sync::ledger::Ledger;

/// The greatest position in a text.
const LAST: u64 = 281474976710657;

/// Which of the answers that are spans is chosen.
#[derive(Clone, Copy)]
pub(crate) enum Choice {
    /// The first in mark order, and after each chosen span the first that starts at or past its end.
    First,
    /// The longest of those with the first start, and after each chosen span the same of those that start at or past its
    /// end, except the empty span at that end.
    Longest,
}

impl Choice {
    /// The chosen one of the answers that are left, if any of them is a span.
    pub(crate) fn next_left<L: Ledger>(
        self,
        answers: &mut Answers<'_>,
        looks: &mut Steps<L>,
    ) -> Option<Span>
        requires one { answers.old.automaton.variables ≡ 1 }
        requires short { length answers.old.text ≤ 281474976710656 }
        ensures automaton { answers.new.automaton ≡ answers.old.automaton }
        ensures text { answers.new.text ≡ answers.old.text }
        ensures span { Finds self answers.old.automaton answers.old.text answers.old.after result }
        ensures index { IsSpanOr result }
        ensures cost { looks.new ≤ looks.old + search_cost self * looks_limit 1 (length answers.old.text) }
    {
        match self {
            Choice::First => next_span(answers, looks),
            Choice::Longest => longest_left(answers, looks),
        }
    }

    /// The chosen one of the answers after this span.
    pub(crate) fn next_after<L: Ledger>(
        self,
        answers: &mut Answers<'_>,
        taken: Span,
        looks: &mut Steps<L>,
    ) -> Option<Span>
        requires one { answers.old.automaton.variables ≡ 1 }
        requires short { length answers.old.text ≤ 281474976710656 }
        requires span { IsSpan taken }
        ensures automaton { answers.new.automaton ≡ answers.old.automaton }
        ensures text { answers.new.text ≡ answers.old.text }
        ensures span { Finds self answers.old.automaton answers.old.text (Some (Some (cursor_past self taken) ∷ [])) result }
        ensures index { IsSpanOr result }
        ensures cost { looks.new ≤ looks.old + (search_cost self + 2) * looks_limit 1 (length answers.old.text) }
    {
        answers.reseek(&self.cursor(taken), looks);
        self.next_left(answers, looks)
    }

    // The tuple after which the next span is searched.
    fn cursor(self, taken: Span) -> Tuple
        requires { IsSpan taken }
        ensures { result ≡ Some (cursor_past self taken) ∷ [] }
    {
        let span = match self {
            Choice::First => span_past(taken),
            Choice::Longest => Span {
                start: taken.end,
                end: taken.end,
            },
        };
        Tuple::none(1).with_span(0, Some(span))
    }
}

// The last span that starts before the end of this one, or this one if it is empty.
fn span_past(taken: Span) -> Span
    requires { IsSpan taken }
    ensures value { result ≡ past taken }
    ensures span { IsSpan result }
{
    if taken.start < taken.end {
        Span {
            start: taken.end - 1,
            end: LAST,
        }
    } else {
        taken
    }
}

// The first answer that is left, if it is a span. The answer without a span comes last.
fn next_span<L: Ledger>(answers: &mut Answers<'_>, looks: &mut Steps<L>) -> Option<Span>
    requires { answers.old.automaton.variables ≡ 1 }
    ensures automaton { answers.new.automaton ≡ answers.old.automaton }
    ensures text { answers.new.text ≡ answers.old.text }
    ensures span { MatchOption result (NoSpanLeft answers.old.automaton answers.old.text answers.old.after)
        (λ q. IsFirstMember answers.old.automaton answers.old.text answers.old.after (Some q ∷ [])) }
    ensures index { IsSpanOr result }
    ensures cost { looks.new ≤ looks.old + looks_limit 1 (length answers.old.text) }
{
    match answers.next(looks) {
        Some(tuple) => tuple.span(0),
        None => None,
    }
}

// The longest of the answers with the start of the first one that is left, if this is a span.
fn longest_left<L: Ledger>(answers: &mut Answers<'_>, looks: &mut Steps<L>) -> Option<Span>
    requires one { answers.old.automaton.variables ≡ 1 }
    requires short { length answers.old.text ≤ 281474976710656 }
    ensures automaton { answers.new.automaton ≡ answers.old.automaton }
    ensures text { answers.new.text ≡ answers.old.text }
    ensures span { MatchOption result (NoSpanLeft answers.old.automaton answers.old.text answers.old.after)
        (IsLongestLeft answers.old.automaton answers.old.text answers.old.after) }
    ensures index { IsSpanOr result }
    ensures cost { looks.new ≤ looks.old + 2 * looks_limit 1 (length answers.old.text) }
{
    let first = next_span(answers, looks)?;
    let end = answers.last_end(first.start, looks);
    Some(Span {
        start: first.start,
        end,
    })
}
