//! The marks at the end of a text.
ghost use Rattle.marker_dfa.specs.Deterministic.{states_of};
ghost use Rattle.span_enum.specs.Ends.{AcceptsEnd};
ghost use Rattle.span_enum.specs.Letters.{step_of};
ghost use Rattle.span_enum.specs.Quiet.{EndsQuietly, AreQuietFinals};
ghost use Rattle.span_enum.specs.Tuples.{EndsPast, end_mark, reaches};
ghost use Rattle.span_enum.specs.Words.{IsNoMark, IsGreatestMark};
ghost use Rattle.std.specs.Prelude.{◌≡◌, true, ℕ, ◌+◌, ◌<◌, ◌≤◌, ◌*◌, ◌^◌, IsTrue, ◌↔◌, MatchOption, Some, IfSome};

use crate::states::States;
use marker_dfa::Dfa;
use span_types::{Span, Tuple, mark_at};

/// The greatest mark below the limit with which a text may end in the state.
pub(crate) fn greatest_end(dfa: &Dfa, q: u16, limit: u32) -> Option<u16>
    requires { q < states_of dfa.now }
    ensures { MatchOption result ((m : ℕ) → IsNoMark dfa.now q 256 1 limit m) (λ m. IsGreatestMark dfa.now q 256 1 limit m 0) }
{
    let _states = dfa.states();
    for mark in dfa.ends(q) {
        if (*mark as u32) < limit {
            return Some(*mark);
        }
    }
    None
}

/// Whether a text may end in the state, and only without a mark, so that the greatest mark is none.
fn ends_quietly(dfa: &Dfa, q: u16) -> bool
    requires { q < states_of dfa.now }
    ensures { result ≡ true → EndsQuietly dfa.now q }
{
    match greatest_end(dfa, q, 65536) {
        Some(mark) => mark == 0,
        None => false,
    }
}

/// The states in which a text may end, and only without a mark.
pub(crate) fn quiet_finals<const N: usize>(dfa: &Dfa) -> States<N>
    requires wide { states_of dfa.now ≤ 64 * N }
    requires narrow { N ≤ 16 }
    ensures { AreQuietFinals dfa.now result }
{
    let mut set = States::none();
    for q in 0..dfa.states() {
        set.include(q, ends_quietly(dfa, q));
    }
    set
}

/// Whether a span of the tuple ends at the position or past it.
fn is_past(t: &Tuple, from: u64) -> bool
    ensures { result ≡ reaches from t.now }
{
    for v in 0..t.count() {
        if ends_past(t.span(v), from) {
            return true;
        }
    }
    false
}

/// Whether the span ends at the position or past it.
fn ends_past(span: Option<Span>, from: u64) -> bool
    ensures { IsTrue result ↔ EndsPast span from }
{
    match span {
        Some(span) => from <= span.end,
        None => false,
    }
}

/// The mark of the tuple at the end of a text, plus 1 if the tuple has a bound past the end: then the answer that
/// agrees with the tuple up to the end comes after it.
pub(crate) fn end_limit(t: &Tuple, end: u64) -> u32
    requires { end < 2 ^ 60 }
    ensures { result ≡ end_mark t.now end }
{
    let mark = mark_at(t, end) as u32;
    if is_past(t, end + 1) { mark + 1 } else { mark }
}

/// Whether a text may end in the state with the mark.
fn may_end(dfa: &Dfa, q: u16, mark: u16) -> bool
    requires { q < states_of dfa.now }
    ensures { IsTrue result ↔ (step_of dfa.now q mark 256 ≡ Some 0) }
{
    let _states = dfa.states();
    for end in dfa.ends(q) {
        if *end == mark {
            return true;
        }
    }
    false
}

/// Whether the text may end in the state with the tuple's mark, and the tuple has no bound past the end.
pub(crate) fn accepts_end(dfa: &Dfa, state: Option<u16>, tuple: &Tuple, end: u64) -> bool
    requires state { IfSome state (λ q. q < states_of dfa.now) }
    requires low { end < 2 ^ 60 }
    ensures { IsTrue result ↔ AcceptsEnd dfa.now state tuple.now end }
{
    match state {
        Some(q) => {
            let fits = may_end(dfa, q, mark_at(tuple, end));
            let past = is_past(tuple, end + 1);
            fits && !past
        }
        None => false,
    }
}
