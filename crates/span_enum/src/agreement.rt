//! How far runs of the automaton follow the marks of a tuple.
ghost use Rattle.marker_dfa.specs.Deterministic.{states_of};
ghost use Rattle.slp_model.specs.declared.Node.TheVariants.{Byte};
ghost use Rattle.span_enum.specs.Agreement.{IsAgreement, path_lookups};
ghost use Rattle.span_enum.specs.LastEnd.{HasStart, IsLastEnd};
ghost use Rattle.span_enum.specs.Letters.{reached};
ghost use Rattle.span_enum.specs.Sets.{can_reach_of};
ghost use Rattle.span_enum.specs.Trail.{IsEnumerationInput, IsAhead, height_at, text_at, whole_text};
ghost use Rattle.span_enum.specs.Tuples.{word_over};
ghost use Rattle.span_types.specs.Fibonacci.{looks_limit};
ghost use Rattle.span_types.specs.Places.{IsSpan};
ghost use Rattle.span_types.specs.Words.{mark_count};
ghost use Rattle.state_tables.specs.StateSet.{member};
ghost use Rattle.std.specs.Prelude.{◌≡◌, ℕ, ◌<◌, ◌≤◌, ◌+◌, ◌*◌, [], ◌∷◌, length, true, Some, MatchOption};

use crate::input::EnumerationInput;
use crate::sets::goals_between;
use crate::trail::Ahead;
use crate::walk::{is_marked_between, step_to_goal};
use node_store::Node;
use span_types::{Span, Steps, Tuple, mark_at};
use std::sync::ledger::Ledger;

/// How far runs over a text into a goal follow the marks of a tuple.
#[derive(Clone, Copy)]
pub(crate) enum Agreement {
    /// One of them follows all of the marks, into this state.
    Whole(u16),
    /// One of them follows the marks before the letter at this position, and none follows them over it.
    Until(u64),
}

/// The state after a node in which the tuple has no mark, if it is a goal.
fn pass_whole<const N: usize>(
    input: &EnumerationInput<'_, N>,
    here: &Ahead<'_, N>,
    p: u16,
    t: &Tuple,
) -> Option<u16>
    requires input { IsEnumerationInput input.now }
    requires is_ahead { IsAhead input.now here.now }
    requires state { p < states_of input.now.dfa.now }
    ensures { MatchOption result
        ((q : ℕ) → reached input.now.dfa.now p (word_over t.now here.now.at (text_at input.now here.now.id.index)) ≡ Some q → member here.now.goals q ≡ true
        → 0 < mark_count (word_over t.now here.now.at (text_at input.now here.now.id.index)))
        (λ q. (reached input.now.dfa.now p (word_over t.now here.now.at (text_at input.now here.now.id.index)) ≡ Some q) × (member here.now.goals q ≡ true)) }
{
    let _states = input.dfa.states();
    if is_marked_between(t, here.at, here.at + here.look.len) {
        return None;
    }
    match here.look.table.unmarked(p) {
        Some(q) => { if here.goals.holds(q) { Some(q) } else { None } }
        None => None,
    }
}

/// How far runs over a letter from `p` into a goal follow the tuple's mark there. There is such a run.
fn letter_agreement<const N: usize>(
    input: &EnumerationInput<'_, N>,
    here: &Ahead<'_, N>,
    p: u16,
    byte: u8,
    t: &Tuple,
) -> Agreement
    requires input { IsEnumerationInput input.now }
    requires is_ahead { IsAhead input.now here.now }
    requires byte { here.now.look.node ≡ Byte byte }
    requires state { p < states_of input.now.dfa.now }
    requires can { can_reach_of here.now.look.table.now p here.now.goals ≡ true }
    ensures { IsAgreement input.now.dfa.now p t.now here.now.at (text_at input.now here.now.id.index) here.now.goals result }
{
    let _states = input.dfa.states();
    match step_to_goal(input.dfa, p, byte, mark_at(t, here.at), &here.goals, 65536) {
        Some(q) => Agreement::Whole(q),
        None => Agreement::Until(here.at),
    }
}

/// How far runs over a node from `p` into one of its goals follow the marks of the tuple. There is such a run.
pub(crate) fn agreement_over<L: Ledger, const N: usize>(
    input: &EnumerationInput<'_, N>,
    here: &Ahead<'_, N>,
    p: u16,
    t: &Tuple,
    looks: &mut Steps<L>,
) -> Agreement
    requires input { IsEnumerationInput input.now }
    requires is_ahead { IsAhead input.now here.now }
    requires state { p < states_of input.now.dfa.now }
    requires can { can_reach_of here.now.look.table.now p here.now.goals ≡ true }
    ensures agreement { IsAgreement input.now.dfa.now p t.now here.now.at (text_at input.now here.now.id.index) here.now.goals result }
    ensures cost { looks.new ≤ looks.old + 2 * (height_at input.now here.now.id.index * mark_count (word_over t.now here.now.at (text_at input.now here.now.id.index)))
        + path_lookups result (height_at input.now here.now.id.index) }
{
    if let Some(q) = pass_whole(input, here, p, t) {
        return Agreement::Whole(q);
    }
    match here.look.node {
        Node::Byte(byte) => letter_agreement(input, here, p, byte, t),
        Node::Pair(l, r) => {
            let left = input.view.look(l, looks);
            let right = input.view.look(r, looks);
            let between = goals_between(input.dfa, here, left.table, right.table, p);
            let first = Ahead {
                id: l,
                look: left,
                goals: between.goals,
                quiet: between.quiet,
                ..*here
            };
            match agreement_over(input, &first, p, t, looks) {
                Agreement::Whole(q) => {
                    let second = Ahead {
                        id: r,
                        look: right,
                        at: here.at + left.len,
                        ..*here
                    };
                    agreement_over(input, &second, q, t, looks)
                }
                Agreement::Until(position) => Agreement::Until(position),
            }
        }
    }
}

/// The greatest position in a text.
const LAST: u64 = 281474976710657;

/// The tuple of a span that starts at this position and never ends in a text, but at the end of the longest one.
fn opened(start: u64) -> Tuple
    requires positive { 1 ≤ start }
    requires small { start ≤ 281474976710657 }
    ensures { result ≡ Some (record { start = start; end = 281474976710657 }) ∷ [] }
{
    Tuple::none(1).with_span(0, Some(Span { start, end: LAST }))
}

/// The greatest end of the answers of one variable whose span starts at this position.
pub(crate) fn last_end_from<L: Ledger, const N: usize>(
    input: &EnumerationInput<'_, N>,
    end: u64,
    start: u64,
    looks: &mut Steps<L>,
) -> u64
    requires input { IsEnumerationInput input.now }
    requires end { end ≡ length (whole_text input.now) + 1 }
    requires low { end ≤ 281474976710657 }
    requires one { input.now.dfa.now.variables ≡ 1 }
    requires some { HasStart input.now.dfa.now (whole_text input.now) start }
    ensures end { IsLastEnd input.now.dfa.now (whole_text input.now) start result }
    ensures cost { looks.new ≤ looks.old + looks_limit 1 (length (whole_text input.now)) }
{
    match input.root {
        None => end,
        Some(id) => {
            let look = input.view.look(id, looks);
            let whole = Ahead {
                id,
                look,
                at: 1,
                goals: input.finals,
                quiet: input.quiet,
                next: 0,
            };
            match agreement_over(input, &whole, 0, &opened(start), looks) {
                Agreement::Whole(_) => end,
                Agreement::Until(position) => position,
            }
        }
    }
}
