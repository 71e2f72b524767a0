//! The natural join of two automata.

ghost use Rattle.marker_dfa.specs.Bundled.{automaton_in};
ghost use Rattle.marker_dfa.specs.Deterministic.{IsAutomatonOf};
ghost use Rattle.marker_dfa.specs.Making.{IsBundled};
ghost use Rattle.marker_dfa.specs.Reached.{CountIsAbove};
ghost use Rattle.span_algebra.specs.Answers.{GivesJoin};
ghost use Rattle.span_algebra.specs.Making.{AreClasses};
ghost use Rattle.span_algebra.specs.Products.{IsJoinNfa};
ghost use Rattle.span_algebra.specs.Refusals.{IsRefused};
ghost use Rattle.span_algebra.specs.Renaming.{both_names};
ghost use Rattle.span_algebra.specs.TreeAutomaton.{JoinEnd, JoinStep, join_size};
ghost use Rattle.std.specs.Prelude.{◌≡◌, ◌≤◌, IfErr, IfOk, length};

use crate::classes::{Class, classes_of, sets_of};
use crate::determined::determined;
use crate::exploring::explore;
use crate::joints::meeting_of;
use crate::names::{Operand, names_of_both};
use crate::product::{Sides, ends_of};
use crate::refusal::AlgebraRefusal;
use marker_dfa::{BundledNfa, DEFAULT_MAX_STATES, Dfa};
use span_types::Vars;
use std::alloc::Global;

/// The occurrences of a join that are reached, at most `most`: pairs of a left and a right state, each by its index.
fn join_nfa(
    alloc: Global,
    left: Operand<'_>,
    right: Operand<'_>,
    names: &Vars,
    classes: &[Class],
    most: u16,
) -> Result<BundledNfa, AlgebraRefusal>
    requires left { length left.names.now ≡ left.dfa.now.variables }
    requires right { length right.names.now ≡ right.dfa.now.variables }
    requires names { names.now ≡ both_names left.names.now right.names.now }
    requires of_left { AreClasses left.dfa.now classes.now }
    requires of_right { AreClasses right.dfa.now classes.now }
    requires few { 128 ≤ most }
    requires many { most ≤ 1024 }
    ensures made { IfOk result (λ n. IsJoinNfa left.entry.dfa.now left.entry.names.now right.entry.dfa.now right.entry.names.now (automaton_in n)) }
    ensures bundled { IfOk result IsBundled }
    ensures refused { IfErr result (IsRefused 0 (CountIsAbove most (join_size left.entry.dfa.now) (JoinStep left.entry.dfa.now left.entry.names.now right.entry.dfa.now right.entry.names.now))) }
{
    let left_states = left.dfa.states();
    let right_states = right.dfa.states();
    let left_count = left.names.count();
    let right_count = right.names.count();
    let variables = names.count();
    let meeting = meeting_of(alloc, left.names, right.names, names)?;
    let explored = explore(alloc, left, right, names, classes, most)?;
    let sides = Sides {
        left: left.dfa,
        right: right.dfa,
        meeting: &meeting,
    };
    let ends = ends_of(alloc, sides, &explored.pairs)?;
    let states = explored.pairs.len() as u16;
    let letters = sets_of(alloc, classes)?;
    Ok(BundledNfa::from_edges(states, variables, explored.edges, ends, letters))
}

/// The automaton of a join, whose variables have these names, with at most `most` states.
fn join_dfa(
    alloc: Global,
    left: Operand<'_>,
    right: Operand<'_>,
    names: &Vars,
    most: u16,
) -> Result<Dfa, AlgebraRefusal>
    requires left { length left.names.now ≡ left.dfa.now.variables }
    requires right { length right.names.now ≡ right.dfa.now.variables }
    requires names { names.now ≡ both_names left.names.now right.names.now }
    requires few { 128 ≤ most }
    requires many { most ≤ 1024 }
    ensures automaton { IfOk result (IsAutomatonOf (join_size left.entry.dfa.now) (JoinStep left.entry.dfa.now left.entry.names.now right.entry.dfa.now right.entry.names.now) (JoinEnd left.entry.dfa.now left.entry.names.now right.entry.dfa.now right.entry.names.now)) }
    ensures answers { IfOk result (GivesJoin left.entry.dfa.now left.entry.names.now right.entry.dfa.now right.entry.names.now (both_names left.entry.names.now right.entry.names.now)) }
    ensures few { IfOk result (λ _. CountIsAbove most (join_size left.entry.dfa.now) (JoinStep left.entry.dfa.now left.entry.names.now right.entry.dfa.now right.entry.names.now) → ⊥) }
    ensures refused { IfErr result (IsRefused (length (both_names left.entry.names.now right.entry.names.now)) (CountIsAbove most (join_size left.entry.dfa.now) (JoinStep left.entry.dfa.now left.entry.names.now right.entry.dfa.now right.entry.names.now))) }
{
    let left_states = left.dfa.states();
    let right_states = right.dfa.states();
    let left_count = left.names.count();
    let right_count = right.names.count();
    let count = names.count();
    let classes = classes_of(alloc, left.dfa, right.dfa)?;
    let nfa = join_nfa(alloc, left, right, names, &classes, most)?;
    determined(alloc, &nfa, most)
}

/// The automaton of the unions of an answer of each side, if the two agree on every variable of both, and its
/// variables: those of the left, then those of the right that the left lacks. A variable without a span agrees only
/// with one without a span.
///
/// Its states are the reached sets of pairs of a left and a right state. Each such set has one pair. It takes time
/// proportional to the steps of these pairs: for each pair and class of bytes, one for each two marks of its states.
///
/// # Errors
///
/// `TooManyVariables` exactly if there are more than eight variables. `TooManyStates` exactly if there aren't and more
/// than 128 states would be needed. `NoMemory` if allocation fails.
pub fn join(
    alloc: Global,
    left: &Dfa,
    left_names: &Vars,
    right: &Dfa,
    right_names: &Vars,
) -> Result<(Dfa, Vars), AlgebraRefusal>
    requires left { length left_names.now ≡ left.now.variables }
    requires right { length right_names.now ≡ right.now.variables }
    ensures names { IfOk result (λ r. r.1 ≡ both_names left_names.now right_names.now) }
    ensures automaton { IfOk result (λ r. IsAutomatonOf (join_size left.now) (JoinStep left.now left_names.now right.now right_names.now) (JoinEnd left.now left_names.now right.now right_names.now) r.0) }
    ensures answers { IfOk result (λ r. GivesJoin left.now left_names.now right.now right_names.now r.1 r.0) }
    ensures few { IfOk result (λ _. CountIsAbove 128 (join_size left.now) (JoinStep left.now left_names.now right.now right_names.now) → ⊥) }
    ensures refused { IfErr result (IsRefused (length (both_names left_names.now right_names.now)) (CountIsAbove 128 (join_size left.now) (JoinStep left.now left_names.now right.now right_names.now))) }
{
    join_within(
        alloc,
        left,
        left_names,
        right,
        right_names,
        DEFAULT_MAX_STATES,
    )
}

/// The same as `join`, with a limit of `most` states, 128 to 1,024, in place of 128.
///
/// # Errors
///
/// `TooManyVariables` exactly if there are more than eight variables. `TooManyStates` exactly if there aren't and more
/// than `most` states would be needed. `NoMemory` if allocation fails.
pub fn join_within(
    alloc: Global,
    left: &Dfa,
    left_names: &Vars,
    right: &Dfa,
    right_names: &Vars,
    most: u16,
) -> Result<(Dfa, Vars), AlgebraRefusal>
    requires left { length left_names.now ≡ left.now.variables }
    requires right { length right_names.now ≡ right.now.variables }
    requires few { 128 ≤ most }
    requires many { most ≤ 1024 }
    ensures names { IfOk result (λ r. r.1 ≡ both_names left_names.now right_names.now) }
    ensures automaton { IfOk result (λ r. IsAutomatonOf (join_size left.now) (JoinStep left.now left_names.now right.now right_names.now) (JoinEnd left.now left_names.now right.now right_names.now) r.0) }
    ensures answers { IfOk result (λ r. GivesJoin left.now left_names.now right.now right_names.now r.1 r.0) }
    ensures few { IfOk result (λ _. CountIsAbove most (join_size left.now) (JoinStep left.now left_names.now right.now right_names.now) → ⊥) }
    ensures refused { IfErr result (IsRefused (length (both_names left_names.now right_names.now)) (CountIsAbove most (join_size left.now) (JoinStep left.now left_names.now right.now right_names.now))) }
{
    let names = names_of_both(alloc, left_names, right_names)?;
    let left = Operand {
        dfa: left,
        names: left_names,
    };
    let right = Operand {
        dfa: right,
        names: right_names,
    };
    let dfa = join_dfa(alloc, left, right, &names, most)?;
    Ok((dfa, names))
}
