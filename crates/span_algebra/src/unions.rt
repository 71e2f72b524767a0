//! The union of two automata.

ghost use Rattle.marker_dfa.specs.Bundled.{automaton_in};
ghost use Rattle.marker_dfa.specs.Deterministic.{IsAutomatonOf};
ghost use Rattle.marker_dfa.specs.Making.{IsBundled};
ghost use Rattle.marker_dfa.specs.Reached.{CountIsAbove};
ghost use Rattle.span_algebra.specs.Answers.{GivesUnion};
ghost use Rattle.span_algebra.specs.Making.{AreClasses, IsUnionNfa};
ghost use Rattle.span_algebra.specs.Refusals.{IsRefused};
ghost use Rattle.span_algebra.specs.Renaming.{both_names};
ghost use Rattle.span_algebra.specs.TreeAutomaton.{UnionEnd, UnionStep, union_size};
ghost use Rattle.std.specs.Prelude.{◌≡◌, ◌≤◌, IfErr, IfOk, length};

use crate::classes::{Class, classes_of, sets_of};
use crate::copies::{OperandCopy, push_edges, push_ends};
use crate::determined::determined;
use crate::names::{Operand, indices_of, names_of_both};
use crate::refusal::AlgebraRefusal;
use marker_dfa::{BundledEdges, BundledNfa, DEFAULT_MAX_STATES, Dfa};
use span_types::{NoMemory, Vars};
use std::alloc::Global;

/// The occurrences of a union: the start, the states of the left and the states of the right.
fn union_nfa(
    alloc: Global,
    left: Operand<'_>,
    right: Operand<'_>,
    names: &Vars,
    classes: &[Class],
) -> Result<BundledNfa, NoMemory>
    requires left { length left.names.now ≡ left.dfa.now.variables }
    requires right { length right.names.now ≡ right.dfa.now.variables }
    requires names { names.now ≡ both_names left.names.now right.names.now }
    requires of_left { AreClasses left.dfa.now classes.now }
    requires of_right { AreClasses right.dfa.now classes.now }
    ensures made { IfOk result (λ n. IsUnionNfa left.entry.dfa.now left.entry.names.now right.entry.dfa.now right.entry.names.now (automaton_in n)) }
    ensures bundled { IfOk result IsBundled }
{
    let left_states = left.dfa.states();
    let right_states = right.dfa.states();
    let variables = names.count();
    let left_places = indices_of(alloc, names, left.names)?;
    let right_places = indices_of(alloc, names, right.names)?;
    let base = 1 + left_states;
    let left_copy = OperandCopy {
        dfa: left.dfa,
        places: &left_places,
        base: 1,
    };
    let right_copy = OperandCopy {
        dfa: right.dfa,
        places: &right_places,
        base,
    };
    let mut edges = BundledEdges::new(alloc);
    push_edges(left_copy, classes, &mut edges)?;
    push_edges(right_copy, classes, &mut edges)?;
    let mut ends = Vec::new(alloc);
    push_ends(left_copy, &mut ends)?;
    push_ends(right_copy, &mut ends)?;
    let letters = sets_of(alloc, classes)?;
    Ok(BundledNfa::from_edges(base + right_states, variables, edges, ends, letters))
}

/// The automaton of a union, whose variables have these names, with at most `most` states.
fn union_dfa(
    alloc: Global,
    left: Operand<'_>,
    right: Operand<'_>,
    names: &Vars,
    most: u16,
) -> Result<Dfa, AlgebraRefusal>
    requires left { length left.names.now ≡ left.dfa.now.variables }
    requires right { length right.names.now ≡ right.dfa.now.variables }
    requires names { names.now ≡ both_names left.names.now right.names.now }
    requires few { 128 ≤ most }
    requires many { most ≤ 1024 }
    ensures automaton { IfOk result (IsAutomatonOf (union_size left.entry.dfa.now right.entry.dfa.now) (UnionStep left.entry.dfa.now left.entry.names.now right.entry.dfa.now right.entry.names.now) (UnionEnd left.entry.dfa.now left.entry.names.now right.entry.dfa.now right.entry.names.now)) }
    ensures answers { IfOk result (GivesUnion left.entry.dfa.now left.entry.names.now right.entry.dfa.now right.entry.names.now (both_names left.entry.names.now right.entry.names.now)) }
    ensures few { IfOk result (λ _. CountIsAbove most (union_size left.entry.dfa.now right.entry.dfa.now) (UnionStep left.entry.dfa.now left.entry.names.now right.entry.dfa.now right.entry.names.now) → ⊥) }
    ensures refused { IfErr result (IsRefused (length (both_names left.entry.names.now right.entry.names.now)) (CountIsAbove most (union_size left.entry.dfa.now right.entry.dfa.now) (UnionStep left.entry.dfa.now left.entry.names.now right.entry.dfa.now right.entry.names.now))) }
{
    let left_states = left.dfa.states();
    let right_states = right.dfa.states();
    let variables = names.count();
    let classes = classes_of(alloc, left.dfa, right.dfa)?;
    let nfa = union_nfa(alloc, left, right, names, &classes)?;
    determined(alloc, &nfa, most)
}

/// The automaton of the answers of either side, and its variables: those of the left, then those of the right that the
/// left lacks. A variable that an answer's side lacks has no span.
///
/// Its states are the reached sets of occurrences, which are the start and the states of both. It takes time
/// proportional to the steps of both, one for each state, class of bytes and mark.
///
/// # Errors
///
/// `TooManyVariables` exactly if there are more than eight variables. `TooManyStates` exactly if there aren't and more
/// than 128 states would be needed. `NoMemory` if allocation fails.
pub fn union(
    alloc: Global,
    left: &Dfa,
    left_names: &Vars,
    right: &Dfa,
    right_names: &Vars,
) -> Result<(Dfa, Vars), AlgebraRefusal>
    requires left { length left_names.now ≡ left.now.variables }
    requires right { length right_names.now ≡ right.now.variables }
    ensures names { IfOk result (λ r. r.1 ≡ both_names left_names.now right_names.now) }
    ensures automaton { IfOk result (λ r. IsAutomatonOf (union_size left.now right.now) (UnionStep left.now left_names.now right.now right_names.now) (UnionEnd left.now left_names.now right.now right_names.now) r.0) }
    ensures answers { IfOk result (λ r. GivesUnion left.now left_names.now right.now right_names.now r.1 r.0) }
    ensures few { IfOk result (λ _. CountIsAbove 128 (union_size left.now right.now) (UnionStep left.now left_names.now right.now right_names.now) → ⊥) }
    ensures refused { IfErr result (IsRefused (length (both_names left_names.now right_names.now)) (CountIsAbove 128 (union_size left.now right.now) (UnionStep left.now left_names.now right.now right_names.now))) }
{
    union_within(
        alloc,
        left,
        left_names,
        right,
        right_names,
        DEFAULT_MAX_STATES,
    )
}

/// The same as `union`, with a limit of `most` states, 128 to 1,024, in place of 128.
///
/// # Errors
///
/// `TooManyVariables` exactly if there are more than eight variables. `TooManyStates` exactly if there aren't and more
/// than `most` states would be needed. `NoMemory` if allocation fails.
pub fn union_within(
    alloc: Global,
    left: &Dfa,
    left_names: &Vars,
    right: &Dfa,
    right_names: &Vars,
    most: u16,
) -> Result<(Dfa, Vars), AlgebraRefusal>
    requires left { length left_names.now ≡ left.now.variables }
    requires right { length right_names.now ≡ right.now.variables }
    requires few { 128 ≤ most }
    requires many { most ≤ 1024 }
    ensures names { IfOk result (λ r. r.1 ≡ both_names left_names.now right_names.now) }
    ensures automaton { IfOk result (λ r. IsAutomatonOf (union_size left.now right.now) (UnionStep left.now left_names.now right.now right_names.now) (UnionEnd left.now left_names.now right.now right_names.now) r.0) }
    ensures answers { IfOk result (λ r. GivesUnion left.now left_names.now right.now right_names.now r.1 r.0) }
    ensures few { IfOk result (λ _. CountIsAbove most (union_size left.now right.now) (UnionStep left.now left_names.now right.now right_names.now) → ⊥) }
    ensures refused { IfErr result (IsRefused (length (both_names left_names.now right_names.now)) (CountIsAbove most (union_size left.now right.now) (UnionStep left.now left_names.now right.now right_names.now))) }
{
    let names = names_of_both(alloc, left_names, right_names)?;
    let left = Operand {
        dfa: left,
        names: left_names,
    };
    let right = Operand {
        dfa: right,
        names: right_names,
    };
    let dfa = union_dfa(alloc, left, right, &names, most)?;
    Ok((dfa, names))
}
