//! The projection of an automaton.

ghost use Rattle.marker_dfa.specs.Bundled.{automaton_in};
ghost use Rattle.marker_dfa.specs.Deterministic.{IsAutomatonOf, states_of};
ghost use Rattle.marker_dfa.specs.Making.{IsBundled};
ghost use Rattle.marker_dfa.specs.Reached.{CountIsAbove};
ghost use Rattle.span_algebra.specs.Answers.{GivesProjection};
ghost use Rattle.span_algebra.specs.Making.{AreClasses, IsProjectNfa};
ghost use Rattle.span_algebra.specs.Refusals.{IsRefused};
ghost use Rattle.span_algebra.specs.TreeAutomaton.{ProjectEnd, ProjectStep};
ghost use Rattle.std.specs.Prelude.{◌≡◌, ◌≤◌, IfErr, IfOk, length};

use crate::classes::{Class, classes_of, sets_of};
use crate::copies::{OperandCopy, push_edges, push_ends};
use crate::determined::determined;
use crate::names::indices_of;
use crate::refusal::AlgebraRefusal;
use marker_dfa::{BundledEdges, BundledNfa, DEFAULT_MAX_STATES, Dfa};
use span_types::{NoMemory, Vars};
use std::alloc::Global;

/// The occurrences of a projection: the states of the source, whose marks lose the markers of the other variables.
fn project_nfa(
    alloc: Global,
    source: &Dfa,
    names: &Vars,
    keep: &Vars,
    classes: &[Class],
) -> Result<BundledNfa, NoMemory>
    requires names { length names.now ≡ source.now.variables }
    requires classes { AreClasses source.now classes.now }
    ensures made { IfOk result (λ n. IsProjectNfa source.now names.now keep.now (automaton_in n)) }
    ensures bundled { IfOk result IsBundled }
{
    let states = source.states();
    let variables = keep.count();
    let places = indices_of(alloc, keep, names)?;
    let copy = OperandCopy {
        dfa: source,
        places: &places,
        base: 0,
    };
    let mut edges = BundledEdges::new(alloc);
    push_edges(copy, classes, &mut edges)?;
    let mut ends = Vec::new(alloc);
    push_ends(copy, &mut ends)?;
    let letters = sets_of(alloc, classes)?;
    Ok(BundledNfa::from_edges(states, variables, edges, ends, letters))
}

/// The automaton of the restrictions of the answers to some variables, in the order of `keep`. Answers with equal
/// restrictions become one.
///
/// Its states are the reached sets of the source's states. It takes time proportional to the steps of the source, one
/// for each state, class of bytes and mark, and of the result.
///
/// # Errors
///
/// `TooManyStates` exactly if more than 128 states would be needed, and `NoMemory` if allocation fails.
pub fn project(
    alloc: Global,
    source: &Dfa,
    names: &Vars,
    keep: &Vars,
) -> Result<Dfa, AlgebraRefusal>
    requires { length names.now ≡ source.now.variables }
    ensures automaton { IfOk result (IsAutomatonOf (states_of source.now) (ProjectStep source.now names.now keep.now) (ProjectEnd source.now names.now keep.now)) }
    ensures answers { IfOk result (GivesProjection source.now names.now keep.now) }
    ensures few { IfOk result (λ _. CountIsAbove 128 (states_of source.now) (ProjectStep source.now names.now keep.now) → ⊥) }
    ensures refused { IfErr result (IsRefused (length keep.now) (CountIsAbove 128 (states_of source.now) (ProjectStep source.now names.now keep.now))) }
    ensures variables { length keep.now ≤ 8 }
{
    project_within(alloc, source, names, keep, DEFAULT_MAX_STATES)
}

/// The same as `project`, with a limit of `most` states, 128 to 1,024, in place of 128.
///
/// # Errors
///
/// `TooManyStates` exactly if more than `most` states would be needed, and `NoMemory` if allocation fails.
pub fn project_within(
    alloc: Global,
    source: &Dfa,
    names: &Vars,
    keep: &Vars,
    most: u16,
) -> Result<Dfa, AlgebraRefusal>
    requires names { length names.now ≡ source.now.variables }
    requires few { 128 ≤ most }
    requires many { most ≤ 1024 }
    ensures automaton { IfOk result (IsAutomatonOf (states_of source.now) (ProjectStep source.now names.now keep.now) (ProjectEnd source.now names.now keep.now)) }
    ensures answers { IfOk result (GivesProjection source.now names.now keep.now) }
    ensures few { IfOk result (λ _. CountIsAbove most (states_of source.now) (ProjectStep source.now names.now keep.now) → ⊥) }
    ensures refused { IfErr result (IsRefused (length keep.now) (CountIsAbove most (states_of source.now) (ProjectStep source.now names.now keep.now))) }
    ensures variables { length keep.now ≤ 8 }
{
    let states = source.states();
    let variables = keep.count();
    let classes = classes_of(alloc, source, source)?;
    let nfa = project_nfa(alloc, source, names, keep, &classes)?;
    determined(alloc, &nfa, most)
}
