//! The edges and ends of an operand's automaton, with renumbered states and variables.

ghost use Rattle.marker_dfa.specs.Deterministic.{states_of};
ghost use Rattle.marker_nfa.specs.Parts.{Adds};
ghost use Rattle.span_algebra.specs.Making.{CanCopy, IsCopiedEdge, IsCopiedEnd, IsEdgeAmong, IsEdgeBy, IsEdgeOf, IsEndOf};
ghost use Rattle.std.specs.Prelude.{◌≡◌, ℕ, ◌+◌, ◌<◌, IfOk, length};

use crate::classes::Class;
use crate::marks::mark_at;
use marker_dfa::{BundledEdges, Dfa};
use marker_nfa::{Edge, End};
use span_types::NoMemory;

/// A copy of an operand's automaton. `places` has for each variable of the operation its index in the operand, if it is
/// there. `base` is the number of the copy's first state.
#[derive(Clone, Copy)]
pub struct OperandCopy<'a> {
    pub dfa: &'a Dfa,
    pub places: &'a [Option<u8>],
    pub base: u16,
}

/// Appends the step of a state by a mark and the bytes of a class to a list, if there is one, as an edge from `from`.
fn push_edge(
    copy: OperandCopy<'_>,
    from: u16,
    state: u16,
    class: &Class,
    mark: u16,
    edges: &mut BundledEdges,
) -> Result<(), NoMemory>
    requires copy { CanCopy copy.places.now copy.base }
    requires state { state < states_of copy.dfa.now }
    ensures { IfOk result (λ _. Adds edges.old edges.new (IsEdgeBy copy.entry.dfa.now copy.entry.places.now from copy.entry.base state class.now mark)) }
{
    let states = copy.dfa.states();
    if let Some(next) = copy.dfa.next(state, mark, class.first) {
        edges.push(&Edge {
            from,
            mark: mark_at(copy.places, mark),
            letters: class.letters,
            to: copy.base + next,
        })?;
    }
    Ok(())
}

/// Appends the steps of a state by the bytes of a class to a list.
fn push_class(
    copy: OperandCopy<'_>,
    from: u16,
    state: u16,
    class: &Class,
    edges: &mut BundledEdges,
) -> Result<(), NoMemory>
    requires copy { CanCopy copy.places.now copy.base }
    requires state { state < states_of copy.dfa.now }
    ensures { IfOk result (λ _. Adds edges.old edges.new (IsEdgeOf copy.entry.dfa.now copy.entry.places.now from copy.entry.base state class.now)) }
{
    let states = copy.dfa.states();
    for mark in copy.dfa.marks(state, class.first) {
        push_edge(copy, from, state, class, *mark, edges)?;
    }
    Ok(())
}

/// Appends the steps of a state to a list.
fn push_state(
    copy: OperandCopy<'_>,
    from: u16,
    state: u16,
    classes: &[Class],
    edges: &mut BundledEdges,
) -> Result<(), NoMemory>
    requires copy { CanCopy copy.places.now copy.base }
    requires state { state < states_of copy.dfa.now }
    ensures { IfOk result (λ _. Adds edges.old edges.new (IsEdgeAmong copy.entry.dfa.now copy.entry.places.now from copy.entry.base state classes.now)) }
{
    for class in classes {
        push_class(copy, from, state, class, edges)?;
    }
    Ok(())
}

/// Appends the edges of a copy to a list: those of its states, which begin at `base`, and those of its start also
/// from state 0.
pub fn push_edges(
    copy: OperandCopy<'_>,
    classes: &[Class],
    edges: &mut BundledEdges,
) -> Result<(), NoMemory>
    requires { CanCopy copy.places.now copy.base }
    ensures { IfOk result (λ _. Adds edges.old edges.new (IsCopiedEdge copy.entry.dfa.now copy.entry.places.now copy.entry.base classes.now)) }
{
    for state in 0..copy.dfa.states() {
        push_state(copy, copy.base + state, state, classes, edges)?;
    }
    push_state(copy, 0, 0, classes, edges)
}

/// Appends the ends of a state to a list.
fn push_state_ends(
    copy: OperandCopy<'_>,
    from: u16,
    state: u16,
    ends: &mut Vec<End>,
) -> Result<(), NoMemory>
    requires copy { CanCopy copy.places.now copy.base }
    requires state { state < states_of copy.dfa.now }
    ensures { IfOk result (λ _. Adds ends.old.items ends.new.items (IsEndOf copy.entry.dfa.now copy.entry.places.now from state)) }
{
    for mark in copy.dfa.ends(state) {
        ends.push(End {
            state: from,
            mark: mark_at(copy.places, *mark),
        })?;
    }
    Ok(())
}

/// Appends the ends of a copy to a list, in the same way.
pub fn push_ends(copy: OperandCopy<'_>, ends: &mut Vec<End>) -> Result<(), NoMemory>
    requires { CanCopy copy.places.now copy.base }
    ensures { IfOk result (λ _. Adds ends.old.items ends.new.items (IsCopiedEnd copy.entry.dfa.now copy.entry.places.now copy.entry.base)) }
{
    for state in 0..copy.dfa.states() {
        push_state_ends(copy, copy.base + state, state, ends)?;
    }
    push_state_ends(copy, 0, 0, ends)
}
