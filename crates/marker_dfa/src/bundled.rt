//! Automata with their edges in bundles.

ghost use Rattle.marker_dfa.specs.Bundled.{HaveSameParts, automaton_in};
ghost use Rattle.marker_dfa.specs.Making.{IsBundled};
ghost use Rattle.marker_nfa.specs.Automaton.{AreLettersOf, IsAutomaton};
ghost use Rattle.marker_nfa.specs.declared.nfa.Edge.{Edge};
ghost use Rattle.std.specs.Prelude.{◌↔◌, Contains, IfOk};

use crate::bundles::{Bundle, BundledEdges, put_in_order};
use marker_nfa::{End, Nfa};
use span_types::{ByteSet, NoMemory};
use std::alloc::Global;

/// An automaton with its edges in bundles, which are in descending order of their marks.
#[derive(Drop)]
pub struct BundledNfa {
    pub(crate) states: u16,
    pub(crate) variables: u8,
    pub(crate) bundles: Vec<Bundle>,
    pub(crate) ends: Vec<End>,

    // Among these are the byte sets of all edges.
    pub(crate) letters: Vec<ByteSet>,
}

impl BundledNfa {
    /// The automaton that takes over these parts, with byte sets among which are those of all edges. Nothing is copied.
    pub fn from_edges(
        states: u16,
        variables: u8,
        edges: BundledEdges,
        ends: Vec<End>,
        letters: Vec<ByteSet>,
    ) -> BundledNfa
        requires automaton { IsAutomaton (record { states = states; variables = variables; edges = edges; ends = ends.items }) }
        requires letters { AreLettersOf edges letters.items }
        ensures same { HaveSameParts (automaton_in result) (record { states = states; variables = variables; edges = edges; ends = ends.items }) }
        ensures bundled { IsBundled result }
    {
        let mut bundles = edges.into_bundles();
        put_in_order(&mut bundles);
        BundledNfa {
            states,
            variables,
            bundles,
            ends,
            letters,
        }
    }
}

/// The edges of an automaton, in bundles.
fn edges_of(alloc: Global, nfa: &Nfa) -> Result<BundledEdges, NoMemory>
    ensures { IfOk result (λ edges. (e : Edge) → Contains edges e ↔ Contains nfa.now.edges e) }
{
    let mut edges = BundledEdges::new(alloc);
    for edge in nfa.edges() {
        edges.push(edge)?;
    }
    Ok(edges)
}

/// A copy of an automaton, with its edges in bundles.
///
/// # Errors
///
/// `NoMemory` if allocation fails.
pub fn bundled(alloc: Global, nfa: &Nfa) -> Result<BundledNfa, NoMemory>
    ensures same { IfOk result (λ n. HaveSameParts (automaton_in n) nfa.now) }
    ensures bundled { IfOk result IsBundled }
{
    let states = nfa.states();
    let variables = nfa.variables();
    let edges = edges_of(alloc, nfa)?;
    let ends = nfa.ends().to_vec(alloc)?;
    let letters = nfa.letters().to_vec(alloc)?;
    Ok(BundledNfa::from_edges(states, variables, edges, ends, letters))
}
