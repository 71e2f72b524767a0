//! Automata with their edges and ends as lists.

ghost use Rattle.std.specs.Prelude.{◌≡◌, IfOk};

use span_types::{ByteSet, NoMemory};
use std::alloc::Global;
use std::marker::Model;

/// A step from one state to another: it reads a mark and then one of the letters.
///
/// The three numbers are next to each other, so that an edge takes 40 bytes.
#[derive(Clone, Copy)]
pub struct Edge {
    pub from: u16,
    pub mark: u16,
    pub to: u16,
    pub letters: ByteSet,
}

/// A state in which a text may end, with the last mark.
///
/// During the construction it is also an occurrence of a byte set, with the mark before or after it.
#[derive(Clone, Copy, Debug, PartialEq, Eq, PartialOrd, Ord)]
pub struct End {
    pub state: u16,
    pub mark: u16,
}

/// An automaton over marked texts. At each position it reads a mark and then a byte, and after the last byte a mark
/// alone (the extended automata of Florenzano et al., PODS 2018).
///
/// A mark is the sum of 4^v for each variable v whose span starts here, and of 2·4^v for each whose span ends here.
/// State 0 is the start. Each text that the automaton accepts has the marks of a tuple of its variables.
#[derive(Drop)]
pub struct Nfa {
    states: u16,
    variables: u8,
    edges: Vec<Edge>,
    ends: Vec<End>,

    // Among these are the byte sets of all edges.
    letters: Vec<ByteSet>,
}

impl Model for Nfa {
    ghost use Rattle.marker_nfa.specs.Automaton.{Automaton, AreLettersOf, IsAutomaton};

    ghost Value = { Automaton };

    ghost view = { λ a. record { states = a.states; variables = a.variables; edges = a.edges.items; ends = a.ends.items } };

    ghost invariant = { λ a. IsAutomaton (record { states = a.states; variables = a.variables; edges = a.edges.items; ends = a.ends.items }) × AreLettersOf a.edges.items a.letters.items };
}

impl Nfa {
    ghost use Rattle.marker_nfa.specs.Automaton.{AreLettersOf, IsAutomaton};

    /// The automaton with these parts.
    ///
    /// # Errors
    ///
    /// `NoMemory` if allocation fails.
    pub fn of_parts(
        alloc: Global,
        states: u16,
        variables: u8,
        edges: &[Edge],
        ends: &[End],
    ) -> Result<Nfa, NoMemory>
        requires { IsAutomaton (record { states = states; variables = variables; edges = edges.now; ends = ends.now }) }
        ensures { IfOk result (λ a. a ≡ record { states = states; variables = variables; edges = edges.now; ends = ends.now }) }
    {
        let letters = edges.iter().map(|edge| edge.letters).collect(alloc)?;
        let edges = edges.to_vec(alloc)?;
        let ends = ends.to_vec(alloc)?;
        Ok(Nfa::from_lists(states, variables, edges, ends, letters))
    }

    /// The automaton that takes over these parts, with byte sets among which are those of all edges. Nothing is copied.
    pub fn from_lists(
        states: u16,
        variables: u8,
        edges: Vec<Edge>,
        ends: Vec<End>,
        letters: Vec<ByteSet>,
    ) -> Nfa
        requires automaton { IsAutomaton (record { states = states; variables = variables; edges = edges.items; ends = ends.items }) }
        requires letters { AreLettersOf edges.items letters.items }
        ensures { result ≡ record { states = states; variables = variables; edges = edges.items; ends = ends.items } }
    {
        Nfa {
            states,
            variables,
            edges,
            ends,
            letters,
        }
    }

    /// The number of states, at least 1.
    pub fn states(&self) -> u16
        ensures value { result ≡ self.now.states }
        ensures automaton { IsAutomaton self.now }
    {
        self.states
    }

    /// The number of variables, at most 8.
    pub fn variables(&self) -> u8
        ensures value { result ≡ self.now.variables }
        ensures automaton { IsAutomaton self.now }
    {
        self.variables
    }

    /// The edges, in no particular order.
    pub fn edges(&self) -> &[Edge]
        ensures { result.now ≡ self.now.edges }
    {
        &self.edges
    }

    /// Byte sets among which are those of all edges. A formula's automaton has one for each of its states after the
    /// start.
    pub fn letters(&self) -> &[ByteSet]
        ensures { AreLettersOf self.now.edges result.now }
    {
        &self.letters
    }

    /// The ends, in no particular order.
    pub fn ends(&self) -> &[End]
        ensures { result.now ≡ self.now.ends }
    {
        &self.ends
    }
}
