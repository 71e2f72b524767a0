//! Automata with at most one next state for each mark and byte.

ghost use Rattle.marker_dfa.specs.Deterministic.{AreAlike, DeterministicAutomaton, IsDeterministic, IsWide, cell_of, ends_of, find_target, marks_of, next_of, states_of};
ghost use Rattle.std.specs.Prelude.{◌≡◌, ◌<◌, ◌+◌, ℕ, AllPairs, Option, Some, slice_get};

use std::marker::Model;

/// The marks with a next state, descending, and that state for each.
#[derive(Drop)]
pub struct Cell {
    pub(crate) marks: Vec<u16>,
    pub(crate) targets: Vec<u16>,
}

impl Cell {
    /// The next state for a mark.
    fn target(&self, mark: u16) -> Option<u16>
        requires { AllPairs (λ x y. y < x) self.now.marks.items }
        ensures { result ≡ find_target self.now.marks.items self.now.targets.items mark }
    {
        match self.marks.binary_search_by(|other| mark.cmp(other)) {
            Ok(index) => self.targets.get(index).copied(),
            Err(_) => None,
        }
    }
}

/// What follows a state, for each class of bytes, and the marks with which a text may end.
#[derive(Drop)]
pub struct Row {
    pub(crate) cells: Vec<Cell>,
    pub(crate) ends: Vec<u16>,
}

/// A deterministic automaton over marked texts. At each position it reads a mark and then a byte, and after the last
/// byte a mark alone. State 0 is the start. Each text that it accepts has the marks of a tuple of its variables.
///
/// Bytes that it never distinguishes share a class, and a state has one list of marks for each class.
#[derive(Drop)]
pub struct Dfa {
    variables: u8,
    classes: Vec<u8>,
    rows: Vec<Row>,
}

impl Model for Dfa {
    ghost use Rattle.marker_dfa.specs.Deterministic.{DeterministicAutomaton, IsDeterministic, IsWide};

    ghost Value = { DeterministicAutomaton };

    ghost view = { λ a. record { variables = a.variables; classes = a.classes.items; rows = a.rows.items } };

    ghost invariant = { λ a. IsDeterministic (record { variables = a.variables; classes = a.classes.items; rows = a.rows.items }) × IsWide (record { variables = a.variables; classes = a.classes.items; rows = a.rows.items }) };
}

impl Dfa {
    /// The automaton with these rows.
    pub(crate) fn from_rows(variables: u8, classes: Vec<u8>, rows: Vec<Row>) -> Dfa
        requires deterministic { IsDeterministic (record { variables = variables; classes = classes.items; rows = rows.items }) }
        requires wide { IsWide (record { variables = variables; classes = classes.items; rows = rows.items }) }
        ensures { result ≡ record { variables = variables; classes = classes.items; rows = rows.items } }
    {
        Dfa {
            variables,
            classes,
            rows,
        }
    }

    /// The number of states, 1 to 1,024.
    pub fn states(&self) -> u16
        ensures value { result ≡ states_of self.now }
        ensures automaton { IsDeterministic self.now }
    {
        self.rows.len() as u16
    }

    /// The number of variables, at most 8.
    pub fn variables(&self) -> u8
        ensures value { result ≡ self.now.variables }
        ensures automaton { IsDeterministic self.now }
    {
        self.variables
    }

    /// The state after a mark and a byte, if there is one. Takes O(log m) steps, where m is the number of marks that
    /// have a next state there.
    pub fn next(&self, state: u16, mark: u16, byte: u8) -> Option<u16>
        requires { state < states_of self.now }
        ensures { result ≡ next_of self.now state mark byte }
    {
        self.cell(state, byte).target(mark)
    }

    /// The marks that have a next state from a state with a byte, descending.
    pub fn marks(&self, state: u16, byte: u8) -> &[u16]
        requires { state < states_of self.now }
        ensures { result.now ≡ marks_of self.now state byte }
    {
        &self.cell(state, byte).marks
    }

    /// The marks with which a text may end in a state, descending.
    pub fn ends(&self, state: u16) -> &[u16]
        requires { state < states_of self.now }
        ensures { result.now ≡ ends_of self.now state }
    {
        &self.rows[state as usize].ends
    }

    /// The class of a byte. Bytes of one class lead from each state to the same states, with the same marks.
    pub fn class(&self, byte: u8) -> u8
        ensures value { slice_get self.now.classes byte ≡ Some result }
        ensures alike { (other : ℕ) → slice_get self.now.classes other ≡ Some result → AreAlike self.now byte other }
    {
        self.classes[byte as usize]
    }

    /// The row of each state.
    pub(crate) fn rows(&self) -> &[Row]
        ensures value { result.now ≡ self.now.rows }
        ensures automaton { IsDeterministic self.now }
        ensures wide { IsWide self.now }
    {
        &self.rows
    }

    /// The class of each byte.
    pub(crate) fn classes(&self) -> &[u8]
        ensures value { result.now ≡ self.now.classes }
        ensures wide { IsWide self.now }
    {
        &self.classes
    }

    /// The cell of a state and a byte.
    fn cell(&self, state: u16, byte: u8) -> &Cell
        requires { state < states_of self.now }
        ensures value { cell_of self.now state byte ≡ Some result.now }
        ensures automaton { IsDeterministic self.now }
    {
        &self.rows[state as usize].cells[self.class(byte) as usize]
    }
}
