//! The answers of an automaton on a text.
ghost use Rattle.marker_dfa.specs.Deterministic.{states_of};
ghost use Rattle.slp_model.specs.Nodes.{text_of};
ghost use Rattle.span_enum.specs.Ends.{Accepted};
ghost use Rattle.span_enum.specs.LastEnd.{HasStart, IsLastEnd};
ghost use Rattle.span_enum.specs.Listing.{IsReady};
ghost use Rattle.span_enum.specs.Members.{IsMember, IsFirstMember, NoMemberLeft, HasMember};
ghost use Rattle.span_enum.specs.Width.{IsWidthFor};
ghost use Rattle.span_types.specs.Fibonacci.{looks_limit};
ghost use Rattle.state_tables.specs.Meaning.{IsTable};
ghost use Rattle.std.specs.Prelude.{◌≡◌, ℕ, ◌+◌, ◌*◌, ◌<◌, ◌≤◌, None, Some, List, length, IsTrue, ◌↔◌, MatchOption, IfOk};

use crate::ends::accepts_end;
use crate::enumeration::Enumeration;
use crate::walk::{Part, can_reach, final_states, state_over};
use marker_dfa::Dfa;
use node_store::NodeId;
use span_types::{NoMemory, Steps, Tuple};
use state_tables::{Table, View};
use std::alloc::Global;
use std::marker::Model;
use std::sync::ledger::Ledger;

/// A position in the list of the answers of an automaton on a text, in mark order: that of `start`, of `seek` or of the
/// last answer returned. Contracts see it as the automaton, the text and the cursor.
///
/// The answers are found in the tables of the text's nodes (M. L. Schmid and N. Schweikardt, Spanner evaluation over
/// SLP-compressed documents, PODS 2021), in mark order, a tuple at a time and without reading the text. The marks of
/// the last answer are kept with the nodes ahead of them. So the table lookups for a near next answer depend on its
/// distance and not on the height of the tree.
#[derive(Drop)]
pub struct Answers<'a> {
    enumeration: AnyEnumeration<'a>,
}

impl<'a> Model for Answers<'a> {
    ghost use Rattle.span_enum.specs.Listing.{Listing};

    ghost Value = { Listing };

    ghost use Rattle.span_enum.specs.AnswersView.{view_of};

    ghost view = { view_of };
}

/// An enumeration, by the width of its sets of states.
#[derive(Drop)]
enum AnyEnumeration<'a> {
    /// Of at most 64 states.
    One(Enumeration<'a, 1>),
    /// Of at most 128 states.
    Two(Enumeration<'a, 2>),
    /// Of at most 1,024 states.
    Sixteen(Enumeration<'a, 16>),
}

/// How many words a set of an automaton's states has.
enum Width {
    /// For at most 64 states.
    One,
    /// For at most 128 states.
    Two,
    /// For at most 1,024 states.
    Sixteen,
}

/// The least width for the automaton's states.
fn width_for(dfa: &Dfa) -> Width
    ensures { IsWidthFor result (states_of dfa.now) }
{
    let states = dfa.states();
    if states <= 64 {
        Width::One
    } else if states <= 128 {
        Width::Two
    } else {
        Width::Sixteen
    }
}

impl<'a> Answers<'a> {
    /// An iterator before the first answer. It makes at most one table lookup, and allocates the memory that `next`
    /// will need: for k variables 138·k + 1 nodes of two sets of states, of 8, 16 or 128 bytes each, and some 100 bytes
    /// more.
    ///
    /// The view's tables are those of the automaton, and the root is one of its nodes or none.
    ///
    /// # Errors
    ///
    /// `NoMemory` if allocation fails, for the marks of an answer and 69 nodes ahead of each.
    pub fn start<L: Ledger>(
        alloc: Global,
        view: View<'a>,
        dfa: &'a Dfa,
        root: Option<NodeId>,
        looks: &mut Steps<L>,
    ) -> Result<Answers<'a>, NoMemory>
        requires { IsReady dfa.now view.store.now view.tables.now root }
        ensures listing { IfOk result (λ a. a ≡ record { automaton = dfa.now; text = text_of view.entry.store.now root; after = None }) }
        ensures look { looks.new ≤ looks.old + 1 }
        ensures cost { looks.new ≤ looks.old + looks_limit dfa.now.variables (length (text_of view.entry.store.now root)) }
    {
        let enumeration = match width_for(dfa) {
            Width::One => AnyEnumeration::One(Enumeration::start(alloc, view, dfa, root, looks)?),
            Width::Two => AnyEnumeration::Two(Enumeration::start(alloc, view, dfa, root, looks)?),
            Width::Sixteen => {
                AnyEnumeration::Sixteen(Enumeration::start(alloc, view, dfa, root, looks)?)
            }
        };
        Ok(Answers { enumeration })
    }

    /// An iterator before the first answer that comes strictly after the tuple, which needn't be an answer and may lie
    /// outside the text. It follows the tuple's marks with at most 2·B(k, n) table lookups, and allocates the memory
    /// that `next` will need, as `start` does.
    ///
    /// # Errors
    ///
    /// `NoMemory` if allocation fails, for the marks of an answer and 69 nodes ahead of each.
    pub fn seek<L: Ledger>(
        alloc: Global,
        view: View<'a>,
        dfa: &'a Dfa,
        root: Option<NodeId>,
        after: &Tuple,
        looks: &mut Steps<L>,
    ) -> Result<Answers<'a>, NoMemory>
        requires ready { IsReady dfa.now view.store.now view.tables.now root }
        requires tuple { length after.now ≡ dfa.now.variables }
        ensures listing { IfOk result (λ a. a ≡ record { automaton = dfa.now; text = text_of view.entry.store.now root; after = Some after.now }) }
        ensures cost { looks.new ≤ looks.old + 2 * looks_limit dfa.now.variables (length (text_of view.entry.store.now root)) }
    {
        let enumeration = match width_for(dfa) {
            Width::One => {
                AnyEnumeration::One(Enumeration::seek(alloc, view, dfa, root, after, looks)?)
            }
            Width::Two => {
                AnyEnumeration::Two(Enumeration::seek(alloc, view, dfa, root, after, looks)?)
            }
            Width::Sixteen => {
                AnyEnumeration::Sixteen(Enumeration::seek(alloc, view, dfa, root, after, looks)?)
            }
        };
        Ok(Answers { enumeration })
    }

    /// Moves to before the first answer that comes strictly after the tuple, as `seek` does, and from any position. It
    /// allocates nothing, and makes at most 2·B(k, n) table lookups.
    pub fn reseek<L: Ledger>(&mut self, after: &Tuple, looks: &mut Steps<L>)
        requires { length after.now ≡ self.old.automaton.variables }
        ensures listing { self.new ≡ record self.old { after = Some after.now } }
        ensures cost { looks.new ≤ looks.old + 2 * looks_limit self.old.automaton.variables (length self.old.text) }
    {
        match &mut self.enumeration {
            AnyEnumeration::One(enumeration) => enumeration.reseek(after, looks),
            AnyEnumeration::Two(enumeration) => enumeration.reseek(after, looks),
            AnyEnumeration::Sixteen(enumeration) => enumeration.reseek(after, looks),
        }
    }

    /// The last answer returned. If there is none, the tuple of `seek`, and otherwise none.
    pub fn cursor(&self) -> Option<Tuple>
        ensures { result ≡ self.now.after }
    {
        match &self.enumeration {
            AnyEnumeration::One(enumeration) => enumeration.cursor(),
            AnyEnumeration::Two(enumeration) => enumeration.cursor(),
            AnyEnumeration::Sixteen(enumeration) => enumeration.cursor(),
        }
    }

    /// The greatest end of the answers whose span starts at this position, for an automaton of one variable. There is such
    /// an answer. It allocates nothing, and makes at most B(1, n) table lookups.
    pub fn last_end<L: Ledger>(&self, start: u64, looks: &mut Steps<L>) -> u64
        requires one { self.now.automaton.variables ≡ 1 }
        requires some { HasStart self.now.automaton self.now.text start }
        ensures end { IsLastEnd self.now.automaton self.now.text start result }
        ensures cost { looks.new ≤ looks.old + looks_limit 1 (length self.now.text) }
    {
        match &self.enumeration {
            AnyEnumeration::One(enumeration) => enumeration.last_end(start, looks),
            AnyEnumeration::Two(enumeration) => enumeration.last_end(start, looks),
            AnyEnumeration::Sixteen(enumeration) => enumeration.last_end(start, looks),
        }
    }

    /// The next answer. It allocates nothing. After `None` it always returns `None`.
    ///
    /// It makes at most B(k, n) table lookups, for k variables and a text of n bytes.
    pub fn next<L: Ledger>(&mut self, looks: &mut Steps<L>) -> Option<Tuple>
        ensures answer { MatchOption result (NoMemberLeft self.old.automaton self.old.text self.old.after)
            (IsFirstMember self.old.automaton self.old.text self.old.after) }
        ensures listing { MatchOption result (self.new ≡ self.old) (λ u. self.new ≡ record self.old { after = Some u }) }
        ensures cost { looks.new ≤ looks.old + looks_limit self.old.automaton.variables (length self.old.text) }
    {
        match &mut self.enumeration {
            AnyEnumeration::One(enumeration) => enumeration.next(looks),
            AnyEnumeration::Two(enumeration) => enumeration.next(looks),
            AnyEnumeration::Sixteen(enumeration) => enumeration.next(looks),
        }
    }
}

/// Whether there is an answer. It makes at most one table lookup and allocates nothing.
pub fn nonempty<L: Ledger>(
    view: View<'_>,
    dfa: &Dfa,
    root: Option<NodeId>,
    looks: &mut Steps<L>,
) -> bool
    requires { IsReady dfa.now view.store.now view.tables.now root }
    ensures some { IsTrue result ↔ HasMember dfa.now (text_of view.entry.store.now root) }
    ensures look { looks.new ≤ looks.old + 1 }
    ensures cost { looks.new ≤ looks.old + looks_limit dfa.now.variables (length (text_of view.entry.store.now root)) }
{
    let _states = dfa.states();
    match root {
        None => !dfa.ends(0).is_empty(),
        Some(id) => {
            let look = view.look(id, looks);
            is_accepted(dfa, look.table)
        }
    }
}

/// Whether the automaton accepts the text of the table with some marks.
fn is_accepted(dfa: &Dfa, table: &Table) -> bool
    requires { 0 < length table.now }
    ensures { (s : List ℕ) → IsTable dfa.now s table.now → IsTrue result ↔ Accepted dfa.now s }
{
    match width_for(dfa) {
        Width::One => has_accepted::<1>(dfa, table),
        Width::Two => has_accepted::<2>(dfa, table),
        Width::Sixteen => has_accepted::<16>(dfa, table),
    }
}

/// The same, by sets of N words.
fn has_accepted<const N: usize>(dfa: &Dfa, table: &Table) -> bool
    requires wide { states_of dfa.now ≤ 64 * N }
    requires narrow { N ≤ 16 }
    requires state { 0 < length table.now }
    ensures { (s : List ℕ) → IsTable dfa.now s table.now → IsTrue result ↔ Accepted dfa.now s }
{
    let _states = dfa.states();
    can_reach(table, 0, &final_states::<N>(dfa))
}

/// Whether the tuple is an answer. It allocates nothing.
///
/// It makes at most B(k, n) table lookups, for k variables and a text of n bytes.
pub fn has<L: Ledger>(
    view: View<'_>,
    dfa: &Dfa,
    root: Option<NodeId>,
    tuple: &Tuple,
    looks: &mut Steps<L>,
) -> bool
    requires ready { IsReady dfa.now view.store.now view.tables.now root }
    requires tuple { length tuple.now ≡ dfa.now.variables }
    ensures answer { IsTrue result ↔ IsMember dfa.now (text_of view.entry.store.now root) tuple.now }
    ensures cost { looks.new ≤ looks.old + looks_limit dfa.now.variables (length (text_of view.entry.store.now root)) }
{
    let _states = dfa.states();
    let _count = tuple.count();
    match root {
        None => accepts_end(dfa, Some(0), tuple, 1),
        Some(id) => {
            let look = view.look(id, looks);
            let whole = Part { id, look, at: 1 };
            let state = state_over(&view, dfa, &whole, 0, tuple, looks);
            accepts_end(dfa, state, tuple, look.len + 1)
        }
    }
}
