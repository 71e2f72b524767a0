//! Position automata of formulas: automata that read a mark before each byte of a text.
//!
//! ```text
//! let (formula, vars) = formula_syntax::read(alloc, b".*$x{a}.*")?;
//! let nfa = of_formula(alloc, &formula)?;
//! assert_eq!(nfa.states(), 4);                             // the start, and the three occurrences of byte sets
//! assert_eq!(nfa.variables(), 1);
//! ```
//!
//! A mark says which variables' spans start and end at a position. The automaton has a state for each occurrence of a
//! byte set in the formula, and an edge for each step from one occurrence to the next. The edge carries the mark
//! between the two and the byte set of the second. Time and memory are proportional to the number of edges: for p
//! occurrences at most p·(p+1) times the number of marks between two of them. That number is small in most formulas,
//! and at most 256.
//!
//! The states are those of V. Glushkov, *The abstract theory of automata*, 1961. No step is made twice, as in A.
//! Brüggemann-Klein, *Regular expressions into finite automata*, 1993. The marks are those of F. Florenzano et al.,
//! *Constant Delay Algorithms for Regular Document Spanners*, PODS 2018.
//!
//! Proved: The automaton of a formula: exactly its edges and ends, none twice, and what it accepts (`of_formula`).
//!
//! Neither: Memory and time.
#![tactic(auto)]

ghost use Rattle.marker_nfa.specs.Occurrences.{AcceptsAnswersOf, IsPositionAutomaton, IsWithinLimits};
ghost use Rattle.span_types.specs.FormulaTree.{tree_of};
ghost use Rattle.std.specs.Prelude.{IfOk};

pub mod edges;
pub mod lists;
pub mod nfa;
pub mod outline;
pub mod parts;

use edges::edges_of;
pub use nfa::{Edge, End, Nfa};
use outline::outline_of;
use parts::variables_of;
use span_types::{Formula, NoMemory};
use std::alloc::Global;

/// The position automaton of a formula. Its states after the start are the occurrences of byte sets, from the left.
///
/// It takes time and memory proportional to its edges. There may be 256 edges between two states, one for each mark.
/// The recursions over the formula are as deep as its tree, so at most as deep as its text is long.
///
/// # Errors
///
/// `NoMemory` if allocation fails.
pub fn of_formula(alloc: Global, formula: &Formula) -> Result<Nfa, NoMemory>
    requires { IsWithinLimits (tree_of formula.now) }
    ensures parts { IfOk result (IsPositionAutomaton (tree_of formula.now)) }
    ensures accepts { IfOk result (AcceptsAnswersOf (tree_of formula.now)) }
{
    let outline = outline_of(alloc, formula)?;
    let edges = edges_of(alloc, &outline.letters, &outline.hops)?;
    Ok(Nfa::from_lists(
        outline.letters.len() as u16 + 1,
        variables_of(formula),
        edges,
        outline.ends,
        outline.letters,
    ))
}
