//! Deterministic automata of marked texts, by the subset construction.
//!
//! ```text
//! let nfa = marker_nfa::of_formula(alloc, &formula)?;
//! let dfa = determinise(alloc, &nfa)?;                     // TooManyStates exactly past 128 states
//! let dfa = determinise_within(alloc, &nfa, 1024)?;        // TooManyStates exactly past 1,024 states
//! let small = merged(alloc, &dfa)?;                        // the same marked texts by fewer states
//! let next = dfa.next(0, 0, b'a');                         // from state 0 with no mark and the byte a
//! let marks = dfa.marks(0, b'a');                          // the marks that lead on from there, falling
//! ```
//!
//! Each tuple has at most one run, so no answer can come twice. Bytes that the automaton never distinguishes share a
//! class, edges that differ only in their sources are bundled, and a state has a list of marks for each class. The
//! caller sets the limit `most`, 128 to 1,024 states. The construction ends when one more set of states is found, so at
//! most `most` sets are processed. For each set, the bundles of its members are visited. Then, for each class, the bundles
//! that read it are visited in order of their marks; lists of their indices are kept during the construction. The
//! automaton takes memory for the marks that have a next state and for these states; a lookup in it allocates nothing.
//!
//! `determinise_bundled` takes an automaton whose edges are already in bundles. So an automaton with many edges is never
//! stored as a list of them. During the construction, an edge takes 10 bytes, and a bundle 64.
//!
//! The construction is that of M. O. Rabin and D. Scott, *Finite automata and their decision problems*, 1959. `merged`
//! merges states that accept the same, as D. Revuz does in *Minimisation of acyclic deterministic automata in linear time*,
//! 1992.
//!
//! Proved: Exactly the reached sets of states, rejected exactly past the limit (`determinise_within`). Merged states accept
//! the same marked texts (`merged`).
//!
//! Tested: Error texts.
//!
//! Neither: Memory and time.
#![tactic(auto)]

ghost use Rattle.marker_dfa.specs.Bundled.{automaton_in};
ghost use Rattle.marker_dfa.specs.Deterministic.{AcceptsSame, AreTooMany, IsDeterminized};
ghost use Rattle.marker_dfa.specs.Making.{IsBundled};
ghost use Rattle.marker_dfa.specs.Refusals.{IfTooMany};
ghost use Rattle.std.specs.Prelude.{◌≤◌, IfOk};

pub mod bundled;
pub mod bundles;
pub mod classes;
pub mod dfa;
pub mod exits;
pub mod found;
pub mod merging;
pub mod refusal;
pub mod states;
pub mod subsets;

pub use bundled::BundledNfa;
use bundled::bundled;
pub use bundles::BundledEdges;
use classes::classes_of;
pub use dfa::Dfa;
use marker_nfa::Nfa;
pub use merging::merged;
pub use refusal::DfaRefusal;
use std::alloc::Global;
use subsets::rows_of;

/// The greatest number of states where the caller sets none.
pub const DEFAULT_MAX_STATES: u16 = 128;

/// The deterministic automaton of an automaton, of at most 128 states, as `determinise_within` makes it.
///
/// # Errors
///
/// `TooManyStates` exactly if more than 128 nonempty sets of states are reached, and `NoMemory` if allocation fails.
pub fn determinise(alloc: Global, nfa: &Nfa) -> Result<Dfa, DfaRefusal>
    ensures states { IfOk result (IsDeterminized nfa.now) }
    ensures accepts { IfOk result (AcceptsSame nfa.now) }
    ensures few { IfOk result (λ _. AreTooMany 128 nfa.now → ⊥) }
    ensures too_many { IfTooMany result (AreTooMany 128 nfa.now) }
{
    determinise_within(alloc, nfa, DEFAULT_MAX_STATES)
}

/// The deterministic automaton of an automaton, by the subset construction (Rabin and Scott 1959). It has exactly one
/// state for each nonempty set of states that is reached from the start's set, and at most `most` states, where `most`
/// is 128 to 1,024. State 0 is that of the start.
///
/// At most `most` sets are processed, each for every class of bytes and every mark with a next state. Memory is
/// allocated for these marks and states.
///
/// # Errors
///
/// `TooManyStates` exactly if more than `most` such sets are reached, and `NoMemory` if allocation fails.
pub fn determinise_within(alloc: Global, nfa: &Nfa, most: u16) -> Result<Dfa, DfaRefusal>
    requires few { 128 ≤ most }
    requires many { most ≤ 1024 }
    ensures states { IfOk result (IsDeterminized nfa.now) }
    ensures accepts { IfOk result (AcceptsSame nfa.now) }
    ensures few { IfOk result (λ _. AreTooMany most nfa.now → ⊥) }
    ensures too_many { IfTooMany result (AreTooMany most nfa.now) }
{
    let bundled = bundled(alloc, nfa)?;
    determinise_bundled(alloc, &bundled, most)
}

/// What `determinise_within` returns, for an automaton with its edges in bundles.
///
/// # Errors
///
/// `TooManyStates` exactly if more than `most` sets of states are reached, and `NoMemory` if allocation fails.
pub fn determinise_bundled(alloc: Global, nfa: &BundledNfa, most: u16) -> Result<Dfa, DfaRefusal>
    requires bundled { IsBundled nfa.now }
    requires few { 128 ≤ most }
    requires many { most ≤ 1024 }
    ensures states { IfOk result (IsDeterminized (automaton_in nfa.now)) }
    ensures accepts { IfOk result (AcceptsSame (automaton_in nfa.now)) }
    ensures few { IfOk result (λ _. AreTooMany most (automaton_in nfa.now) → ⊥) }
    ensures too_many { IfTooMany result (AreTooMany most (automaton_in nfa.now)) }
{
    let variables = nfa.variables;
    let classes = classes_of(alloc, &nfa.letters)?;
    let rows = rows_of(alloc, nfa, &classes.firsts, most)?;
    Ok(Dfa::from_rows(variables, classes.of, rows))
}
