//! The deterministic automaton of an operation's occurrences.

ghost use Rattle.marker_dfa.specs.Bundled.{automaton_in};
ghost use Rattle.marker_dfa.specs.Deterministic.{AcceptsSame, AreTooMany, IsDeterminized};
ghost use Rattle.marker_dfa.specs.Making.{IsBundled};
ghost use Rattle.span_algebra.specs.Refusals.{IsRefused};
ghost use Rattle.std.specs.Prelude.{◌≡◌, ◌≤◌, IfErr, IfOk};

use crate::refusal::AlgebraRefusal;
use marker_dfa::{BundledNfa, Dfa, DfaRefusal, determinise_bundled};
use std::alloc::Global;

/// The automaton whose states are the reached sets of occurrences, at most `most`.
pub fn determined(alloc: Global, nfa: &BundledNfa, most: u16) -> Result<Dfa, AlgebraRefusal>
    requires bundled { IsBundled nfa.now }
    requires few { 128 ≤ most }
    requires many { most ≤ 1024 }
    ensures states { IfOk result (IsDeterminized (automaton_in nfa.now)) }
    ensures accepts { IfOk result (AcceptsSame (automaton_in nfa.now)) }
    ensures few { IfOk result (λ _. AreTooMany most (automaton_in nfa.now) → ⊥) }
    ensures refused { IfErr result (IsRefused 0 (AreTooMany most (automaton_in nfa.now))) }
{
    match determinise_bundled(alloc, nfa, most) {
        Ok(dfa) => Ok(dfa),
        Err(DfaRefusal::TooManyStates) => Err(AlgebraRefusal::TooManyStates),
        Err(DfaRefusal::NoMemory) => Err(AlgebraRefusal::NoMemory),
    }
}
