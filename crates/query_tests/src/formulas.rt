//! Automata of formulas, which the tests share.
use formula_syntax::read;
use marker_dfa::{Dfa, DfaRefusal, determinise, determinise_within};
use marker_nfa::{Nfa, of_formula};
use span_types::NoMemory;
use std::alloc::Global;

/// The position automaton of a formula. A text that is no formula is reported as an allocation failure.
pub fn nfa_of(alloc: Global, text: &[u8]) -> Result<Nfa, NoMemory> {
    let Ok((formula, _)) = read(alloc, text) else {
        return Err(NoMemory);
    };
    of_formula(alloc, &formula)
}

/// The deterministic automaton of a formula, of at most 128 states, or why there is none.
pub fn dfa_of(alloc: Global, text: &[u8]) -> Result<Dfa, DfaRefusal> {
    let nfa = nfa_of(alloc, text)?;
    determinise(alloc, &nfa)
}

/// The deterministic automaton of a formula, of at most 1,024 states, or why there is none.
pub fn wide_dfa_of(alloc: Global, text: &[u8]) -> Result<Dfa, DfaRefusal> {
    let nfa = nfa_of(alloc, text)?;
    determinise_within(alloc, &nfa, 1024)
}

/// The deterministic automaton of a formula, of at most 1,024 states. Too many states are reported as an allocation failure too.
pub fn automaton_of(alloc: Global, text: &[u8]) -> Result<Dfa, NoMemory> {
    match wide_dfa_of(alloc, text) {
        Ok(dfa) => Ok(dfa),
        Err(_) => Err(NoMemory),
    }
}
