//! Tests of the subset construction.
use crate::formulas::{dfa_of, wide_dfa_of};
use marker_dfa::{Dfa, DfaRefusal};
use std::alloc::{AllocError, Global};
use std::fmt::Display;
use std::test::Fail;

/// The state after a mark and a byte, if the automaton has the given state.
fn next(dfa: &Dfa, state: u16, mark: u16, byte: u8) -> Option<u16> {
    if state < dfa.states() {
        dfa.next(state, mark, byte)
    } else {
        None
    }
}

/// The marks of transitions from a state on this byte, and those of its ends, if the automaton has the state.
fn marks<'a>(dfa: &'a Dfa, state: u16, byte: u8) -> (&'a [u16], &'a [u16]) {
    if state < dfa.states() {
        (dfa.marks(state, byte), dfa.ends(state))
    } else {
        (&[], &[])
    }
}

#[test]
fn two_states(rt: HostRuntime) -> Result<(), Fail> {
    let dfa = dfa_of(rt.alloc(), b"$x{a*}")?;
    assert_eq!(rt; (dfa.variables(), dfa.states()), (1, 2));
    for (state, mark, byte, want) in [
        (0, 1, b'a', Some(1)),
        (1, 0, b'a', Some(1)),
        (0, 1, b'b', None),
    ] {
        assert_eq!(rt; next(&dfa, state, mark, byte), want);
    }
    let (on, ends) = marks(&dfa, 0, b'a');
    assert_eq!(rt; on, [1].as_slice());
    assert_eq!(rt; ends, [3].as_slice());
    assert_eq!(rt; marks(&dfa, 1, b'a').1, [2].as_slice());
    Ok(())
}

/// The number of an automaton's states, or why there is none.
type States = Result<u16, DfaRefusal>;

/// The number of states of a formula's automaton.
fn states_of(alloc: Global, text: &[u8]) -> States {
    Ok(dfa_of(alloc, text)?.states())
}

/// The number where 1,024 states are allowed.
fn many_states_of(alloc: Global, text: &[u8]) -> States {
    Ok(wide_dfa_of(alloc, text)?.states())
}

/// Formulas, and the numbers of their states where 128 are allowed and where 1,024 are.
const STATES: &[(&[u8], States, States)] = &[
    (b"[ab]*a[ab][ab][ab][ab][ab]", Ok(65), Ok(65)),
    (
        b"[ab]*a[ab][ab][ab][ab][ab][ab]",
        Err(DfaRefusal::TooManyStates),
        Ok(129),
    ),
    (
        b"[ab]*a[ab][ab][ab][ab][ab][ab][ab][ab]",
        Err(DfaRefusal::TooManyStates),
        Ok(513),
    ),
    (
        b"[ab]*a[ab][ab][ab][ab][ab][ab][ab][ab][ab]",
        Err(DfaRefusal::TooManyStates),
        Err(DfaRefusal::TooManyStates),
    ),
];

#[test]
fn state_caps(rt: HostRuntime) {
    for (text, usual, wide) in STATES {
        assert!(rt; states_of(rt.alloc(), text) == *usual);
        assert!(rt; many_states_of(rt.alloc(), text) == *wide);
    }
}

#[test]
fn texts_of_refusals(rt: HostRuntime) -> Result<(), Fail> {
    let alloc = rt.alloc();
    assert!(rt; says(alloc, DfaRefusal::TooManyStates, "too many states")?);
    assert!(rt; says(alloc, DfaRefusal::NoMemory, "no memory")?);
    Ok(())
}

/// Whether an error is printed as this text.
pub fn says<D: Display + Drop>(alloc: Global, why: D, text: &str) -> Result<bool, AllocError> {
    Ok(why.to_string(alloc)?.as_str() == text)
}
