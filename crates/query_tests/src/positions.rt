//! Tests of position automata.
use crate::formulas::nfa_of;
use marker_nfa::{End, Nfa};
use span_types::NoMemory;
use std::alloc::Global;
use std::test::Fail;

/// An edge: its source state, its mark, one of its bytes, and its target state.
type EdgeRow = (u16, u16, u8, u16);

fn has_edge(nfa: &Nfa, row: EdgeRow) -> bool {
    let (from, mark, byte, to) = row;
    nfa.edges().iter().any(|e| e.from == from
        && e.mark == mark
        && e.letters.contains(byte)
        && e.to == to)
}

/// The numbers of states, variables and edges.
fn counts(nfa: &Nfa) -> (u16, u8, usize) {
    (nfa.states(), nfa.variables(), nfa.edges().len())
}

#[test]
fn a_capture_before_a_letter(rt: HostRuntime) -> Result<(), Fail> {
    let nfa = nfa_of(rt.alloc(), b"$x{a}b")?;
    assert_eq!(rt; counts(&nfa), (3, 1, 2));
    for row in [(0, 1, b'a', 1), (1, 2, b'b', 2)] {
        assert!(rt; has_edge(&nfa, row));
    }
    assert_eq!(rt; nfa.ends(), [End { state: 2, mark: 0 }].as_slice());
    Ok(())
}

/// A formula as nested as the longest text allows.
#[test]
fn many_stars(rt: HostRuntime) -> Result<(), Fail> {
    let alloc = rt.alloc();
    let mut text = vec![in alloc; b'*'; 2048]?;
    text[0] = b'a';
    let nfa = nfa_of(alloc, &text)?;
    assert_eq!(rt; counts(&nfa).2, 2);
    Ok(())
}

/// An automaton made from the parts of the automaton of a captured star.
fn made_of_parts(alloc: Global) -> Result<Nfa, NoMemory> {
    let made = nfa_of(alloc, b"$x{a*}")?;
    Nfa::of_parts(
        alloc,
        made.states(),
        made.variables(),
        made.edges(),
        made.ends(),
    )
}

#[test]
fn a_captured_star(rt: HostRuntime) -> Result<(), Fail> {
    let nfa = made_of_parts(rt.alloc())?;
    assert_eq!(rt; counts(&nfa), (2, 1, 2));
    for row in [(0, 1, b'a', 1), (1, 0, b'a', 1)] {
        assert!(rt; has_edge(&nfa, row));
    }
    let ends = [End { state: 0, mark: 3 }, End { state: 1, mark: 2 }];
    assert_eq!(rt; nfa.ends(), ends.as_slice());
    Ok(())
}
