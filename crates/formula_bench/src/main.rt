//! Times the automata of the largest formulas within the limits, and those of the most expensive queries that are made
//! of queries. The figures go to standard error.
//!
//! ```text
//! rt try        # for each formula the microseconds for the position automaton, and for the deterministic one within
//!               # 128 states and within 1,024; for each two queries, within each limit, those of their union, their
//!               # join and a projection
//! ```
//!
//! It isn't part of the database. It shows the most expensive inputs of `marker_nfa`, `marker_dfa` and `span_algebra`:
//!
//! - formulas of 2,048 bytes with eight variables whose marks lie between many occurrences;
//! - two automata of up to 1,024 states with eight variables, with products of exactly 128 states and of more.
//!
//! It takes no input, and memory for the automata of one line at a time.
//!
//! Proved: Only safety and termination.
#![tactic(auto)]

ghost use Rattle.std.specs.Prelude.{◌≤◌};

mod queries;

use formula_syntax::read;
use marker_dfa::determinise_within;
use marker_nfa::{Nfa, of_formula};
use queries::measure_queries;
use std::alloc::{AllocError, Global};
use std::io;
use std::time::Instant;

// Appends a text to another this many times.
pub(crate) fn repeat(out: &mut Vec<u8>, text: &[u8], times: u32) -> Result<(), AllocError> {
    for _ in 0..times {
        out.extend_from_slice(text)?;
    }
    Ok(())
}

// Copies of a text, all eight variables with this between their braces, and the copies again.
pub(crate) fn around(
    alloc: Global,
    side: &[u8],
    times: u32,
    inner: &[u8],
    end: &[u8],
) -> Result<Vec<u8>, AllocError> {
    let mut text = Vec::new(alloc);
    repeat(&mut text, side, times)?;
    for name in b"stuvwxyz" {
        text.push(b'$')?;
        text.push(*name)?;
        text.push(b'{')?;
        text.extend_from_slice(inner)?;
        text.extend_from_slice(end)?;
    }
    repeat(&mut text, side, times)?;
    Ok(text)
}

// A text, and after it another this many times.
fn with_tail(alloc: Global, text: &[u8], tail: &[u8], times: u32) -> Result<Vec<u8>, AllocError> {
    let mut out = Vec::new(alloc);
    out.extend_from_slice(text)?;
    repeat(&mut out, tail, times)?;
    Ok(out)
}

// Sets in a group, and signs after it.
fn grouped(
    alloc: Global,
    side: &[u8],
    times: u32,
    signs: &[u8],
    count: u32,
) -> Result<Vec<u8>, AllocError> {
    let mut text = Vec::new(alloc);
    text.push(b'(')?;
    repeat(&mut text, side, times)?;
    text.push(b')')?;
    repeat(&mut text, signs, count)?;
    Ok(text)
}

// A star of 256 optional sets on either side of eight optional variables.
fn between_stars(alloc: Global) -> Result<Vec<u8>, AllocError> {
    let side = grouped(alloc, b".?", 256, b"*", 1)?;
    around(alloc, &side, 1, b"", b"}?")
}

// Appends five letters that depend on the seed, and moves the seed on.
fn push_word(out: &mut Vec<u8>, seed: &mut u32) -> Result<(), AllocError> {
    for _ in 0..5 {
        *seed = seed.wrapping_mul(1_664_525).wrapping_add(1_013_904_223);
        out.push(b'a' + (*seed >> 24) as u8 % 26)?;
    }
    Ok(())
}

// A text that ends with one of `count + 1` words of five letters. Each state has a next state for each letter.
fn last_word(alloc: Global, count: u32) -> Result<Vec<u8>, AllocError> {
    let mut text = Vec::new(alloc);
    let mut seed = 1;
    text.extend_from_slice(b".*(")?;
    for _ in 0..count {
        push_word(&mut text, &mut seed)?;
        text.push(b'|')?;
    }
    push_word(&mut text, &mut seed)?;
    text.push(b')')?;
    Ok(text)
}

fn measure(rt: &HostRuntime, name: &str, text: Result<Vec<u8>, AllocError>) -> io::Result<()> {
    match text {
        Ok(text) => measure_text(rt, name, text.as_slice()),
        Err(_) => Ok(()),
    }
}

fn measure_text(rt: &HostRuntime, name: &str, text: &[u8]) -> io::Result<()> {
    let alloc = rt.alloc();
    let start = Instant::now(rt)?;
    let Ok((formula, vars)) = read(alloc, text) else {
        return eprintln!(rt; "{name}: refused");
    };
    let reading = start.elapsed(rt)?.as_micros();
    let start = Instant::now(rt)?;
    let Ok(nfa) = of_formula(alloc, &formula) else {
        return eprintln!(rt; "{name}: no memory");
    };
    let making = start.elapsed(rt)?.as_micros();
    let edges = nfa.edges().len();
    let names = vars.count();
    eprintln!(rt; "{name}: {names} variables, read in {reading} us, {edges} edges in {making} us")?;
    measure_states(rt, &nfa, 128)?;
    measure_states(rt, &nfa, 1024)
}

// The deterministic automaton of at most `most` states.
fn measure_states(rt: &HostRuntime, nfa: &Nfa, most: u16) -> io::Result<()>
    requires few { 128 ≤ most }
    requires many { most ≤ 1024 }
{
    let start = Instant::now(rt)?;
    let dfa = determinise_within(rt.alloc(), nfa, most);
    let took = start.elapsed(rt)?.as_micros();
    match dfa {
        Ok(dfa) => {
            let states = dfa.states();
            eprintln!(rt; "  within {most}: {states} states in {took} us")
        }
        Err(_) => eprintln!(rt; "  within {most}: too many states in {took} us"),
    }
}

fn main(rt: HostRuntime) -> io::Result<()> {
    let alloc = rt.alloc();
    measure(&rt, "2,047 stars", with_tail(alloc, b"a", b"*", 2047))?;
    measure(&rt, "101 words of five letters", last_word(alloc, 100))?;
    measure(
        &rt,
        "512 sets under 1,000 signs",
        grouped(alloc, b"a", 512, b"*?", 500),
    )?;
    measure(
        &rt,
        "512 sets each optional, under 1,000 signs",
        grouped(alloc, b"a?", 512, b"*?", 500),
    )?;
    measure(
        &rt,
        "8 optional variables between stars of 256 optional sets",
        between_stars(alloc),
    )?;
    measure(
        &rt,
        "8 optional variables between 256 optional sets",
        around(alloc, b".?", 256, b"", b"}?"),
    )?;
    measure(
        &rt,
        "8 variables between stars",
        around(alloc, b".*", 1, b".", b"}?"),
    )?;
    let letters = [
        ("126 letters, 8 of them captured", "}"),
        ("126 letters, 8 of them captured or left out", "}?"),
    ];
    for (name, end) in letters {
        measure(&rt, name, around(alloc, b"a", 59, b"a", end.as_bytes()))?;
    }
    measure_queries(&rt, 128)?;
    measure_queries(&rt, 1024)
}
