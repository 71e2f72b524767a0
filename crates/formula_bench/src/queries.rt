//! Times the most expensive queries that are made of queries.

ghost use Rattle.std.specs.Prelude.{◌≡◌, ◌≤◌, length};

use crate::{around, repeat};
use formula_syntax::read;
use marker_dfa::{Dfa, determinise_within};
use marker_nfa::of_formula;
use span_algebra::{join_within, project_within, union_within};
use span_types::Vars;
use std::alloc::{AllocError, Global};
use std::io;
use std::time::{Duration, Instant};

/// An automaton, and a name for each of its variables.
#[derive(Drop)]
struct Query {
    dfa: Dfa,
    names: Vars,
    ghost named: { length names ≡ dfa.variables },
}

// An automaton and its names, if there is one for each variable.
fn named(dfa: Dfa, names: Vars) -> Option<Query> {
    if names.count() != dfa.variables() {
        return None;
    }
    Some(Query { dfa, names })
}

// The query of a formula within a limit of states, unless it is rejected.
fn read_query(alloc: Global, text: Result<Vec<u8>, AllocError>, most: u16) -> Option<Query>
    requires few { 128 ≤ most }
    requires many { most ≤ 1024 }
{
    let Ok(text) = text else {
        return None;
    };
    let Ok((formula, names)) = read(alloc, &text) else {
        return None;
    };
    let Ok(nfa) = of_formula(alloc, &formula) else {
        return None;
    };
    match determinise_within(alloc, &nfa, most) {
        Ok(dfa) => named(dfa, names),
        Err(_) => None,
    }
}

// The union of two queries, unless it is rejected.
fn united(alloc: Global, one: &Query, two: &Query, most: u16) -> Option<Query>
    requires few { 128 ≤ most }
    requires many { most ≤ 1024 }
{
    let made = union_within(alloc, &one.dfa, &one.names, &two.dfa, &two.names, most);
    made.ok().and_then(|(dfa, names)| named(dfa, names))
}

// The join of two queries, unless it is rejected.
fn joined(alloc: Global, one: &Query, two: &Query, most: u16) -> Option<Query>
    requires few { 128 ≤ most }
    requires many { most ≤ 1024 }
{
    let made = join_within(alloc, &one.dfa, &one.names, &two.dfa, &two.names, most);
    made.ok().and_then(|(dfa, names)| named(dfa, names))
}

// A star of 63 letters, each of which leads to a state of its own.
fn last_letter(alloc: Global) -> Result<Vec<u8>, AllocError> {
    let mut text = Vec::new(alloc);
    text.push(b'(')?;
    for letter in b"abcdefghijklmnopqrstuvwxyzABCDEFGHIJKLMNOPQRSTUVWXYZ0123456789" {
        text.push(*letter)?;
        text.push(b'|')?;
    }
    text.extend_from_slice(b"_)*")?;
    Ok(text)
}

// A variable's name and its opening brace.
fn open(text: &mut Vec<u8>, name: u8) -> Result<(), AllocError> {
    text.push(b'$')?;
    text.push(name)?;
    Ok(text.push(b'{')?)
}

// All eight variables except two with an empty span here or none, and then a span of one byte for the two.
fn push_part(text: &mut Vec<u8>, one: u8, two: u8) -> Result<(), AllocError> {
    text.push(b'|')?;
    for name in b"stuvwxyz" {
        if *name != one && *name != two {
            open(text, *name)?;
            text.extend_from_slice(b"}?")?;
        }
    }
    open(text, one)?;
    if one == two {
        return text.extend_from_slice(b".}");
    }
    open(text, two)?;
    text.extend_from_slice(b".}}")
}

// A formula of few states and 3,072 marks at one of them.
fn many_marks(alloc: Global) -> Result<Vec<u8>, AllocError> {
    let mut text = Vec::new(alloc);
    text.extend_from_slice(b".*(")?;
    text.extend_from_slice(&around(alloc, b"", 0, b"", b"}?")?)?;
    for one in b"stuvwxyz" {
        for two in b"stuvwxyz" {
            if *one <= *two {
                push_part(&mut text, *one, *two)?;
            }
        }
    }
    text.extend_from_slice(b").*")?;
    Ok(text)
}

// A star of a text repeated this many times, and what ends it.
fn star(alloc: Global, part: &[u8], times: u32, end: &[u8]) -> Result<Vec<u8>, AllocError> {
    let mut text = Vec::new(alloc);
    text.push(b'(')?;
    repeat(&mut text, part, times)?;
    text.extend_from_slice(b")*")?;
    text.extend_from_slice(end)?;
    Ok(text)
}

fn report(rt: &HostRuntime, name: &str, states: Option<u16>, took: Duration) -> io::Result<()> {
    let took = took.as_micros();
    match states {
        Some(states) => eprintln!(rt; "  {name}: {states} states in {took} us"),
        None => eprintln!(rt; "  {name}: refused in {took} us"),
    }
}

// A projection to the variables of another query.
fn measure_project(rt: &HostRuntime, source: &Query, keep: &Query, most: u16) -> io::Result<()>
    requires few { 128 ≤ most }
    requires many { most ≤ 1024 }
{
    let start = Instant::now(rt)?;
    let made = project_within(rt.alloc(), &source.dfa, &source.names, &keep.names, most);
    let took = start.elapsed(rt)?;
    match made {
        Ok(dfa) => report(rt, "project", Some(dfa.states()), took),
        Err(_) => report(rt, "project", None, took),
    }
}

// The union and the join of two queries, and the projection of the first to four of its variables.
fn measure_both(
    rt: &HostRuntime,
    name: &str,
    left: Option<Query>,
    right: Option<Query>,
    most: u16,
) -> io::Result<()>
    requires few { 128 ≤ most }
    requires many { most ≤ 1024 }
{
    let Some(left) = left else {
        return eprintln!(rt; "{name}: refused");
    };
    let Some(right) = right else {
        return eprintln!(rt; "{name}: refused");
    };
    let states = left.dfa.states();
    let others = right.dfa.states();
    eprintln!(rt; "{name}: {states} and {others} states")?;
    let alloc = rt.alloc();
    let start = Instant::now(rt)?;
    let union = united(alloc, &left, &right, most);
    let took = start.elapsed(rt)?;
    report(rt, "union", union.map(|query| query.dfa.states()), took)?;
    let start = Instant::now(rt)?;
    let join = joined(alloc, &left, &right, most);
    let took = start.elapsed(rt)?;
    report(rt, "join", join.map(|query| query.dfa.states()), took)?;
    match read_query(alloc, four(alloc), most) {
        Some(keep) => measure_project(rt, &left, &keep, most),
        None => Ok(()),
    }
}

// A formula with four of the variables.
fn four(alloc: Global) -> Result<Vec<u8>, AllocError> {
    let mut text = Vec::new(alloc);
    for name in b"zxvt" {
        open(&mut text, *name)?;
        text.push(b'}')?;
    }
    Ok(text)
}

// An automaton of 127 states over 63 letters, with 256 marks at each second state.
fn many_letters(alloc: Global, most: u16) -> Option<Query>
    requires few { 128 ≤ most }
    requires many { most ≤ 1024 }
{
    let letters = read_query(alloc, last_letter(alloc), most)?;
    let marks = read_query(alloc, around(alloc, b".*", 1, b"", b"}?"), most)?;
    joined(alloc, &letters, &marks, most)
}

// An automaton of 253 states: the one of 127 states, for texts of an even length.
fn many_letters_in_pairs(alloc: Global, most: u16) -> Option<Query>
    requires few { 128 ≤ most }
    requires many { most ≤ 1024 }
{
    let pairs = read_query(alloc, star(alloc, b".", 2, b""), most)?;
    joined(alloc, &many_letters(alloc, most)?, &pairs, most)
}

// An automaton of 127 states, some of which are for eight variables.
fn chain(alloc: Global, most: u16) -> Option<Query>
    requires few { 128 ≤ most }
    requires many { most ≤ 1024 }
{
    read_query(alloc, around(alloc, b"a", 59, b"a", b"}?"), most)
}

// Operands with many letters or many marks.
fn measure_large(rt: &HostRuntime, most: u16) -> io::Result<()>
    requires few { 128 ≤ most }
    requires many { most ≤ 1024 }
{
    let alloc = rt.alloc();
    measure_both(
        rt,
        "63 letters, and 256 marks at each second state",
        many_letters(alloc, most),
        many_letters(alloc, most),
        most,
    )?;
    measure_both(
        rt,
        "63 letters in pairs, and 256 marks at each second state",
        many_letters_in_pairs(alloc, most),
        many_letters_in_pairs(alloc, most),
        most,
    )?;
    measure_both(
        rt,
        "3,072 marks at a state",
        read_query(alloc, many_marks(alloc), most),
        read_query(alloc, many_marks(alloc), most),
        most,
    )?;
    measure_both(
        rt,
        "126 letters, 8 of them captured or left out",
        chain(alloc, most),
        chain(alloc, most),
        most,
    )
}

// Operands that end in these texts, whose product has 128 states or more.
fn measure_product(
    rt: &HostRuntime,
    name: &str,
    left: &[u8],
    right: &[u8],
    most: u16,
) -> io::Result<()>
    requires few { 128 ≤ most }
    requires many { most ≤ 1024 }
{
    let alloc = rt.alloc();
    measure_both(
        rt,
        name,
        read_query(alloc, star(alloc, b"b*a", 7, left), most),
        read_query(alloc, star(alloc, b"a*b", 9, right), most),
        most,
    )
}

/// Times unions, joins and projections of the most expensive queries, each within a limit of states.
pub fn measure_queries(rt: &HostRuntime, most: u16) -> io::Result<()>
    requires few { 128 ≤ most }
    requires many { most ≤ 1024 }
{
    eprintln!(rt; "within {most} states:")?;
    measure_large(rt, most)?;
    measure_product(rt, "a product of 128 states", b"b*c", b"a*c", most)?;
    measure_product(rt, "a product of more", b"b*cc", b"a*cc", most)
}
