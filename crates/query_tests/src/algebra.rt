//! Tests of unions, joins and projections of automata.
ghost use Rattle.std.specs.Prelude.{◌≡◌, IfOk, length};

use crate::formulas::automaton_of;
use crate::subsets::says;
use formula_syntax::read;
use marker_dfa::Dfa;
use span_algebra::{AlgebraRefusal, join, join_within, project, union};
use span_types::{NoMemory, Vars};
use std::alloc::Global;
use std::test::Fail;

/// An automaton and the names of its variables.
#[derive(Drop)]
struct Side {
    dfa: Dfa,
    names: Vars,
}

/// The names of a formula's variables. Here and below, a text that is no formula is reported as an allocation failure.
fn names_of(alloc: Global, text: &[u8]) -> Result<Vars, NoMemory> {
    match read(alloc, text) {
        Ok((_, names)) => Ok(names),
        Err(_) => Err(NoMemory),
    }
}

/// The automaton of a formula, and the names of its variables.
fn side_of(alloc: Global, text: &[u8]) -> Result<Side, NoMemory>
    ensures { IfOk result (λ s. length s.names ≡ s.dfa.variables) }
{
    let dfa = automaton_of(alloc, text)?;
    let names = names_of(alloc, text)?;
    if dfa.variables() != names.count() {
        return Err(NoMemory);
    }
    Ok(Side { dfa, names })
}

fn united(alloc: Global, left: &Side, right: &Side) -> Result<Side, AlgebraRefusal>
    requires left { length left.now.names ≡ left.now.dfa.variables }
    requires right { length right.now.names ≡ right.now.dfa.variables }
    ensures { IfOk result (λ s. length s.names ≡ s.dfa.variables) }
{
    let (dfa, names) = union(alloc, &left.dfa, &left.names, &right.dfa, &right.names)?;
    Ok(Side { dfa, names })
}

fn joined(alloc: Global, left: &Side, right: &Side) -> Result<Dfa, AlgebraRefusal>
    requires left { length left.now.names ≡ left.now.dfa.variables }
    requires right { length right.now.names ≡ right.now.dfa.variables }
{
    let (dfa, _) = join(alloc, &left.dfa, &left.names, &right.dfa, &right.names)?;
    Ok(dfa)
}

/// A part of an automaton: the numbers of its states and variables, the state after a mark and a byte from the start,
/// and the greatest end there.
type Seen = (u16, u8, Option<u16>, Option<u16>);

fn seen_at(dfa: &Dfa, mark: u16, byte: u8) -> Seen {
    let states = dfa.states();
    let next = dfa.next(0, mark, byte);
    let end = match next {
        Some(state) => dfa.ends(state).first().copied(),
        None => None,
    };
    (states, dfa.variables(), next, end)
}

/// `$x{a}` or `$y{b}`
fn either(alloc: Global) -> Result<Side, AlgebraRefusal>
    ensures { IfOk result (λ s. length s.names ≡ s.dfa.variables) }
{
    let left = side_of(alloc, b"$x{a}")?;
    let right = side_of(alloc, b"$y{b}")?;
    united(alloc, &left, &right)
}

/// The projection of `either` that drops x.
fn without_x(alloc: Global, whole: &Side) -> Result<Dfa, AlgebraRefusal>
    requires { length whole.now.names ≡ whole.now.dfa.variables }
{
    let keep = names_of(alloc, b"$y{}")?;
    project(alloc, &whole.dfa, &whole.names, &keep)
}

/// A mark, a byte, and the part of the union that is observed after them.
const UNION: [(u16, u8, Seen); 3] = [
    (1, b'a', (3, 2, Some(1), Some(2))),
    (4, b'b', (3, 2, Some(2), Some(8))),
    (4, b'a', (3, 2, None, None)),
];

/// The same of its projection.
const PROJECTION: [(u16, u8, Seen); 2] = [
    (0, b'a', (3, 1, Some(1), Some(0))),
    (1, b'b', (3, 1, Some(2), Some(2))),
];

fn are_seen(dfa: &Dfa, rows: &[(u16, u8, Seen)]) -> bool {
    rows.iter()
        .all(|(mark, byte, want)| seen_at(dfa, *mark, *byte) == *want)
}

#[test]
fn union_of_two_and_projection_to_one(rt: HostRuntime) -> Result<(), Fail> {
    let whole = either(rt.alloc())?;
    assert!(rt; are_seen(&whole.dfa, &UNION));
    assert!(rt; are_seen(&without_x(rt.alloc(), &whole)?, &PROJECTION));
    Ok(())
}

/// The join of two formulas, or why there is none.
fn join_of(alloc: Global, left: &[u8], right: &[u8]) -> Result<Dfa, AlgebraRefusal> {
    let left = side_of(alloc, left)?;
    let right = side_of(alloc, right)?;
    joined(alloc, &left, &right)
}

/// Two formulas, a mark, and the part of their join that is observed after this mark and `a`: on one name, with other
/// spans, and without common names.
const JOINS: &[(&[u8], &[u8], u16, Seen)] = &[
    (b"$x{a}", b"$x{a}", 1, (2, 1, Some(1), Some(2))),
    (b"$x{a}", b"$x{b}", 1, (1, 1, None, None)),
    (b"$x{a}a", b"a$x{a}", 1, (1, 1, None, None)),
    (b"$x{a}a", b"a$y{a}", 1, (3, 2, Some(1), None)),
    (b"$x{a}", b"$y{a}", 5, (2, 2, Some(1), Some(10))),
];

#[test]
fn joins(rt: HostRuntime) -> Result<(), Fail> {
    for (left, right, mark, want) in JOINS {
        let dfa = join_of(rt.alloc(), left, right)?;
        assert!(rt; seen_at(&dfa, *mark, b'a') == *want, "{left:?} {right:?}");
    }
    Ok(())
}

/// The number of an automaton's states, or why there is none.
type States = Result<u16, AlgebraRefusal>;

/// The number of states of the join of two formulas.
fn states_of_join(alloc: Global, left: &[u8], right: &[u8]) -> States {
    Ok(join_of(alloc, left, right)?.states())
}

/// The number where 1,024 states are allowed.
fn many_states_of_join(alloc: Global, left: &[u8], right: &[u8]) -> States {
    let left = side_of(alloc, left)?;
    let right = side_of(alloc, right)?;
    let (dfa, _) = join_within(
        alloc,
        &left.dfa,
        &left.names,
        &right.dfa,
        &right.names,
        1024,
    )?;
    Ok(dfa.states())
}

/// Cycles of 20 and 20 bytes, of 11 and 12, of 31 and 33, and of 32 and 33, and the numbers of states of their joins where 128
/// are allowed and where 1,024 are.
const ROUNDS: &[(&[u8], &[u8], States, States)] = &[
    (
        b"(aaaaaaaaaaaaaaaaaaaa)*",
        b"(aaaaaaaaaaaaaaaaaaaa)*",
        Ok(21),
        Ok(21),
    ),
    (
        b"(aaaaaaaaaaa)*",
        b"(aaaaaaaaaaaa)*",
        Err(AlgebraRefusal::TooManyStates),
        Ok(133),
    ),
    (
        b"(aaaaaaaaaaaaaaaaaaaaaaaaaaaaaaa)*",
        b"(aaaaaaaaaaaaaaaaaaaaaaaaaaaaaaaaa)*",
        Err(AlgebraRefusal::TooManyStates),
        Ok(1024),
    ),
    (
        b"(aaaaaaaaaaaaaaaaaaaaaaaaaaaaaaaa)*",
        b"(aaaaaaaaaaaaaaaaaaaaaaaaaaaaaaaaa)*",
        Err(AlgebraRefusal::TooManyStates),
        Err(AlgebraRefusal::TooManyStates),
    ),
];

#[test]
fn state_caps(rt: HostRuntime) {
    for (left, right, usual, wide) in ROUNDS {
        assert!(rt; states_of_join(rt.alloc(), left, right) == *usual);
        assert!(rt; many_states_of_join(rt.alloc(), left, right) == *wide);
    }
}

/// The number of variables of the union of `$a{a}` and the same with these letters, or why there is none.
fn union_of_letters(alloc: Global, letters: &[u8]) -> Result<u8, AlgebraRefusal> {
    let mut whole = side_of(alloc, b"$a{a}")?;
    for letter in letters {
        let next = side_of(alloc, &[b'$', *letter, b'{', b'a', b'}'])?;
        whole = united(alloc, &whole, &next)?;
    }
    Ok(whole.names.count())
}

const LETTERS: &[(&[u8], Result<u8, AlgebraRefusal>)] = &[
    (b"bcdefgh", Ok(8)),
    (b"bcdefghi", Err(AlgebraRefusal::TooManyVariables)),
];

#[test]
fn variable_cap(rt: HostRuntime) {
    for (letters, want) in LETTERS {
        assert!(rt; union_of_letters(rt.alloc(), letters) == *want);
    }
}

#[test]
fn refusals(rt: HostRuntime) -> Result<(), Fail> {
    let alloc = rt.alloc();
    assert!(rt;
        says(
            alloc,
            AlgebraRefusal::TooManyVariables,
            "too many variables"
        )?
    );
    assert!(rt; says(alloc, AlgebraRefusal::TooManyStates, "too many states")?);
    assert!(rt; says(alloc, AlgebraRefusal::NoMemory, "no memory")?);
    Ok(())
}
