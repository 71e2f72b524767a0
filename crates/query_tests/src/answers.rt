//! Tests of answers.
ghost use Rattle.query_tests.specs.OneLetter.{IsOneLetter};
ghost use Rattle.std.specs.Prelude.{◌≡◌, ◌<◌, length};

use crate::one_letter::{A, OneLetter, spanned};
use span_enum::{Answers, has, nonempty};
use span_types::{NoMemory, Steps, Tuple};
use std::alloc::Global;
use std::marker::Brand;
use std::sync::ledger::{Blank, Ledger};

/// Whether the first answer is this one, and the second the last.
fn lists<L: Ledger>(
    alloc: Global,
    letter: &OneLetter,
    x: Tuple,
    steps: &mut Steps<L>,
) -> Result<bool, NoMemory>
    requires { IsOneLetter letter.now.dfa letter.now.store letter.now.tables }
{
    let mut answers = Answers::start(alloc, letter.view(), &letter.dfa, Some(A), steps)?;
    let first = answers.next(steps);
    let second = answers.next(steps);
    let none = Some(Tuple::none(1));
    Ok(first == Some(x) && second == none && answers.cursor() == none)
}

/// The first answer after a tuple.
fn first_after<L: Ledger>(
    alloc: Global,
    letter: &OneLetter,
    late: Tuple,
    steps: &mut Steps<L>,
) -> Result<Option<Tuple>, NoMemory>
    requires letter { IsOneLetter letter.now.dfa letter.now.store letter.now.tables }
    requires tuple { length late ≡ 1 }
{
    let mut answers = Answers::seek(alloc, letter.view(), &letter.dfa, Some(A), &late, steps)?;
    Ok(answers.next(steps))
}

/// Whether one tuple is an answer, and the other isn't.
fn is_exact<L: Ledger>(letter: &OneLetter, x: Tuple, late: Tuple, steps: &mut Steps<L>) -> bool
    requires letter { IsOneLetter letter.now.dfa letter.now.store letter.now.tables }
    requires tuple { length x ≡ 1 }
    requires late { length late ≡ 1 }
{
    let view = letter.view();
    let some = nonempty(view, &letter.dfa, Some(A), steps);
    let has_x = has(view, &letter.dfa, Some(A), &x, steps);
    let has_late = has(view, &letter.dfa, Some(A), &late, steps);
    some && has_x && !has_late
}

fn answers<L: Ledger>(
    alloc: Global,
    letter: &OneLetter,
    steps: &mut Steps<L>,
) -> Result<[bool; 3], NoMemory>
    requires { IsOneLetter letter.now.dfa letter.now.store letter.now.tables }
{
    let (x, late) = (spanned(1, 2), spanned(3, 3));
    let lists = lists(alloc, letter, x, steps)?;
    let seeks = first_after(alloc, letter, late, steps)? == Some(Tuple::none(1));
    Ok([lists, seeks, is_exact(letter, x, late, steps)])
}

fn asked<L: Ledger>(alloc: Global, blank: Blank) -> Result<[bool; 3], NoMemory>
    requires { (blank.name ≡ L.name) × (blank.parts ≡ L.parts) × (0 < L.parts) }
{
    let mut steps = Steps::<L>::new(blank);
    let letter = OneLetter::new(alloc, &mut steps)?;
    answers(alloc, &letter, &mut steps)
}

#[test]
fn a_letter_with_or_without_x(rt: HostRuntime) {
    assert!(rt; asked::<Brand>(rt.alloc(), Blank::new(1)) == Ok([true; 3]));
}
