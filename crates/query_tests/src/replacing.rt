//! Tests of replaced spans.
ghost use Rattle.query_tests.specs.OneLetter.{IsOneLetter};
ghost use Rattle.std.specs.Prelude.{◌≡◌, ◌<◌};

use crate::one_letter::{A, OneLetter};
use span_replace::{Chosen, ReplaceRefusal, chosen, longest, replaced};
use span_types::{Span, Steps};
use std::alloc::Global;
use std::marker::Brand;
use std::sync::ledger::{Blank, Ledger};

/// Whether the only chosen span is [1, 2).
fn is_first(spans: &Chosen) -> bool {
    let taken = spans.spans();
    taken.len() == 1 && taken[0] == Span { start: 1, end: 2 }
}

/// Whether this span is also the only longest one, and is deleted, which leaves the empty text.
fn deletes<L: Ledger>(
    alloc: Global,
    letter: &mut OneLetter,
    steps: &mut Steps<L>,
) -> Result<bool, ReplaceRefusal>
    requires { IsOneLetter letter.old.dfa letter.old.store letter.old.tables }
{
    let spans = chosen(alloc, letter.view(), &letter.dfa, Some(A), steps)?;
    let long = longest(alloc, letter.view(), &letter.dfa, Some(A), steps)?;
    let left = replaced(&mut letter.store, Some(A), &spans, None, steps)?;
    Ok(is_first(&spans) && is_first(&long) && left.is_none())
}

fn asked<L: Ledger>(alloc: Global, blank: Blank) -> Result<bool, ReplaceRefusal>
    requires { (blank.name ≡ L.name) × (blank.parts ≡ L.parts) × (0 < L.parts) }
{
    let mut steps = Steps::<L>::new(blank);
    let mut letter = OneLetter::new(alloc, &mut steps)?;
    deletes(alloc, &mut letter, &mut steps)
}

#[test]
fn a_letter_replaced(rt: HostRuntime) {
    assert!(rt; asked::<Brand>(rt.alloc(), Blank::new(1)) == Ok(true));
}
