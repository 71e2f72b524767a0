//! Lists of pairs of states, and steps between them.

ghost use Rattle.marker_nfa.specs.Parts.{Adds};
ghost use Rattle.span_algebra.specs.Pairs.{AreFew, Gains, IsBetween, IsNumbered, IsNumberedAmong, IsTargetAmong, NoRoom};
ghost use Rattle.span_algebra.specs.Refusals.{IsRefused};
ghost use Rattle.span_algebra.specs.declared.pairs.PairStep.{PairStep};
ghost use Rattle.std.specs.Prelude.{◌≡◌, ◌++◌, ◌∷◌, [], Contains, IfErr, IfOk, IsTrue, MatchOption, Some, slice_get};

use crate::hints::Hints;
use crate::refusal::AlgebraRefusal;
use marker_dfa::BundledEdges;
use marker_nfa::Edge;
use span_types::{ByteSet, NoMemory};
use std::alloc::Global;

/// A state of each side of a join.
#[derive(Clone, Copy, PartialEq, Eq)]
pub struct Pair {
    pub left: u16,
    pub right: u16,
}

/// A step from one pair to another: it reads a mark and then one of the letters.
#[derive(Clone, Copy)]
pub struct PairStep {
    pub from: Pair,
    pub mark: u16,
    pub letters: ByteSet,
    pub to: Pair,
}

/// Whether a pair is at an index.
fn is_at(pairs: &[Pair], pair: Pair, index: usize) -> bool
    ensures { IsTrue result → slice_get pairs.now index ≡ Some pair }
{
    match pairs.get(index) {
        Some(other) => *other == pair,
        None => false,
    }
}

/// The index of a pair, if it is there. The index in the hint is tested first.
fn position_of(pairs: &[Pair], pair: Pair, hint: u16) -> Option<usize>
    ensures { MatchOption result (Contains pairs.now pair → ⊥) (λ i. slice_get pairs.now i ≡ Some pair) }
{
    if is_at(pairs, pair, hint as usize) {
        return Some(hint as usize);
    }
    for (index, other) in pairs.iter().enumerate() {
        if *other == pair {
            return Some(index);
        }
    }
    None
}

/// Appends a pair.
fn push_pair(pairs: &mut Vec<Pair>, pair: Pair) -> Result<(), NoMemory>
    ensures { IfOk result (λ _. pairs.new.items ≡ pairs.old.items ++ pair ∷ []) }
{
    pairs.push(pair)?;
    Ok(())
}

/// Appends a pair, unless it is there. There is room for `most` pairs.
fn put_pair(
    alloc: Global,
    pairs: &mut Vec<Pair>,
    hints: &mut Hints,
    pair: Pair,
    most: u16,
) -> Result<(), AlgebraRefusal>
    requires { AreFew most pairs.old.items }
    ensures gains { IfOk result (λ _. Gains most (λ p. p ≡ pair) pairs.old.items pairs.new.items) }
    ensures refused { IfErr result (IsRefused 0 (NoRoom most (λ p. p ≡ pair) pairs.old.items)) }
{
    if position_of(pairs, pair, hints.get(pair)).is_some() {
        return Ok(());
    }
    if pairs.len() == most as usize {
        return Err(AlgebraRefusal::TooManyStates);
    }
    hints.set(alloc, pair, pairs.len() as u16)?;
    push_pair(pairs, pair)?;
    Ok(())
}

/// Appends the pairs to which some steps lead, each unless it is there.
pub fn put_targets(
    alloc: Global,
    pairs: &mut Vec<Pair>,
    hints: &mut Hints,
    steps: &[PairStep],
    most: u16,
) -> Result<(), AlgebraRefusal>
    requires { AreFew most pairs.old.items }
    ensures gains { IfOk result (λ _. Gains most (IsTargetAmong steps.now) pairs.old.items pairs.new.items) }
    ensures refused { IfErr result (IsRefused 0 (NoRoom most (IsTargetAmong steps.now) pairs.old.items)) }
{
    for step in steps {
        put_pair(alloc, pairs, hints, step.to, most)?;
    }
    Ok(())
}

/// The index of a pair that is there.
fn index_of(pairs: &[Pair], hints: &Hints, pair: Pair) -> u16
    requires few { AreFew 1024 pairs.now }
    requires there { Contains pairs.now pair }
    ensures { slice_get pairs.now result ≡ Some pair }
{
    // The pair is in the list.
    position_of(pairs, pair, hints.get(pair)).unwrap() as u16
}

/// Appends a step between pairs to a list, as an edge between their indices.
fn push_numbered(
    pairs: &[Pair],
    hints: &Hints,
    step: &PairStep,
    edges: &mut BundledEdges,
) -> Result<(), NoMemory>
    requires few { AreFew 1024 pairs.now }
    requires between { IsBetween pairs.now step.now }
    ensures { IfOk result (λ _. Adds edges.old edges.new (IsNumbered pairs.now step.now)) }
{
    edges.push(&Edge {
        from: index_of(pairs, hints, step.from),
        mark: step.mark,
        letters: step.letters,
        to: index_of(pairs, hints, step.to),
    })?;
    Ok(())
}

/// Appends steps between pairs to a list, as edges between their indices.
pub fn put_numbered(
    pairs: &[Pair],
    hints: &Hints,
    steps: &[PairStep],
    edges: &mut BundledEdges,
) -> Result<(), NoMemory>
    requires few { AreFew 1024 pairs.now }
    requires between { (s : PairStep) → Contains steps.now s → IsBetween pairs.now s }
    ensures { IfOk result (λ _. Adds edges.old edges.new (IsNumberedAmong pairs.now steps.now)) }
{
    for step in steps {
        push_numbered(pairs, hints, step, edges)?;
    }
    Ok(())
}
