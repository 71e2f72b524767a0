//! Steps of the automaton, and the marks of tuples.
ghost use Rattle.marker_dfa.specs.Deterministic.{states_of};
ghost use Rattle.slp_model.specs.Nodes.{tree};
ghost use Rattle.slp_model.specs.Tree.{text, height};
ghost use Rattle.span_enum.specs.Letters.{step_of, reached};
ghost use Rattle.span_enum.specs.Sets.{is_final, can_reach_of};
ghost use Rattle.span_enum.specs.Tuples.{word_over, IsBound, IsBoundBetween, IsMarkedBetween, IsUnmarked};
ghost use Rattle.span_enum.specs.Words.{IsGreatestMark, IsNoMark};
ghost use Rattle.span_types.specs.Marks.{mark_of};
ghost use Rattle.span_types.specs.Words.{mark_count};
ghost use Rattle.state_tables.specs.Dictionary.{AreTables, IsLook};
ghost use Rattle.state_tables.specs.StateSet.{member};
ghost use Rattle.std.specs.Prelude.{◌≡◌, ℕ, ◌<◌, ◌≤◌, ◌+◌, ◌*◌, true, false, length, Some, IfSome, MatchOption};

use crate::states::States;
use marker_dfa::Dfa;
use node_store::{Node, NodeId};
use span_types::{Span, Steps, Tuple, mark_at};
use state_tables::{Look, Table, View};
use std::sync::ledger::Ledger;

/// Whether some run over the text from `p` ends in a goal.
pub(crate) fn can_reach<const N: usize>(table: &Table, p: u16, goals: &States<N>) -> bool
    requires { p < length table.now }
    ensures { result ≡ can_reach_of table.now p goals.now }
{
    let unmarked = match table.unmarked(p) {
        Some(q) => goals.holds(q),
        None => false,
    };
    unmarked || goals.meets(table.marked(p))
}

/// The states in which a text may end.
pub(crate) fn final_states<const N: usize>(dfa: &Dfa) -> States<N>
    requires wide { states_of dfa.now ≤ 64 * N }
    requires narrow { N ≤ 16 }
    ensures { (p : ℕ) → p < states_of dfa.now → member result p ≡ is_final dfa.now p }
{
    let mut set = States::none();
    for p in 0..dfa.states() {
        set.include(p, !dfa.ends(p).is_empty());
    }
    set
}

// The state after the mark and the byte.
pub(crate) fn step(dfa: &Dfa, p: u16, mark: u16, byte: u8) -> Option<u16>
    requires { p < states_of dfa.now }
    ensures value { result ≡ step_of dfa.now p mark byte }
    ensures within { IfSome result (λ q. q < states_of dfa.now) }
{
    let _states = dfa.states();
    dfa.next(p, mark, byte)
}

// The state after the mark and the byte, if the mark is below the limit and that state is a goal.
pub(crate) fn step_to_goal<const N: usize>(
    dfa: &Dfa,
    p: u16,
    byte: u8,
    mark: u16,
    goals: &States<N>,
    limit: u32,
) -> Option<u16>
    requires { p < states_of dfa.now }
    ensures step { MatchOption result (IsNoMark dfa.now p byte goals.now limit mark) (λ q.
        (step_of dfa.now p mark byte ≡ Some q) × (member goals.now q ≡ true) × (mark < limit)) }
    ensures within { IfSome result (λ q. q < states_of dfa.now) }
{
    if mark as u32 >= limit {
        return None;
    }
    match step(dfa, p, mark, byte) {
        Some(q) => { if goals.holds(q) { Some(q) } else { None } }
        None => None,
    }
}

/// A mark, and the state after it and a byte.
#[derive(Clone, Copy, Debug, PartialEq, Eq)]
pub(crate) struct MarkStep {
    pub(crate) mark: u16,
    pub(crate) state: u16,
}

/// The greatest mark below the limit that leads over the byte into a goal, with the state after it.
pub(crate) fn greatest_mark<const N: usize>(
    dfa: &Dfa,
    p: u16,
    byte: u8,
    goals: &States<N>,
    limit: u32,
) -> Option<MarkStep>
    requires { p < states_of dfa.now }
    ensures mark { MatchOption result ((m : ℕ) → IsNoMark dfa.now p byte goals.now limit m) (λ r.
        IsGreatestMark dfa.now p byte goals.now limit r.mark r.state) }
    ensures within { IfSome result (λ r. r.state < states_of dfa.now) }
{
    let _states = dfa.states();
    for mark in dfa.marks(p, byte) {
        if let Some(q) = step_to_goal(dfa, p, byte, *mark, goals, limit) {
            return Some(MarkStep {
                mark: *mark,
                state: q,
            });
        }
    }
    None
}

/// Whether a tuple has a mark at a position from `from` on and before `to`. Takes time linear in the number of variables.
pub fn is_marked_between(t: &Tuple, from: u64, to: u64) -> bool
    ensures some { result ≡ true → IsMarkedBetween t.now from to }
    ensures none { result ≡ false → IsUnmarked t.now from to }
{
    for v in 0..t.count() {
        if is_bound_between(t.span(v), from, to) {
            return true;
        }
    }
    false
}

/// Whether a span starts or ends from `from` on and before `to`.
fn is_bound_between(span: Option<Span>, from: u64, to: u64) -> bool
    ensures some { result ≡ true → IsBoundBetween span from to }
    ensures none { result ≡ false → (p : ℕ) → from ≤ p → p < to → IsBound span p → ⊥ }
{
    match span {
        Some(span) => from <= span.start && span.start < to || from <= span.end && span.end < to,
        None => false,
    }
}

/// The first position from `from` on and before `end` at which the tuple has a mark, or else `end`.
pub(crate) fn first_mark(t: &Tuple, from: u64, end: u64) -> u64
    requires { from ≤ end }
    ensures from { from ≤ result }
    ensures end { result ≤ end }
    ensures none { (p : ℕ) → from ≤ p → p < result → mark_of t.now p ≡ 0 }
    ensures some { result < end → 0 < mark_of t.now result }
{
    let mut first = end;
    for v in 0..t.count() {
        first = first_bound(t.span(v), from, first);
    }
    first
}

/// The first of a position and the bounds of a span from `from` on.
fn first_bound(span: Option<Span>, from: u64, first: u64) -> u64
    requires { from ≤ first }
    ensures from { from ≤ result }
    ensures earlier { result ≤ first }
    ensures none { (p : ℕ) → from ≤ p → p < result → IsBound span p → ⊥ }
    ensures some { (result ≡ first → ⊥) → IsBound span result }
{
    match span {
        Some(span) => earlier(span.end, from, earlier(span.start, from, first)),
        None => first,
    }
}

/// The first of two positions, the first one only if it is not before `from`.
fn earlier(at: u64, from: u64, first: u64) -> u64
    requires { from ≤ first }
    ensures from { from ≤ result }
    ensures earlier { result ≤ first }
    ensures bound { from ≤ at → result ≤ at }
    ensures some { (result ≡ first → ⊥) → result ≡ at }
{
    if from <= at && at < first { at } else { first }
}

/// Where a mark can be lowered: the position, the lower mark and the state after it.
#[derive(Clone, Copy, Debug, PartialEq, Eq)]
pub(crate) struct Lowered {
    pub(crate) at: u64,
    pub(crate) mark: u16,
    pub(crate) state: u16,
}

/// A node of a text, with its lookup and the position of its first letter.
#[derive(Clone, Copy)]
pub(crate) struct Part<'a> {
    pub(crate) id: NodeId,
    pub(crate) look: Look<'a>,
    pub(crate) at: u64,
}

/// The state after the tuple's marks over the node.
pub(crate) fn state_over<L: Ledger>(
    view: &View<'_>,
    dfa: &Dfa,
    part: &Part<'_>,
    p: u16,
    t: &Tuple,
    looks: &mut Steps<L>,
) -> Option<u16>
    requires live { part.now.id.index < length view.now.store.now }
    requires look { IsLook view.now.store.now view.now.tables.now part.now.id.index part.now.look.node part.now.look.len part.now.look.table.now }
    requires tables { AreTables dfa.now view.now.store.now view.now.tables.now }
    requires state { p < states_of dfa.now }
    requires positive { 1 ≤ part.now.at }
    requires low { part.now.at + length (text (tree view.now.store.now part.now.id.index)) ≤ 281474976710657 }
    ensures value { result ≡ reached dfa.now p (word_over t.now part.now.at (text (tree view.now.store.now part.now.id.index))) }
    ensures within { IfSome result (λ q. q < states_of dfa.now) }
    ensures cost { looks.new ≤ looks.old + 2 * (height (tree view.now.store.now part.now.id.index)
        * mark_count (word_over t.now part.now.at (text (tree view.now.store.now part.now.id.index)))) }
{
    let _states = dfa.states();
    if !is_marked_between(t, part.at, part.at + part.look.len) {
        return part.look.table.unmarked(p);
    }
    match part.look.node {
        Node::Byte(b) => step(dfa, p, mark_at(t, part.at), b),
        Node::Pair(l, r) => {
            let left = view.look(l, looks);
            let right = view.look(r, looks);
            let first = Part {
                id: l,
                look: left,
                at: part.at,
            };
            match state_over(view, dfa, &first, p, t, looks) {
                Some(q) => {
                    let second = Part {
                        id: r,
                        look: right,
                        at: part.at + left.len,
                    };
                    state_over(view, dfa, &second, q, t, looks)
                }
                None => None,
            }
        }
    }
}
