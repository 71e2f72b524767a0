//! The answer at a position of the list of answers.

ghost use Rattle.count_tables.specs.Dictionary.{count_of};
ghost use Rattle.count_tables.specs.Number.{IsCounted, endings};
ghost use Rattle.count_tables.specs.TextIndex.{AreWays, Finds, IsCountInput, IsNth, IsPart, IsPassed, IsTextAt, number_marked, number_over, tree_of};
ghost use Rattle.marker_dfa.specs.Deterministic.{IsDeterministic, ends_of, marks_of, next_of, states_of};
ghost use Rattle.path_counts.specs.Paths.{most, stopped};
ghost use Rattle.path_counts.specs.Runs.{runs};
ghost use Rattle.slp_model.specs.Nodes.{text_of, tree};
ghost use Rattle.slp_model.specs.Tree.{height, text};
ghost use Rattle.span_types.specs.Fibonacci.{looks_limit};
ghost use Rattle.span_types.specs.Words.{Marked};
ghost use Rattle.span_types.specs.Writes.{blanks, write_mark};
ghost use Rattle.std.specs.Prelude.{◌≡◌, ℕ, ◌+◌, ◌-◌, ◌*◌, ◌<◌, ◌≤◌, ◌^◌, false, List, [], ◌∷◌, length, slice_index, IfOk, MatchOption};

use crate::part::{CountInput, Part, fill_ways, look};
use crate::tables::CountTables;
use marker_dfa::Dfa;
use node_store::{Node, NodeId, Store};
use path_counts::CountTable;
use span_types::{NoMemory, Steps, Tuple};
use std::alloc::Global;
use std::sync::ledger::Ledger;

/// The state before a part of the text, the index of the answer among those that go on from there, counted from 0, and the
/// tuple with the marks before the part.
#[derive(Clone, Copy)]
pub(crate) struct Way {
    pub(crate) state: u16,
    pub(crate) index: u64,
    pub(crate) tuple: Tuple,
}

// The way behind a text without marks, if the index lies past all texts with some.
fn pass(table: &CountTable, from: &Way, after: &[u64]) -> Option<Way>
    requires state { from.now.state < length table.now }
    requires after { length after.now ≡ length table.now }
    requires index { from.now.index < number_over table.now from.now.state after.now }
    ensures { MatchOption result (from.now.index < number_marked table.now from.now.state after.now) (IsPassed table.now after.now from.now) }
{
    let marked = table.marked(from.state, after);
    if from.index < marked {
        return None;
    }
    // The index is less than the number of all texts, so the text without marks leads to a state.
    let state = table.unmarked(from.state)?;
    Some(Way {
        state,
        index: from.index - marked,
        tuple: from.tuple,
    })
}

// The way behind one byte, with its mark at this position. The greater mark comes first.
fn over_byte(dfa: &Dfa, byte: u8, at: u64, from: &Way, after: &[u64]) -> Way
    requires state { from.now.state < states_of dfa.now }
    requires after { length after.now ≡ states_of dfa.now }
    requires index { (k : ℕ → List Marked) → AreWays (states_of dfa.now) k after.now → from.now.index < length (runs (next_of dfa.now) (marks_of dfa.now) false k (byte ∷ []) from.now.state) }
    requires below { from.now.index < most }
    requires positive { 1 ≤ at }
    requires low { at ≤ 281474976710657 }
    ensures { (m : ℕ) × IsTextAt dfa.now (byte ∷ []) from.now.state after.now from.now.index ((m, byte) ∷ []) result.state result.index × (result.tuple ≡ write_mark m at from.now.tuple) }
{
    let _ = dfa.states();
    let mut index = from.index;
    for mark in dfa.marks(from.state, byte) {
        if let Some(q) = dfa.next(from.state, *mark, byte) {
            let ways = after[q as usize];
            if index < ways {
                return Way {
                    state: q,
                    index,
                    tuple: from.tuple.with_mark(*mark, at),
                };
            }
            index -= ways;
        }
    }
    // `index` is less than the number of ways over the byte.
    unreachable!()
}

// The way behind a part, with the marks of its text. Of the answers with the same marks before a part, those with some mark in it
// come before those without. So the number of the former says whether there is one.
//
// The room has a number for each state and each level of the part's tree. It makes two table lookups at each pair whose text has
// a mark.
fn find<'a, L: Ledger>(
    input: &CountInput<'a>,
    here: &Part<'a>,
    from: &Way,
    after: &[u64],
    room: &mut [u64],
    looks: &mut Steps<L>,
) -> Way
    requires input { IsCountInput input.now }
    requires part { IsPart input.now here.now }
    requires state { from.now.state < states_of input.now.dfa.now }
    requires after { length after.now ≡ states_of input.now.dfa.now }
    requires index { from.now.index < number_over here.now.table.now from.now.state after.now }
    requires room { states_of input.now.dfa.now * height (tree_of input.now here.now) ≤ length room.old }
    ensures { Finds input.now here.now after.now from.now result looks.old looks.new }
{
    if let Some(to) = pass(here.table, from, after) {
        return to;
    }
    match here.node {
        Node::Byte(byte) => over_byte(input.dfa, byte, here.at, from, after),
        Node::Pair(l, r) => {
            let left = look(input, l, here.at, looks);
            let right = look(input, r, here.at + left.len, looks);
            let states = input.dfa.states() as usize;
            let (ways, deeper) = room.split_at_mut(states);
            fill_ways(ways, right.table, after);
            let middle = find(input, &left, from, ways, deeper, looks);
            find(input, &right, &middle, after, room, looks)
        }
    }
}

/// For each state how many marks may end a text in it.
pub(crate) fn ways_to_end(alloc: Global, dfa: &Dfa) -> Result<Vec<u64>, NoMemory>
    ensures long { IfOk result (λ ways. length ways.items ≡ states_of dfa.now) }
    ensures ways { IfOk result (λ ways. (q : ℕ) → q < states_of dfa.now → slice_index ways.items q ≡ stopped (endings dfa.now q)) }
{
    let states = dfa.states();
    let mut ways = Vec::with_capacity(alloc, states as usize)?;
    for q in 0..states {
        ways.push(dfa.ends(q).len() as u64)?;
    }
    Ok(ways)
}

// The tuple with the mark at the end of the text that the index says.
fn with_end(dfa: &Dfa, to: &Way, end: u64) -> Tuple
    requires state { to.now.state < states_of dfa.now }
    requires index { to.now.index < endings dfa.now to.now.state }
    requires positive { 1 ≤ end }
    requires low { end ≤ 281474976710657 }
    ensures { result ≡ write_mark (slice_index (ends_of dfa.now to.now.state) to.now.index) end to.now.tuple }
{
    let _ = dfa.states();
    let mark = dfa.ends(to.state)[to.index as usize];
    to.tuple.with_mark(mark, end)
}

/// Numbers for each state and each level of a tree.
pub(crate) fn room_for(alloc: Global, states: u16, height: u8) -> Result<Vec<u64>, NoMemory>
    ensures { IfOk result (λ room. length room.items ≡ states * height) }
{
    let mut room = Vec::new(alloc);
    room.resize(states as usize * height as usize, 0)?;
    Ok(room)
}

// The answer at an index on the text of a node.
fn nth_of<L: Ledger>(
    alloc: Global,
    input: &CountInput<'_>,
    id: NodeId,
    first: &Way,
    looks: &mut Steps<L>,
) -> Result<Option<Tuple>, NoMemory>
    requires input { IsCountInput input.now }
    requires live { id.index < count_of input.now.tables.now }
    requires state { first.now.state ≡ 0 }
    requires index { first.now.index < 2 ^ 64 - 2 }
    requires tuple { first.now.tuple ≡ blanks input.now.dfa.now.variables }
    ensures nth { IfOk result (IsNth input.now.dfa.now (text (tree input.now.store.now id.index)) (first.now.index + 1)) }
    ensures cost { looks.new ≤ looks.old + looks_limit input.now.dfa.now.variables (length (text (tree input.now.store.now id.index))) }
{
    let (_, states) = (input.store.count(), input.dfa.states());
    let after = ways_to_end(alloc, input.dfa)?;
    let mut room = room_for(alloc, states, input.store.height(id))?;
    let here = look(input, id, 1, looks);
    if here.table.all(first.state, &after) <= first.index {
        return Ok(None);
    }
    let to = find(input, &here, first, &after, &mut room, looks);
    Ok(Some(with_end(input.dfa, &to, here.len + 1)))
}

impl CountTables {
    /// The answer at the position `m` of the list of the automaton's answers on the text of the root, counted from 1, or none if
    /// there are fewer. The position is below `u64::MAX`.
    ///
    /// It makes at most B(k, n) table lookups, for k variables and a text of n bytes.
    ///
    /// # Errors
    ///
    /// `NoMemory` if allocation fails, for 8 bytes a state and level of the tree.
    pub fn nth<L: Ledger>(
        &self,
        alloc: Global,
        store: &Store,
        dfa: &Dfa,
        root: Option<NodeId>,
        m: u64,
        looks: &mut Steps<L>,
    ) -> Result<Option<Tuple>, NoMemory>
        requires counted { IsCounted dfa.now store.now self.now root }
        requires first { 1 ≤ m }
        requires last { m ≤ 2 ^ 64 - 2 }
        ensures nth { IfOk result (IsNth dfa.now (text_of store.now root) m) }
        ensures cost { looks.new ≤ looks.old + looks_limit dfa.now.variables (length (text_of store.now root)) }
    {
        let _ = dfa.states();
        let first = Way {
            state: 0,
            index: m - 1,
            tuple: Tuple::none(dfa.variables()),
        };
        match root {
            None => {
                if first.index < dfa.ends(0).len() as u64 {
                    Ok(Some(with_end(dfa, &first, 1)))
                } else {
                    Ok(None)
                }
            }
            Some(id) => {
                let input = CountInput {
                    tables: self,
                    store,
                    dfa,
                };
                nth_of(alloc, &input, id, &first, looks)
            }
        }
    }
}
