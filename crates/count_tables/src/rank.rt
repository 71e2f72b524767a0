//! How many answers come before a tuple.

ghost use Rattle.count_tables.specs.Dictionary.{count_of};
ghost use Rattle.count_tables.specs.Earlier.{IsEarlier, IsNumberBefore, greater_endings, number_to_end};
ghost use Rattle.count_tables.specs.Number.{IsCounted};
ghost use Rattle.count_tables.specs.Rank.{IsRank};
ghost use Rattle.count_tables.specs.TextIndex.{IsCountInput, IsPart, tree_of};
ghost use Rattle.marker_dfa.specs.Deterministic.{next_of, states_of};
ghost use Rattle.path_counts.specs.Counting.{onward_from};
ghost use Rattle.path_counts.specs.Paths.{stopped};
ghost use Rattle.slp_model.specs.Nodes.{text_of, tree};
ghost use Rattle.slp_model.specs.Tree.{height, text};
ghost use Rattle.span_types.specs.Fibonacci.{looks_limit};
ghost use Rattle.span_types.specs.Marks.{mark_of};
ghost use Rattle.std.specs.Prelude.{◌≡◌, ℕ, ◌+◌, ◌*◌, ◌<◌, ◌≤◌, [], ◌∷◌, true, false, length, IfOk, IfSome};

use crate::nth::{room_for, ways_to_end};
use crate::part::{CountInput, Part, fill_ways, look};
use crate::tables::CountTables;
use marker_dfa::Dfa;
use node_store::{Node, NodeId, Store};
use span_enum::is_marked_between;
use span_types::{NoMemory, Steps, Tuple, mark_at};
use std::alloc::Global;
use std::sync::ledger::Ledger;

/// Counting tables with their nodes, and a tuple.
#[derive(Clone, Copy)]
pub(crate) struct RankInput<'a> {
    pub(crate) counts: CountInput<'a>,
    pub(crate) tuple: &'a Tuple,
}

/// How many texts over a part come before the tuple's marks there, and the state after these marks, if they lead to one.
#[derive(Clone, Copy)]
pub(crate) struct Earlier {
    pub(crate) number: u64,
    pub(crate) state: Option<u16>,
}

// How many texts go on behind the mark and the byte.
fn ways_by(dfa: &Dfa, state: u16, mark: u16, byte: u8, after: &[u64]) -> u64
    requires state { state < states_of dfa.now }
    requires after { length after.now ≡ states_of dfa.now }
    ensures { result ≡ onward_from (next_of dfa.now state mark byte) after.now }
{
    let _ = dfa.states();
    match dfa.next(state, mark, byte) {
        Some(q) => after[q as usize],
        None => 0,
    }
}

// How many texts over one byte come before the tuple's mark there, which are those with a greater mark, and the state behind it.
fn over_byte(dfa: &Dfa, byte: u8, mark: u16, state: u16, after: &[u64]) -> Earlier
    requires state { state < states_of dfa.now }
    requires after { length after.now ≡ states_of dfa.now }
    ensures { IsNumberBefore dfa.now (byte ∷ []) state after.now ((mark, byte) ∷ []) result.number result.state }
{
    let _ = dfa.states();
    let mut number = 0u64;
    for other in dfa.marks(state, byte) {
        if *other > mark {
            number = number.saturating_add(ways_by(dfa, state, *other, byte, after));
        }
    }
    Earlier {
        number,
        state: dfa.next(state, mark, byte),
    }
}

// How many texts over a part come before the tuple's marks there, and the state behind them. If the tuple has no mark there, these
// are the texts with some mark. Where no run follows its marks, what was counted up to there is all.
//
// The room has a number for each state and each level of the part's tree. It makes two table lookups at each pair in which the tuple
// has a mark.
fn over_part<'a, L: Ledger>(
    input: &RankInput<'a>,
    here: &Part<'a>,
    state: u16,
    after: &[u64],
    room: &mut [u64],
    looks: &mut Steps<L>,
) -> Earlier
    requires input { IsCountInput input.now.counts }
    requires part { IsPart input.now.counts here.now }
    requires state { state < states_of input.now.counts.dfa.now }
    requires after { length after.now ≡ states_of input.now.counts.dfa.now }
    requires room { states_of input.now.counts.dfa.now * height (tree_of input.now.counts here.now) ≤ length room.old }
    ensures { IsEarlier input.now here.now state after.now result looks.old looks.new }
{
    if !is_marked_between(input.tuple, here.at, here.at + here.len) {
        return Earlier {
            number: here.table.marked(state, after),
            state: here.table.unmarked(state),
        };
    }
    let counts = &input.counts;
    match here.node {
        Node::Byte(byte) => over_byte(
            counts.dfa,
            byte,
            mark_at(input.tuple, here.at),
            state,
            after,
        ),
        Node::Pair(l, r) => {
            let left = look(counts, l, here.at, looks);
            let right = look(counts, r, here.at + left.len, looks);
            let states = counts.dfa.states() as usize;
            let (ways, deeper) = room.split_at_mut(states);
            fill_ways(ways, right.table, after);
            let first = over_part(input, &left, state, ways, deeper, looks);
            let Some(middle) = first.state else {
                return first;
            };
            let second = over_part(input, &right, middle, after, room, looks);
            Earlier {
                number: first.number.saturating_add(second.number),
                state: second.state,
            }
        }
    }
}

// How many marks greater than this one may end a text in the state.
fn greater_ends(dfa: &Dfa, state: u16, mark: u16) -> u64
    requires { state < states_of dfa.now }
    ensures { result ≡ greater_endings dfa.now state mark }
{
    let _ = dfa.states();
    let ends = dfa.ends(state);
    ends.iter().filter(|end| **end > mark).count() as u64
}

// Adds the texts that have the tuple's marks up to the end, and a greater mark there.
fn to_end(dfa: &Dfa, earlier: Earlier, tuple: &Tuple, end: u64) -> u64
    requires { IfSome earlier.state (λ q. q < states_of dfa.now) }
    ensures { result ≡ stopped (number_to_end dfa.now earlier.number earlier.state (mark_of tuple.now end)) }
{
    match earlier.state {
        Some(q) => earlier
            .number
            .saturating_add(greater_ends(dfa, q, mark_at(tuple, end))),
        None => earlier.number,
    }
}

// How many answers on the text of a node come before the tuple.
fn rank_of<L: Ledger>(
    alloc: Global,
    input: &RankInput<'_>,
    id: NodeId,
    looks: &mut Steps<L>,
) -> Result<u64, NoMemory>
    requires input { IsCountInput input.now.counts }
    requires live { id.index < count_of input.now.counts.tables.now }
    requires tuple { length input.now.tuple.now ≡ input.now.counts.dfa.now.variables }
    ensures rank { IfOk result (IsRank input.now.counts.dfa.now (text (tree input.now.counts.store.now id.index)) input.now.tuple.now) }
    ensures cost { looks.new ≤ looks.old + looks_limit input.now.counts.dfa.now.variables (length (text (tree input.now.counts.store.now id.index))) }
{
    let counts = &input.counts;
    let (_, states, _) = (
        counts.store.count(),
        counts.dfa.states(),
        input.tuple.count(),
    );
    let after = ways_to_end(alloc, counts.dfa)?;
    let mut room = room_for(alloc, states, counts.store.height(id))?;
    let here = look(counts, id, 1, looks);
    let earlier = over_part(input, &here, 0, &after, &mut room, looks);
    Ok(to_end(counts.dfa, earlier, input.tuple, here.len + 1))
}

impl CountTables {
    /// How many of the automaton's answers on the text of the root come before the tuple in mark order. `u64::MAX` stands for
    /// itself and for every greater number. The tuple has the automaton's variables and may have bounds past the text.
    ///
    /// It makes at most B(k, n) table lookups, for k variables and a text of n bytes.
    ///
    /// # Errors
    ///
    /// `NoMemory` if allocation fails, for 8 bytes a state and level of the tree.
    pub fn rank<L: Ledger>(
        &self,
        alloc: Global,
        store: &Store,
        dfa: &Dfa,
        root: Option<NodeId>,
        tuple: &Tuple,
        looks: &mut Steps<L>,
    ) -> Result<u64, NoMemory>
        requires counted { IsCounted dfa.now store.now self.now root }
        requires tuple { length tuple.now ≡ dfa.now.variables }
        ensures rank { IfOk result (IsRank dfa.now (text_of store.now root) tuple.now) }
        ensures cost { looks.new ≤ looks.old + looks_limit dfa.now.variables (length (text_of store.now root)) }
    {
        let (_, _) = (dfa.states(), tuple.count());
        match root {
            None => Ok(greater_ends(dfa, 0, mark_at(tuple, 1))),
            Some(id) => {
                let counts = CountInput {
                    tables: self,
                    store,
                    dfa,
                };
                rank_of(alloc, &RankInput { counts, tuple }, id, looks)
            }
        }
    }
}
