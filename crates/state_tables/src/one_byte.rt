//! The table of one byte.

ghost use Rattle.marker_dfa.specs.Deterministic.{IsDeterministic, next_of, states_of};
ghost use Rattle.state_tables.specs.Coded.{code_of, row_of};
ghost use Rattle.state_tables.specs.Meaning.{IsTable};
ghost use Rattle.state_tables.specs.StateSet.{number_of_words, single_of, word_count};
ghost use Rattle.state_tables.specs.Table.{byte_row};
ghost use Rattle.std.specs.Prelude.{◌≡◌, ◌<◌, ◌≤◌, ◌*◌, ◌==◌, [], ◌∷◌, length, bit_or, IfOk, IfSome, if◌then◌else◌};

use crate::partition::SharedPartition;
use crate::row_set::RowSet;
use crate::state_set::{add, clear};
use crate::table::Table;
use marker_dfa::Dfa;
use span_types::NoMemory;
use std::alloc::Global;

/// The table of one byte. It looks up the automaton's next state once for each state and each mark with a next state
/// there.
///
/// # Errors
///
/// `NoMemory` if allocation fails.
pub fn of_byte(alloc: Global, dfa: &Dfa, byte: u8) -> Result<Table, NoMemory>
    ensures { IfOk result (λ t. IsTable dfa.now (byte ∷ []) t) }
{
    let states = dfa.states();
    let width = word_count(states);
    let mut set = RowSet::with_capacity(alloc, width, states)?;
    let mut words = vec![in alloc; 0; width]?;
    let mut classes = Vec::with_capacity(alloc, states as usize)?;
    for p in 0..states {
        let code = byte_row(&mut words, dfa, p, byte);
        classes.push(set.index_with(code, &words)?)?;
    }
    let partition = SharedPartition::new(alloc, classes)?;
    Ok(Table::from_partition(partition, set))
}

// The number of words of a set of this many states.
fn word_count(states: u16) -> usize
    ensures { result ≡ word_count states }
{
    (states as usize).div_ceil(64)
}

// The row of the state over the byte: its words, and the code of its unmarked state.
fn byte_row(words: &mut [u64], dfa: &Dfa, p: u16, byte: u8) -> u16
    requires automaton { IsDeterministic dfa.now }
    requires state { p < states_of dfa.now }
    requires width { states_of dfa.now ≤ 64 * length words.old }
    ensures value { row_of result words.new ≡ byte_row dfa.now byte p }
    ensures width { length words.new ≡ length words.old }
{
    clear(words);
    for mark in dfa.marks(p, byte) {
        add_mark(words, dfa, p, byte, *mark);
    }
    coded(dfa.next(p, 0, byte))
}

// Adds the state that the mark reaches, if it isn't 0.
fn add_mark(words: &mut [u64], dfa: &Dfa, p: u16, byte: u8, mark: u16)
    requires automaton { IsDeterministic dfa.now }
    requires state { p < states_of dfa.now }
    requires width { states_of dfa.now ≤ 64 * length words.old }
    ensures value { number_of_words words.new ≡ bit_or (number_of_words words.old) (if mark == 0 then 0 else single_of (next_of dfa.now p mark byte)) }
    ensures width { length words.new ≡ length words.old }
{
    if let Some(q) = target(dfa, p, byte, mark) {
        add(words, q);
    }
}

// The state that the mark reaches, if it isn't 0.
fn target(dfa: &Dfa, p: u16, byte: u8, mark: u16) -> Option<u16>
    requires automaton { IsDeterministic dfa.now }
    requires state { p < states_of dfa.now }
    ensures value { single_of result ≡ (if mark == 0 then 0 else single_of (next_of dfa.now p mark byte)) }
    ensures within { IfSome result (λ q. q < states_of dfa.now) }
{
    if mark == 0 {
        None
    } else {
        dfa.next(p, mark, byte)
    }
}

// One more than the state, or 0 for none.
fn coded(step: Option<u16>) -> u16
    requires { IfSome step (λ q. q < 1024) }
    ensures { result ≡ code_of step }
{
    match step {
        Some(q) => q + 1,
        None => 0,
    }
}
