//! Counting tables of new nodes.

ghost use Rattle.count_tables.specs.Ahead.{AreFound, HasTable};
ghost use Rattle.count_tables.specs.Dictionary.{AreKept, AreNodeTables};
ghost use Rattle.count_tables.specs.Remembered.{AreTrueEntries, Extends};
ghost use Rattle.marker_dfa.specs.Deterministic.{states_of};
ghost use Rattle.path_counts.specs.Counting.{IsComposed, IsCountTable, IsCountTableOf};
ghost use Rattle.std.specs.Prelude.{◌≡◌, ℕ, suc, ◌+◌, ◌-◌, ◌<◌, ◌≤◌, [], ◌∷◌, length, slice_index_or, take, IfOk, OnOk, OnErr};

use crate::ahead::{MIN_ROWS_PER_THREAD, NODES_ALWAYS_CUT, find_ahead};
use crate::tables::TableSet;
use marker_dfa::Dfa;
use node_store::{Node, NodeId, Store};
use pair_memo::PairMemo;
use path_counts::{CountTable, compose, of_byte};
use span_types::{NoMemory, Steps};
use std::alloc::Global;
use std::sync::ledger::Ledger;
use std::thread::Threads;
use work_gate::Gate;

// The maximum number of kept tables, so that a number takes 32 bits.
const MAX_TABLES: usize = (1 << 32) - 1;

// The number of the table among the kept ones. It is added last if no equal one is there.
fn keep(kept: &mut TableSet, table: CountTable, states: u16) -> Result<usize, NoMemory>
    requires kept { AreKept states kept.old }
    requires table { IsCountTableOf states table }
    ensures number { IfOk result (λ n. (n < length kept.new) × (slice_index_or kept.new n [] ≡ table)) }
    ensures kept { AreKept states kept.new }
    ensures extends { Extends kept.old kept.new }
    ensures err { OnErr result (kept.new ≡ kept.old) }
{
    let _ = states;
    if kept.len() >= MAX_TABLES {
        return Err(NoMemory);
    }
    kept.insert(table)
}

/// Keeps a composition of two kept tables, caches it, and returns its number.
pub(crate) fn keep_composed(
    kept: &mut TableSet,
    memo: &mut PairMemo,
    states: u16,
    left: usize,
    right: usize,
    table: CountTable,
) -> Result<usize, NoMemory>
    requires kept { AreKept states kept.old }
    requires left { left < length kept.old }
    requires right { right < length kept.old }
    requires entries { AreTrueEntries kept.old memo.old }
    requires shape { IsCountTableOf states table }
    requires composed { IsComposed (slice_index_or kept.old left []) (slice_index_or kept.old right []) table }
    ensures number { IfOk result (λ n. (n < length kept.new) × (slice_index_or kept.new n [] ≡ table)) }
    ensures kept { AreKept states kept.new }
    ensures extends { Extends kept.old kept.new }
    ensures entries { AreTrueEntries kept.new memo.new }
{
    let number = keep(kept, table, states)?;
    memo.note(left, right, number);
    Ok(number)
}

// The number of the composition of two kept tables, which is cached or computed.
fn composed(
    alloc: Global,
    kept: &mut TableSet,
    memo: &mut PairMemo,
    states: u16,
    left: usize,
    right: usize,
) -> Result<usize, NoMemory>
    requires kept { AreKept states kept.old }
    requires left { left < length kept.old }
    requires right { right < length kept.old }
    requires entries { AreTrueEntries kept.old memo.old }
    ensures number { IfOk result (λ n. (n < length kept.new) × IsComposed (slice_index_or kept.old left []) (slice_index_or kept.old right []) (slice_index_or kept.new n [])) }
    ensures kept { AreKept states kept.new }
    ensures extends { Extends kept.old kept.new }
    ensures entries { AreTrueEntries kept.new memo.new }
{
    if let Some(number) = memo.find(left, right) {
        return Ok(number);
    }
    let table = compose(alloc, kept.at(left), kept.at(right))?;
    keep_composed(kept, memo, states, left, right, table)
}

/// What tables are computed for, in at most how many pieces at once, and the gate that observes it.
#[derive(Drop)]
pub(crate) struct Growth<'a, R, G> {
    pub(crate) rt: &'a R,
    pub(crate) gate: &'a G,
    pub(crate) workers: u8,
    pub(crate) alloc: Global,
    pub(crate) store: &'a Store,
    pub(crate) dfa: &'a Dfa,
}

/// The number of the table of a byte.
pub(crate) fn byte_number<R, G>(
    growth: &Growth<'_, R, G>,
    kept: &mut TableSet,
    byte: u8,
) -> Result<usize, NoMemory>
    requires kept { AreKept (states_of growth.now.dfa.now) kept.old }
    ensures number { IfOk result (λ n. (n < length kept.new) × IsCountTable growth.now.dfa.now (byte ∷ []) (slice_index_or kept.new n [])) }
    ensures kept { AreKept (states_of growth.now.dfa.now) kept.new }
    ensures extends { Extends kept.old kept.new }
{
    let table = of_byte(growth.alloc, growth.dfa, byte)?;
    keep(kept, table, growth.dfa.states())
}

// The number of the table of the first node without one, whose children have theirs.
fn number_of<R, G: Gate>(
    growth: &Growth<'_, R, G>,
    kept: &mut TableSet,
    memo: &mut PairMemo,
    numbers: &[u32],
) -> Result<usize, NoMemory>
    requires kept { AreKept (states_of growth.now.dfa.now) kept.old }
    requires entries { AreTrueEntries kept.old memo.old }
    requires tables { AreNodeTables growth.now.dfa.now growth.now.store.now kept.old numbers.now }
    requires live { length numbers.now < length growth.now.store.now }
    ensures number { IfOk result (HasTable growth.now.dfa.now growth.now.store.now kept.new (length numbers.now)) }
    ensures kept { AreKept (states_of growth.now.dfa.now) kept.new }
    ensures extends { Extends kept.old kept.new }
    ensures entries { AreTrueEntries kept.new memo.new }
{
    let id = NodeId {
        index: numbers.len(),
    };
    growth.gate.pass(id.index);
    match growth.store.node(id) {
        Node::Byte(byte) => byte_number(growth, kept, byte),
        Node::Pair(left, right) => {
            let states = growth.dfa.states();
            let (left, right) = (numbers[left.index] as usize, numbers[right.index] as usize);
            composed(growth.alloc, kept, memo, states, left, right)
        }
    }
}

// Assigns to the next nodes their numbers, in the order of their ids.
fn place_in_order<R, G: Gate>(
    growth: &Growth<'_, R, G>,
    kept: &mut TableSet,
    memo: &mut PairMemo,
    numbers: &mut Vec<u32>,
    nodes: usize,
) -> Result<(), NoMemory>
    requires kept { AreKept (states_of growth.now.dfa.now) kept.old }
    requires entries { AreTrueEntries kept.old memo.old }
    requires tables { AreNodeTables growth.now.dfa.now growth.now.store.now kept.old numbers.old.items }
    requires live { length numbers.old.items + nodes ≤ length growth.now.store.now }
    ensures all { OnOk result (length numbers.new.items ≡ length numbers.old.items + nodes) }
    ensures tables { AreNodeTables growth.now.dfa.now growth.now.store.now kept.new numbers.new.items }
    ensures prefix { take (length numbers.old.items) numbers.new.items ≡ numbers.old.items }
    ensures kept { AreKept (states_of growth.now.dfa.now) kept.new }
    ensures extends { Extends kept.old kept.new }
    ensures entries { AreTrueEntries kept.new memo.new }
{
    numbers.reserve(nodes)?;
    for _node in 0..nodes {
        let number = number_of(growth, kept, memo, numbers)?;
        numbers.push_reserved(number as u32);
    }
    Ok(())
}

// Assigns to the next node its number. An entry that isn't 0 is one more than it.
fn place_next<R, G: Gate>(
    growth: &Growth<'_, R, G>,
    kept: &mut TableSet,
    memo: &mut PairMemo,
    numbers: &mut Vec<u32>,
    entry: u32,
) -> Result<(), NoMemory>
    requires kept { AreKept (states_of growth.now.dfa.now) kept.old }
    requires entries { AreTrueEntries kept.old memo.old }
    requires tables { AreNodeTables growth.now.dfa.now growth.now.store.now kept.old numbers.old.items }
    requires live { length numbers.old.items < length growth.now.store.now }
    requires entry { (n : ℕ) → entry ≡ suc n → HasTable growth.now.dfa.now growth.now.store.now kept.old (length numbers.old.items) n }
    ensures one { OnOk result (length numbers.new.items ≡ length numbers.old.items + 1) }
    ensures tables { AreNodeTables growth.now.dfa.now growth.now.store.now kept.new numbers.new.items }
    ensures prefix { take (length numbers.old.items) numbers.new.items ≡ numbers.old.items }
    ensures kept { AreKept (states_of growth.now.dfa.now) kept.new }
    ensures extends { Extends kept.old kept.new }
    ensures entries { AreTrueEntries kept.new memo.new }
{
    match entry.checked_sub(1) {
        Some(number) => {
            numbers.push(number)?;
            Ok(())
        }
        None => place_in_order(growth, kept, memo, numbers, 1),
    }
}

// Assigns to the next nodes their numbers. The tables of those with an entry of 0 are computed.
fn place_found<R, G: Gate>(
    growth: &Growth<'_, R, G>,
    kept: &mut TableSet,
    memo: &mut PairMemo,
    numbers: &mut Vec<u32>,
    found: &[u32],
) -> Result<(), NoMemory>
    requires found { AreFound growth.now.dfa.now growth.now.store.now kept.old numbers.old.items found.now }
    requires entries { AreTrueEntries kept.old memo.old }
    ensures all { OnOk result (length numbers.new.items ≡ length numbers.old.items + length found.now) }
    ensures tables { AreNodeTables growth.now.dfa.now growth.now.store.now kept.new numbers.new.items }
    ensures prefix { take (length numbers.old.items) numbers.new.items ≡ numbers.old.items }
    ensures kept { AreKept (states_of growth.now.dfa.now) kept.new }
    ensures extends { Extends kept.old kept.new }
    ensures entries { AreTrueEntries kept.new memo.new }
{
    for entry in found {
        place_next(growth, kept, memo, numbers, *entry)?;
    }
    Ok(())
}

/// The maximum number of cached compositions.
pub(crate) const REMEMBERED: usize = 1 << 16;

// The entries of the next nodes: one more than the numbers of their tables, or 0.
fn found_for<R: Threads + Sync, G: Gate>(
    growth: &Growth<'_, R, G>,
    kept: &mut TableSet,
    memo: &mut PairMemo,
    numbers: &[u32],
    nodes: usize,
) -> Result<Vec<u32>, NoMemory>
    requires kept { AreKept (states_of growth.now.dfa.now) kept.old }
    requires entries { AreTrueEntries kept.old memo.old }
    requires tables { AreNodeTables growth.now.dfa.now growth.now.store.now kept.old numbers.now }
    requires live { length numbers.now + nodes ≤ length growth.now.store.now }
    ensures found { IfOk result (λ found. AreFound growth.now.dfa.now growth.now.store.now kept.new numbers.now found.items) }
    ensures long { IfOk result (λ found. length found.items ≡ nodes) }
    ensures kept { AreKept (states_of growth.now.dfa.now) kept.new }
    ensures extends { Extends kept.old kept.new }
    ensures entries { AreTrueEntries kept.new memo.new }
{
    let mut found = Vec::new(growth.alloc);
    found.resize(nodes, 0)?;
    find_ahead(growth, kept, memo, numbers, &mut found)?;
    Ok(found)
}

// Assigns to the next nodes their numbers. With `ahead` missing compositions are computed first, in pieces.
fn place_part<R: Threads + Sync, G: Gate>(
    growth: &Growth<'_, R, G>,
    kept: &mut TableSet,
    memo: &mut PairMemo,
    numbers: &mut Vec<u32>,
    nodes: usize,
    ahead: bool,
) -> Result<(), NoMemory>
    requires kept { AreKept (states_of growth.now.dfa.now) kept.old }
    requires entries { AreTrueEntries kept.old memo.old }
    requires tables { AreNodeTables growth.now.dfa.now growth.now.store.now kept.old numbers.old.items }
    requires live { length numbers.old.items + nodes ≤ length growth.now.store.now }
    ensures all { OnOk result (length numbers.new.items ≡ length numbers.old.items + nodes) }
    ensures tables { AreNodeTables growth.now.dfa.now growth.now.store.now kept.new numbers.new.items }
    ensures prefix { take (length numbers.old.items) numbers.new.items ≡ numbers.old.items }
    ensures kept { AreKept (states_of growth.now.dfa.now) kept.new }
    ensures extends { Extends kept.old kept.new }
    ensures entries { AreTrueEntries kept.new memo.new }
{
    if !ahead {
        return place_in_order(growth, kept, memo, numbers, nodes);
    }
    let found = found_for(growth, kept, memo, numbers, nodes)?;
    place_found(growth, kept, memo, numbers, &found)
}

// Whether this many nodes are taken in pieces while the cache is empty, so that each of them may need a composition.
fn starts_ahead(dfa: &Dfa, nodes: usize) -> bool {
    nodes <= NODES_ALWAYS_CUT || nodes.saturating_mul(dfa.states() as usize) >= MIN_ROWS_PER_THREAD
}

/// The number of composed rows per node from which pieces pay. What a node costs in pieces, besides its rows, is half as much.
const ROWS_PER_NODE: usize = 4;

// Whether this many compositions for this many nodes are worth pieces.
fn pays(dfa: &Dfa, composed: usize, nodes: usize) -> bool {
    composed.saturating_mul(dfa.states() as usize) >= nodes.saturating_mul(ROWS_PER_NODE)
}

/// The number of nodes that are taken on one thread before it is tested whether pieces pay.
const NODES_IN_ORDER: usize = 1 << 12;

/// The number of nodes that are taken in pieces before the next test. A cache has room for twice as many compositions.
const NODES_IN_PIECES: usize = 1 << 15;

// The number of nodes before the next test.
fn part_len(ahead: bool) -> usize
    ensures { 0 < result }
{
    if ahead {
        NODES_IN_PIECES
    } else {
        NODES_IN_ORDER
    }
}

// Assigns to each node without a table its number, some nodes at a time. With two workers or more, the first ones are taken in
// pieces if the cache is empty and they cost more than the start of a thread or are very few. The next ones are if enough
// compositions were computed for those before.
fn place_new<R: Threads + Sync, G: Gate>(
    growth: &Growth<'_, R, G>,
    kept: &mut TableSet,
    memo: &mut PairMemo,
    numbers: &mut Vec<u32>,
) -> Result<(), NoMemory>
    requires kept { AreKept (states_of growth.now.dfa.now) kept.old }
    requires entries { AreTrueEntries kept.old memo.old }
    requires tables { AreNodeTables growth.now.dfa.now growth.now.store.now kept.old numbers.old.items }
    requires covered { length numbers.old.items ≤ length growth.now.store.now }
    ensures all { OnOk result (length numbers.new.items ≡ length growth.now.store.now) }
    ensures tables { AreNodeTables growth.now.dfa.now growth.now.store.now kept.new numbers.new.items }
    ensures prefix { take (length numbers.old.items) numbers.new.items ≡ numbers.old.items }
    ensures kept { AreKept (states_of growth.now.dfa.now) kept.new }
    ensures extends { Extends kept.old kept.new }
    ensures entries { AreTrueEntries kept.new memo.new }
{
    let count = growth.store.count();
    let mut most = NODES_IN_ORDER;
    let mut ahead = memo.len() == 0 && starts_ahead(growth.dfa, (count - numbers.len()).min(most));
    while numbers.len() < count {
        let nodes = (count - numbers.len()).min(most);
        let before = kept.len();
        place_part(
            growth,
            kept,
            memo,
            numbers,
            nodes,
            ahead && growth.workers > 1,
        )?;
        ahead = pays(growth.dfa, kept.len().saturating_sub(before), nodes);
        most = part_len(ahead);
    }
    Ok(())
}

// Counts `count` steps.
fn count_steps<L: Ledger>(places: &mut Steps<L>, steps: usize)
    ensures { places.new ≡ places.old + steps }
{
    for _step in 0..steps {
        places.tick();
    }
}

/// Assigns to each node without a table its number, in one step each.
///
/// # Errors
///
/// `NoMemory` if allocation fails. Then no node has a new number.
pub(crate) fn grow<R: Threads + Sync, G: Gate, L: Ledger>(
    growth: &Growth<'_, R, G>,
    kept: &mut TableSet,
    memo: &mut PairMemo,
    numbers: &mut Vec<u32>,
    places: &mut Steps<L>,
) -> Result<(), NoMemory>
    requires kept { AreKept (states_of growth.now.dfa.now) kept.old }
    requires entries { AreTrueEntries kept.old memo.old }
    requires tables { AreNodeTables growth.now.dfa.now growth.now.store.now kept.old numbers.old.items }
    requires covered { length numbers.old.items ≤ length growth.now.store.now }
    ensures all { OnOk result (length numbers.new.items ≡ length growth.now.store.now) }
    ensures tables { AreNodeTables growth.now.dfa.now growth.now.store.now kept.new numbers.new.items }
    ensures prefix { take (length numbers.old.items) numbers.new.items ≡ numbers.old.items }
    ensures err { OnErr result (numbers.new.items ≡ numbers.old.items) }
    ensures kept { AreKept (states_of growth.now.dfa.now) kept.new }
    ensures extends { Extends kept.old kept.new }
    ensures entries { AreTrueEntries kept.new memo.new }
    ensures steps_ok { OnOk result (places.new ≡ places.old + (length growth.now.store.now - length numbers.old.items)) }
    ensures steps_err { OnErr result (places.new ≡ places.old) }
{
    let known = numbers.len();
    match place_new(growth, kept, memo, numbers) {
        Ok(()) => {
            count_steps(places, numbers.len() - known);
            Ok(())
        }
        Err(error) => {
            numbers.truncate(known);
            Err(error)
        }
    }
}
