//! All new nodes get their tables, in the order of their ids or by rising height in pieces.

ghost use Rattle.marker_dfa.specs.Deterministic.{states_of};
ghost use Rattle.state_tables.specs.Dictionary.{AreTables, count_of, table_of};
ghost use Rattle.std.specs.Prelude.{◌≡◌, ℕ, ◌+◌, ◌-◌, ◌<◌, ◌≤◌, length, OnOk, OnErr};
ghost use Rattle.table_grow.specs.Filling.{AreDue, Assigns, Continues, IsFilled, IsFilledTo};
ghost use Rattle.table_grow.specs.Remembering.{AreTrueEntries};

use crate::filling::{Filling, Growth};
use crate::found::find;
use crate::layers::{HEIGHTS, Layers};
use crate::pieces::in_pieces;
use crate::place::{place_found, place_piece};
use marker_dfa::Dfa;
use node_store::{NodeId, Store};
use pair_memo::PairMemo;
use span_types::{NoMemory, Steps};
use state_tables::Tables;
use std::alloc::Global;
use std::sync::ledger::Ledger;
use std::thread::Threads;
use work_gate::Gate;

/// The number of nodes of a height that are worth a thread, if each has its share of rows to compose.
const MIN_NODES_PER_THREAD: usize = 512;

/// The number of rows that are composed in the time that it takes to start a thread, some 50 microseconds.
const MIN_ROWS_PER_THREAD: usize = 1 << 13;

/// At most this many new nodes are always cut in two while the cache is empty, so that a gate sees two threads on the
/// shortest texts.
const NODES_ALWAYS_CUT: usize = 8;

// The cost of the tables of this many nodes, in rows.
fn rows_of(dfa: &Dfa, nodes: usize) -> usize {
    nodes.saturating_mul(ROWS_PER_NODE.saturating_add(dfa.states() as usize))
}

// Whether this many nodes are processed in pieces while the cache is empty.
fn starts_in_pieces(dfa: &Dfa, nodes: usize) -> bool {
    nodes <= NODES_ALWAYS_CUT || rows_of(dfa, nodes) >= MIN_ROWS_PER_THREAD
}

// The number of pieces in which at most `count` nodes of one height are processed, of `nodes` in all heights. While the
// cache is empty each node may need a table of its own.
fn pieces_of(filling: &Filling, workers: u8, nodes: usize, count: usize) -> u8 {
    if filling.cached() != 0 {
        return workers.min((count / MIN_NODES_PER_THREAD).min(64) as u8);
    }
    if nodes <= NODES_ALWAYS_CUT {
        return workers.min(2);
    }
    workers.min((rows_of(filling.growth().dfa, count) / MIN_ROWS_PER_THREAD).min(64) as u8)
}

// Assigns tables to some new nodes in pieces.
fn place_some<R: Threads + Sync, G: Gate>(
    rt: &R,
    filling: &mut Filling,
    gate: &G,
    ids: &[NodeId],
    workers: u8,
) -> Result<(), NoMemory>
    requires due { AreDue filling.old ids.now }
    ensures continues { Continues filling.old filling.new }
    ensures all { OnOk result (Assigns filling.old filling.new ids.now) }
{
    let piece = in_pieces(rt, &filling.finder(), gate, ids, workers)?;
    place_piece(filling, ids, piece)
}

// Assigns tables to the nodes from `from` on and before `to`: with one worker in the order of their ids, on this thread,
// and otherwise by rising height, each height in pieces.
fn place_part<R: Threads + Sync, G: Gate>(
    rt: &R,
    filling: &mut Filling,
    gate: &G,
    workers: u8,
    from: usize,
    to: usize,
) -> Result<(), NoMemory>
    requires filled { IsFilledTo filling.old from }
    requires range { from ≤ to }
    requires live { to ≤ length filling.old.nodes }
    ensures continues { Continues filling.old filling.new }
    ensures filled { OnOk result (IsFilledTo filling.new to) }
{
    let Growth { alloc, store, .. } = filling.growth();
    if workers == 1 {
        for index in from..to {
            let id = NodeId { index };
            gate.pass(index);
            let found = find(filling, id)?;
            place_found(filling, id, found)?;
        }
        return Ok(());
    }
    let layers = Layers::new(alloc, store, from, to)?;
    for height in 0..HEIGHTS {
        let ids = layers.of_height(height);
        let pieces = pieces_of(filling, workers, to - from, ids.len());
        place_some(rt, filling, gate, ids, pieces)?;
    }
    Ok(())
}

/// The number of rows of new tables per node from which pieces pay. What a node costs besides its rows is as much.
const ROWS_PER_NODE: usize = 16;

// Whether this many new tables for this many nodes are worth pieces. If there are few, pieces would compose the same
// ones.
fn pays(dfa: &Dfa, fresh: usize, nodes: usize) -> bool {
    fresh.saturating_mul(dfa.states() as usize) >= nodes.saturating_mul(ROWS_PER_NODE)
}

/// The number of nodes that are processed on one thread before it is tested whether pieces pay.
const NODES_IN_ORDER: usize = 1 << 12;

/// The number of nodes that are processed in pieces before the next test, so that what is found for them takes little
/// memory.
const NODES_IN_PIECES: usize = 1 << 15;

// The number of nodes that are processed before the next test.
fn part_len(in_pieces: bool) -> usize
    ensures { 0 < result }
{
    if in_pieces {
        NODES_IN_PIECES
    } else {
        NODES_IN_ORDER
    }
}

// Assigns tables to all new nodes, some at a time. The first ones are processed in pieces if the cache is empty and they cost more
// than the start of a thread or are very few. The next ones are processed in pieces if enough of those before have a table
// that no node had.
fn place_new<R: Threads + Sync, G: Gate>(
    rt: &R,
    filling: &mut Filling,
    gate: &G,
    workers: u8,
) -> Result<(), NoMemory>
    requires { IsFilledTo filling.old filling.old.filler.known }
    ensures continues { Continues filling.old filling.new }
    ensures filled { OnOk result (IsFilled filling.new) }
{
    let Growth { store, dfa, .. } = filling.growth();
    let count = store.count();
    let mut from = filling.known();
    let mut most = NODES_IN_ORDER;
    let mut in_pieces = filling.cached() == 0 && starts_in_pieces(dfa, (count - from).min(most));
    while from < count {
        let to = from + (count - from).min(most);
        let at_once = if in_pieces { workers } else { 1 };
        let before = filling.distinct();
        place_part(rt, filling, gate, at_once, from, to)?;
        in_pieces = pays(dfa, filling.distinct().saturating_sub(before), to - from);
        most = part_len(in_pieces);
        from = to;
    }
    Ok(())
}

/// Computes the tables of all nodes of the store that have none. The tables are those of this automaton and of the
/// first nodes of this store, and every cached composition is true of them.
///
/// The nodes without a table are processed some at a time. In two cases they are processed by rising height, those of one
/// height in at most `workers` pieces at once, 1 to 64:
///
/// - many of those before have a table that no node had;
/// - the cache is empty, and they cost more than the start of a thread or are at most eight.
///
/// Otherwise, and with one worker, they are processed in the order of their ids. `gate.pass` is called for each of them before its table is
/// looked up in the cache or computed. Each counts as one step, and takes expected constant time if the composition is
/// cached.
///
/// # Errors
///
/// `NoMemory` if allocation fails: each node's table is then unchanged, and more tables may be kept. If allocation
/// fails only for an entry of the cache, no error is returned.
pub fn grow<R: Threads + Sync, G: Gate, L: Ledger>(
    rt: &R,
    alloc: Global,
    tables: &mut Tables,
    store: &Store,
    dfa: &Dfa,
    memory: &mut PairMemo,
    workers: u8,
    gate: &G,
    places: &mut Steps<L>,
) -> Result<(), NoMemory>
    requires some_workers { 1 ≤ workers }
    requires few_workers { workers ≤ 64 }
    requires covered { count_of tables.old ≤ length store.now }
    requires states { tables.old.states ≡ states_of dfa.now }
    requires true_tables { AreTables dfa.now store.now tables.old }
    requires true_entries { AreTrueEntries tables.old memory.old }
    ensures all { OnOk result (count_of tables.new ≡ length store.now) }
    ensures meaning { AreTables dfa.now store.now tables.new }
    ensures old { (id : ℕ) → id < count_of tables.old → table_of tables.new id ≡ table_of tables.old id }
    ensures err { OnErr result (tables.new.numbers ≡ tables.old.numbers) }
    ensures entries { AreTrueEntries tables.new memory.new }
    ensures states { tables.new.states ≡ tables.old.states }
    ensures steps_ok { OnOk result (places.new ≡ places.old + (length store.now - count_of tables.old)) }
    ensures steps_err { OnErr result (places.new ≡ places.old) }
{
    let _ = tables.count();
    let mut filling = Filling::open(Growth { alloc, store, dfa }, tables, memory)?;
    let done = place_new(rt, &mut filling, gate, workers);
    filling.close(done, tables, memory, places)
}
