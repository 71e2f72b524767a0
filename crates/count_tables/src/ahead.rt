//! The tables of new nodes, found before the nodes get their numbers. So tables that don't depend on each other are computed at
//! once.

ghost use Rattle.count_tables.specs.Ahead.{AreFound, IsJob, IsMade, IsPushed, IsStage, number_in};
ghost use Rattle.count_tables.specs.Remembered.{AreTrueEntries, Extends};
ghost use Rattle.std.specs.Prelude.{◌≡◌, ◌+◌, ◌<◌, ◌^◌, All, length, slice_set, IfOk, IfSome, OnOk};

use crate::growth::{Growth, byte_number, keep_composed};
use crate::pieces::{Job, Made, in_pieces};
use crate::tables::TableSet;
use node_store::{Node, NodeId};
use pair_memo::PairMemo;
use span_types::NoMemory;
use std::thread::Threads;
use work_gate::Gate;

/// What is known of the table of a pair.
#[derive(Clone, Copy)]
pub enum Stage {
    /// It is kept under this number.
    Found(usize),
    /// The children's tables are known, and their composition isn't cached.
    Due(Job),
    /// The table of a child isn't known.
    Waits,
}

// The number of the node's table, if the node has one or it was found.
fn number_of_child(numbers: &[u32], found: &[u32], id: NodeId) -> Option<usize>
    ensures { result ≡ number_in numbers.now found.now id.index }
{
    if id.index < numbers.len() {
        return Some(numbers[id.index] as usize);
    }
    match found.get(id.index - numbers.len()) {
        Some(entry) => match entry.checked_sub(1) {
            Some(number) => Some(number as usize),
            None => None,
        },
        None => None,
    }
}

// What is known of the table of the pair of these children.
fn stage_of(
    memo: &mut PairMemo,
    numbers: &[u32],
    found: &[u32],
    node: usize,
    left: NodeId,
    right: NodeId,
) -> Stage
    ensures stage { IsStage memo.old numbers.now found.now node left right result }
    ensures same { memo.new ≡ memo.old }
{
    let first = number_of_child(numbers, found, left);
    let second = number_of_child(numbers, found, right);
    match (first, second) {
        (Some(left), Some(right)) => match memo.find(left, right) {
            Some(number) => Stage::Found(number),
            None => Stage::Due(Job { node, left, right }),
        },
        _ => Stage::Waits,
    }
}

// Writes the number of a kept table to an entry.
fn set(found: &mut [u32], kept: &TableSet, index: usize, number: usize)
    requires low { length kept.now < 2 ^ 32 }
    requires kept { number < length kept.now }
    requires index { index < length found.old }
    ensures { found.new ≡ slice_set found.old index (number + 1) }
{
    let _ = kept.len();
    found[index] = number as u32 + 1;
}

// Finds the table of a new byte.
fn find_byte<R, G: Gate>(
    growth: &Growth<'_, R, G>,
    kept: &mut TableSet,
    numbers: &[u32],
    found: &mut [u32],
    index: usize,
) -> Result<(), NoMemory>
    requires found { AreFound growth.now.dfa.now growth.now.store.now kept.old numbers.now found.old }
    requires index { index < length found.old }
    ensures found { AreFound growth.now.dfa.now growth.now.store.now kept.new numbers.now found.new }
    ensures extends { Extends kept.old kept.new }
{
    let id = NodeId {
        index: numbers.len() + index,
    };
    if let Node::Byte(byte) = growth.store.node(id) {
        growth.gate.pass(id.index);
        let number = byte_number(growth, kept, byte)?;
        set(found, kept, index, number);
    }
    Ok(())
}

// Finds the tables of the new bytes.
fn find_bytes<R, G: Gate>(
    growth: &Growth<'_, R, G>,
    kept: &mut TableSet,
    numbers: &[u32],
    found: &mut [u32],
) -> Result<(), NoMemory>
    requires found { AreFound growth.now.dfa.now growth.now.store.now kept.old numbers.now found.old }
    ensures found { AreFound growth.now.dfa.now growth.now.store.now kept.new numbers.now found.new }
    ensures extends { Extends kept.old kept.new }
{
    for index in 0..found.len() {
        find_byte(growth, kept, numbers, found, index)?;
    }
    Ok(())
}

// Adds a composition to those to compute, unless `due` has its two tables. Then it has them.
fn push_due(due: &mut PairMemo, jobs: &mut Vec<Job>, job: Job) -> Result<(), NoMemory>
    ensures { OnOk result (IsPushed due.old jobs.old.items jobs.new.items job) }
{
    if due.find(job.left, job.right).is_none() {
        due.note(job.left, job.right, jobs.len());
        jobs.push(job)?;
    }
    Ok(())
}

// Finds the table of a new node if it isn't found, and the node is a pair whose composition is cached. Returns the composition if it
// isn't cached, and the children's tables are known.
fn look_up<R, G: Gate>(
    growth: &Growth<'_, R, G>,
    kept: &TableSet,
    memo: &mut PairMemo,
    numbers: &[u32],
    found: &mut [u32],
    index: usize,
) -> Option<Job>
    requires found { AreFound growth.now.dfa.now growth.now.store.now kept.now numbers.now found.old }
    requires entries { AreTrueEntries kept.now memo.old }
    requires index { index < length found.old }
    ensures found { AreFound growth.now.dfa.now growth.now.store.now kept.now numbers.now found.new }
    ensures job { IfSome result (IsJob growth.now.dfa.now growth.now.store.now kept.now (length numbers.now) (length found.old)) }
    ensures same { memo.new ≡ memo.old }
{
    if found[index] != 0 {
        return None;
    }
    let _ = growth.dfa.states();
    let id = NodeId {
        index: numbers.len() + index,
    };
    match growth.store.node(id) {
        Node::Byte(_) => None,
        Node::Pair(left, right) => {
            match stage_of(memo, numbers, found, id.index, left, right) {
                Stage::Found(number) => {
                    growth.gate.pass(id.index);
                    set(found, kept, index, number);
                    None
                }
                Stage::Due(job) => Some(job),
                Stage::Waits => None,
            }
        }
    }
}

// The maximum number of pairs of tables that are kept apart while compositions are collected.
const MAX_PENDING: usize = 1 << 16;

// Finds the tables of the pairs whose compositions are cached, and collects the others for which the children's tables are known.
fn collect_due<R, G: Gate>(
    growth: &Growth<'_, R, G>,
    kept: &TableSet,
    memo: &mut PairMemo,
    numbers: &[u32],
    found: &mut [u32],
) -> Result<Vec<Job>, NoMemory>
    requires found { AreFound growth.now.dfa.now growth.now.store.now kept.now numbers.now found.old }
    requires entries { AreTrueEntries kept.now memo.old }
    ensures found { AreFound growth.now.dfa.now growth.now.store.now kept.now numbers.now found.new }
    ensures jobs { IfOk result (λ jobs. All (IsJob growth.now.dfa.now growth.now.store.now kept.now (length numbers.now) (length found.old)) jobs.items) }
    ensures same { memo.new ≡ memo.old }
{
    let mut due = PairMemo::new(growth.alloc, MAX_PENDING)?;
    let mut jobs = Vec::new(growth.alloc);
    for index in 0..found.len() {
        if let Some(job) = look_up(growth, kept, memo, numbers, found, index) {
            push_due(&mut due, &mut jobs, job)?;
        }
    }
    Ok(jobs)
}

// Keeps and caches a composition, and finds the table of its node.
fn keep_one<R, G>(
    growth: &Growth<'_, R, G>,
    kept: &mut TableSet,
    memo: &mut PairMemo,
    numbers: &[u32],
    found: &mut [u32],
    one: Made,
) -> Result<(), NoMemory>
    requires found { AreFound growth.now.dfa.now growth.now.store.now kept.old numbers.now found.old }
    requires entries { AreTrueEntries kept.old memo.old }
    requires job { IsJob growth.now.dfa.now growth.now.store.now kept.old (length numbers.now) (length found.old) one.job }
    requires made { IsMade kept.old one }
    ensures found { AreFound growth.now.dfa.now growth.now.store.now kept.new numbers.now found.new }
    ensures entries { AreTrueEntries kept.new memo.new }
    ensures extends { Extends kept.old kept.new }
{
    let states = growth.dfa.states();
    let Made { job, table } = one;
    let number = keep_composed(kept, memo, states, job.left, job.right, table)?;
    set(found, kept, job.node - numbers.len(), number);
    Ok(())
}

// Keeps and caches compositions, and finds the tables of their nodes.
fn keep_all<R, G>(
    growth: &Growth<'_, R, G>,
    kept: &mut TableSet,
    memo: &mut PairMemo,
    numbers: &[u32],
    found: &mut [u32],
    made: Vec<Made>,
) -> Result<(), NoMemory>
    requires found { AreFound growth.now.dfa.now growth.now.store.now kept.old numbers.now found.old }
    requires entries { AreTrueEntries kept.old memo.old }
    requires jobs { All (λ m. IsJob growth.now.dfa.now growth.now.store.now kept.old (length numbers.now) (length found.old) m.job) made.items }
    requires made { All (IsMade kept.old) made.items }
    ensures found { AreFound growth.now.dfa.now growth.now.store.now kept.new numbers.now found.new }
    ensures entries { AreTrueEntries kept.new memo.new }
    ensures extends { Extends kept.old kept.new }
{
    for one in made {
        keep_one(growth, kept, memo, numbers, found, one)?;
    }
    Ok(())
}

/// The number of rows that are composed in the time that it takes to start a thread, some 50 microseconds, and more.
pub(crate) const MIN_ROWS_PER_THREAD: usize = 1 << 9;

/// At most this many new nodes are always cut in two, so that a gate sees two threads on the shortest texts.
pub(crate) const NODES_ALWAYS_CUT: usize = 8;

// The number of pieces in which this many compositions are computed, for some new nodes.
fn pieces_of(workers: u8, states: u16, jobs: usize, nodes: usize) -> u8 {
    if nodes <= NODES_ALWAYS_CUT {
        return workers.min(2);
    }
    workers.min((jobs.saturating_mul(states as usize) / MIN_ROWS_PER_THREAD).min(64) as u8)
}

// One more than the greatest height of a node.
const HEIGHTS: u8 = 69;

/// Finds the tables of new nodes by rising height. Those of one height are composed in at most `growth.workers` pieces at once.
/// Equal compositions are computed once. `growth.gate` is passed once for each node whose table is found, before it is computed
/// or taken from the cache.
///
/// # Errors
///
/// `NoMemory` if allocation fails.
pub(crate) fn find_ahead<R: Threads + Sync, G: Gate>(
    growth: &Growth<'_, R, G>,
    kept: &mut TableSet,
    memo: &mut PairMemo,
    numbers: &[u32],
    found: &mut [u32],
) -> Result<(), NoMemory>
    requires found { AreFound growth.now.dfa.now growth.now.store.now kept.old numbers.now found.old }
    requires entries { AreTrueEntries kept.old memo.old }
    ensures found { AreFound growth.now.dfa.now growth.now.store.now kept.new numbers.now found.new }
    ensures entries { AreTrueEntries kept.new memo.new }
    ensures extends { Extends kept.old kept.new }
{
    find_bytes(growth, kept, numbers, found)?;
    let states = growth.dfa.states();
    for _height in 0..HEIGHTS {
        let jobs = collect_due(growth, kept, memo, numbers, found)?;
        if jobs.is_empty() {
            return Ok(());
        }
        let pieces = pieces_of(growth.workers, states, jobs.len(), found.len());
        let made = in_pieces(growth.rt, growth.alloc, growth.gate, kept, &jobs, pieces)?;
        keep_all(growth, kept, memo, numbers, found, made)?;
    }
    Ok(())
}
