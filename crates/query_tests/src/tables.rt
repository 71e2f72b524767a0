//! Tests of table computation, with a gate that shows that each node passes and that two pieces of a height run at
//! once, and with an order of bytes and pairs that isn't that of their ids.
ghost use Rattle.marker_dfa.specs.Deterministic.{states_of};
ghost use Rattle.slp_model.specs.Nodes.{Grows};
ghost use Rattle.state_tables.specs.Dictionary.{AreTables, count_of};
ghost use Rattle.std.specs.Prelude.{◌≡◌, ◌<◌, ◌≤◌, length, IfOk, OnOk};
ghost use Rattle.table_grow.specs.Remembering.{AreTrueEntries};
ghost use Rattle.table_grow.specs.Schedule.{IsSchedule};

use crate::formulas::automaton_of;
use crate::meeting::Meeting;
use crate::workers::Workers;
use marker_dfa::Dfa;
use node_store::{Node, NodeId, Store};
use pair_loader::load;
use span_types::{NoMemory, Steps};
use state_tables::Tables;
use std::alloc::Global;
use std::marker::Brand;
use std::sync::ledger::{Blank, Ledger};
use std::test::Fail;
use std::thread::Threads;
use table_grow::{Memory, fill, grow};
use work_gate::{Gate, OpenGate};

/// The formula whose automaton has the tables.
const LETTERS: &[u8] = b"[abcdr]*";

/// The tables of a store, and the cache of compositions that their computation left.
#[derive(Drop)]
struct CachedTables {
    tables: Tables,
    memory: Memory,
}

/// Computes the tables of a store, with a new cache of this size.
fn grown<R: Threads + Sync, G: Gate, L: Ledger>(
    workers: Workers<'_, R, G>,
    alloc: Global,
    store: &Store,
    dfa: &Dfa,
    size: usize,
    places: &mut Steps<L>,
) -> Result<CachedTables, NoMemory>
    requires some { 1 ≤ size }
    requires few { size ≤ 65536 }
    ensures covered { IfOk result (λ grown. count_of grown.tables ≡ length store.now) }
    ensures states { IfOk result (λ grown. grown.tables.states ≡ states_of dfa.now) }
    ensures true_tables { IfOk result (λ grown. AreTables dfa.now store.now grown.tables) }
    ensures true_entries { IfOk result (λ grown. AreTrueEntries grown.tables grown.memory) }
{
    let Workers { rt, count, gate } = workers;
    let mut memory = Memory::new(alloc, size)?;
    let mut tables = Tables::new(alloc, dfa);
    grow(
        rt,
        alloc,
        &mut tables,
        store,
        dfa,
        &mut memory,
        count,
        gate,
        places,
    )?;
    Ok(CachedTables { tables, memory })
}

/// The tables of a store, computed by one worker with a cache of this size.
pub fn tables_of<R: Threads + Sync, L: Ledger>(
    rt: &R,
    alloc: Global,
    store: &Store,
    dfa: &Dfa,
    size: usize,
    places: &mut Steps<L>,
) -> Result<Tables, NoMemory>
    requires some { 1 ≤ size }
    requires few { size ≤ 65536 }
    ensures covered { IfOk result (λ tables. count_of tables ≡ length store.now) }
    ensures true_tables { IfOk result (AreTables dfa.now store.now) }
{
    let one = Workers {
        rt,
        count: 1,
        gate: &OpenGate,
    };
    let CachedTables { tables, .. } = grown(one, alloc, store, dfa, size, places)?;
    Ok(tables)
}

/// The numbers after table computation: nodes, tables, distinct tables, and cached compositions.
type Counts = (usize, usize, usize, usize);

/// The numbers after table computation for the nodes of a store, with a cache of this size.
fn counted<R: Threads + Sync, G: Gate, L: Ledger>(
    workers: Workers<'_, R, G>,
    alloc: Global,
    store: &Store,
    size: usize,
    places: &mut Steps<L>,
) -> Result<Counts, NoMemory>
    requires some { 1 ≤ size }
    requires few { size ≤ 65536 }
{
    let dfa = automaton_of(alloc, LETTERS)?;
    let grown = grown(workers, alloc, store, &dfa, size, places)?;
    Ok((
        store.count(),
        grown.tables.count(),
        grown.tables.distinct(),
        grown.memory.len(),
    ))
}

/// The numbers after table computation for the nodes of a short text.
fn of_text<R: Threads + Sync, G: Gate, L: Ledger>(
    workers: Workers<'_, R, G>,
    alloc: Global,
    blank: Blank,
    text: &[u8],
    size: usize,
) -> Result<Counts, NoMemory>
    requires blank { (blank.name ≡ L.name) × (blank.parts ≡ L.parts) × (0 < L.parts) }
    requires some { 1 ≤ size }
    requires few { size ≤ 65536 }
{
    if text.len() > 100 {
        return Err(NoMemory);
    }
    let mut steps = Steps::<L>::new(blank);
    let mut store = Store::new(alloc);
    load(alloc, &mut store, text, &mut steps)?;
    counted(workers, alloc, &store, size, &mut steps)
}

/// The same for a test.
fn counts<R: Threads + Sync, G: Gate>(
    workers: Workers<'_, R, G>,
    alloc: Global,
    text: &[u8],
    size: usize,
) -> Result<Counts, NoMemory>
    requires some { 1 ≤ size }
    requires few { size ≤ 65536 }
{
    of_text::<R, G, Brand>(workers, alloc, Blank::new(1), text, size)
}

/// The sizes of the cache and the numbers of workers.
const SETTINGS: [(usize, u8); 4] = [(1, 1), (4096, 1), (1, 4), (4096, 64)];

#[test]
fn one_table_on_any_workers(rt: HostRuntime) -> Result<(), Fail> {
    let alloc = rt.alloc();
    for (size, count) in SETTINGS {
        let gate = Meeting::new(None);
        let workers = Workers {
            rt: &rt,
            count,
            gate: &gate,
        };
        let found = counts(workers, alloc, b"abracadabra", size)?;
        assert!(rt; found == (15, 15, 1, 1), "{size} {count}");
        assert!(rt; gate.counts() == (15, 0, 0), "{size} {count}");
    }
    Ok(())
}

/// A text of letters and other bytes, so that two tables have four compositions.
const MIXED: &[u8] = b"axxaaxxxaa";

/// The sizes of a cache, in compositions.
const ROOMS: [usize; 3] = [1, 2, 3];

#[test]
fn no_more_is_remembered_than_has_room(rt: HostRuntime) -> Result<(), Fail> {
    let alloc = rt.alloc();
    for size in ROOMS {
        let workers = Workers {
            rt: &rt,
            count: 1,
            gate: &OpenGate,
        };
        let found = counts(workers, alloc, MIXED, size)?;
        assert!(rt; found.3 <= size, "{size}");
    }
    Ok(())
}

/// The children of the root of `abcd`, which are `ab` and `cd`.
const CHILDREN: (usize, usize) = (2, 5);

#[test]
fn two_nodes_meet(rt: HostRuntime) -> Result<(), Fail> {
    let gate = Meeting::new(Some(CHILDREN));
    let workers = Workers {
        rt: &rt,
        count: 2,
        gate: &gate,
    };
    let found = counts(workers, rt.alloc(), b"abcd", 4096)?;
    assert!(rt; found.0 == 7 && gate.counts() == (7, 2, 0));
    Ok(())
}

/// A formula with a set for each letter. It distinguishes nearly all texts of letters, so nearly each node has its own table.
const APART: &[u8] = b".*$x{[^a][^b][^c][^d][^e][^f][^g][^h][^i][^j][^k][^l][^m]\
[^n][^o][^p][^q][^r][^s][^t][^u][^v][^w][^x][^y][^z]}.*";

/// Letters of a linear congruential generator (D. E. Knuth, *The Art of Computer Programming*, volume 2, section 3.2.1).
fn random_letters(alloc: Global, count: usize) -> Result<Vec<u8>, NoMemory> {
    let mut letters = Vec::with_capacity(alloc, count)?;
    let mut state: u32 = 1;
    for _ in 0..count {
        state = state.wrapping_mul(1_664_525).wrapping_add(1_013_904_223);
        letters.push(b'a' + (state >> 24) as u8 % 26)?;
    }
    Ok(letters)
}

/// Loads a text of `count` random letters.
fn load_letters<L: Ledger>(
    alloc: Global,
    store: &mut Store,
    count: usize,
    pairs: &mut Steps<L>,
) -> Result<(), NoMemory>
    ensures { OnOk result (Grows store.old store.new pairs.old pairs.new) }
{
    let letters = random_letters(alloc, count)?;
    if letters.len() > 100_000 {
        return Err(NoMemory);
    }
    load(alloc, store, &letters, pairs)?;
    Ok(())
}

/// The first and the last of the nodes from `from` on whose text has four letters. All of these have one height, so two
/// threads that halve it take one each.
fn words_from(store: &Store, from: usize) -> Option<(usize, usize)> {
    let mut found = None;
    for index in from..store.count() {
        if store.len(NodeId { index }) == 4 {
            found = match found {
                Some((first, _)) => Some((first, index)),
                None => Some((index, index)),
            };
        }
    }
    found
}

/// The number of cached compositions after a first table computation, the number of new nodes in a second one, and the gate's
/// counts then.
type Growths = (usize, usize, (u64, u64, u64));

/// The number of nodes that are processed on one thread before it is tested whether threads pay.
const ON_ONE_THREAD: usize = 4096;

/// A second table computation, over some 8,000 new nodes, with a gate at two nodes that only two threads can pass.
fn grown_again<R: Threads + Sync, L: Ledger>(
    rt: &R,
    alloc: Global,
    store: &mut Store,
    dfa: &Dfa,
    grown: &mut CachedTables,
    steps: &mut Steps<L>,
) -> Result<Growths, NoMemory>
    requires covered { count_of grown.old.tables ≤ length store.old }
    requires states { grown.old.tables.states ≡ states_of dfa.now }
    requires true_tables { AreTables dfa.now store.old grown.old.tables }
    requires true_entries { AreTrueEntries grown.old.tables grown.old.memory }
{
    let known = store.count();
    let remembered = grown.memory.len();
    load_letters(alloc, store, 16_384, steps)?;
    let gate = Meeting::new(words_from(store, known.saturating_add(ON_ONE_THREAD)));
    let (tables, memory) = (&mut grown.tables, &mut grown.memory);
    grow(rt, alloc, tables, store, dfa, memory, 2, &gate, steps)?;
    let new = store.count().saturating_sub(known);
    Ok((remembered, new, gate.counts()))
}

/// Two table computations with two workers, over nodes of which nearly each has its own table.
fn grown_twice<R: Threads + Sync, L: Ledger>(
    rt: &R,
    alloc: Global,
    store: &mut Store,
    dfa: &Dfa,
    steps: &mut Steps<L>,
) -> Result<Growths, NoMemory> {
    load_letters(alloc, store, 1024, steps)?;
    let two = Workers {
        rt,
        count: 2,
        gate: &OpenGate,
    };
    let mut grown = grown(two, alloc, store, dfa, 4096, steps)?;
    grown_again(rt, alloc, store, dfa, &mut grown, steps)
}

/// The same for the automaton of `APART` and an empty store.
fn two_growths<R: Threads + Sync, L: Ledger>(
    rt: &R,
    alloc: Global,
    blank: Blank,
) -> Result<Growths, NoMemory>
    requires { (blank.name ≡ L.name) × (blank.parts ≡ L.parts) × (0 < L.parts) }
{
    let dfa = automaton_of(alloc, APART)?;
    let mut steps = Steps::<L>::new(blank);
    let mut store = Store::new(alloc);
    grown_twice(rt, alloc, &mut store, &dfa, &mut steps)
}

/// With cached compositions, table computation still runs on two threads if many nodes have their own table.
#[test]
fn two_nodes_meet_in_a_second_growth(rt: HostRuntime) -> Result<(), Fail> {
    let (remembered, new, counts) = two_growths::<HostRuntime, Brand>(
        &rt,
        rt.alloc(),
        Blank::new(1),
    )?;
    assert!(rt; remembered > 0, "{remembered}");
    assert!(rt;
        counts == (new as u64, 2, 0),
        "{new} {} {} {}",
        counts.0,
        counts.1,
        counts.2
    );
    Ok(())
}

/// The nodes of a store of two bytes, two pairs of these and a pair of the pairs, in an order that isn't that of their ids.
fn crossed(store: &Store) -> Result<[NodeId; 5], NoMemory>
    ensures { IfOk result (λ ids. IsSchedule store.now 0 ids) }
{
    if store.count() != 5 {
        return Err(NoMemory);
    }
    match (
        store.node(NodeId { index: 1 }),
        store.node(NodeId { index: 3 }),
    ) {
        (Node::Byte(_), Node::Pair(left, right)) => {
            if left.index > 1 || right.index > 1 {
                return Err(NoMemory);
            }
            Ok([
                NodeId { index: 1 },
                NodeId { index: 0 },
                NodeId { index: 3 },
                NodeId { index: 2 },
                NodeId { index: 4 },
            ])
        }
        _ => Err(NoMemory),
    }
}

/// The tables of these nodes, in an order that isn't that of their ids.
fn filled<L: Ledger>(
    alloc: Global,
    store: &Store,
    dfa: &Dfa,
    places: &mut Steps<L>,
) -> Result<Tables, NoMemory> {
    let schedule = crossed(store)?;
    let mut tables = Tables::new(alloc, dfa);
    fill(alloc, &mut tables, store, dfa, &schedule, places)?;
    Ok(tables)
}

/// Whether all nodes have equal tables in both.
fn are_same(left: &Tables, right: &Tables) -> bool {
    if left.count() != right.count() {
        return false;
    }
    for index in 0..left.count() {
        let id = NodeId { index };
        if left.table(id) != right.table(id) {
            return false;
        }
    }
    true
}

/// Whether bytes and pairs get the same tables in the usual order as in an order that isn't that of their ids.
fn agree<R: Threads + Sync, L: Ledger>(
    rt: &R,
    alloc: Global,
    text: &[u8; 4],
    blank: Blank,
) -> Result<bool, NoMemory>
    requires { (blank.name ≡ L.name) × (blank.parts ≡ L.parts) × (0 < L.parts) }
{
    let dfa = automaton_of(alloc, LETTERS)?;
    let mut steps = Steps::<L>::new(blank);
    let mut store = Store::new(alloc);
    load(alloc, &mut store, text, &mut steps)?;
    same(rt, alloc, &store, &dfa, &mut steps)
}

fn same<R: Threads + Sync, L: Ledger>(
    rt: &R,
    alloc: Global,
    store: &Store,
    dfa: &Dfa,
    places: &mut Steps<L>,
) -> Result<bool, NoMemory> {
    let filled = filled(alloc, store, dfa, places)?;
    let grown = tables_of(rt, alloc, store, dfa, 4096, places)?;
    Ok(are_same(&filled, &grown))
}

#[test]
fn any_order_gives_the_same(rt: HostRuntime) {
    assert!(rt; agree::<HostRuntime, Brand>(&rt, rt.alloc(), b"axxa", Blank::new(1)) == Ok(true));
}
