//! How many answers a formula has on a text, the answers at positions, and ranks, by counting tables.
ghost use Rattle.count_tables.specs.Number.{IsCounted};
ghost use Rattle.span_enum.specs.Listing.{IsReady};
ghost use Rattle.state_tables.specs.Dictionary.{count_of};
ghost use Rattle.std.specs.Prelude.{◌≡◌, ◌<◌, ◌≤◌, length, IfOk};

use crate::counting_workers::counts_of;
use crate::formulas::automaton_of;
use crate::tables::tables_of;
use crate::workers::Workers;
use count_tables::CountTables;
use marker_dfa::Dfa;
use node_store::{NodeId, Store};
use pair_loader::load;
use pair_memo::PairMemo;
use path_counts::{Count, compose, of_byte};
use span_enum::Answers;
use span_types::{NoMemory, Span, Steps, Tuple, compare};
use state_tables::Tables;
use std::alloc::Global;
use std::cmp::Ordering;
use std::marker::Brand;
use std::sync::ledger::{Blank, Ledger};
use std::test::Fail;
use std::thread::Threads;
use work_gate::OpenGate;

/// What is found of three pairs after two were noted, and how many entries there are.
type Found = (Option<usize>, Option<usize>, Option<usize>, usize);

fn found(alloc: Global) -> Result<Found, NoMemory> {
    let mut memo = PairMemo::new(alloc, 100)?;
    memo.note(3, 4, 17);
    memo.note(4, 3, 18);
    Ok((
        memo.find(3, 4),
        memo.find(4, 3),
        memo.find(3, 3),
        memo.len(),
    ))
}

#[test]
fn noted_pairs_are_found(rt: HostRuntime) -> Result<(), Fail> {
    let found = found(rt.alloc())?;
    assert!(rt; found == (Some(17), Some(18), None, 2));
    Ok(())
}

/// The state after the text `aa` without marks from the start, how many states are reached with marks, and the greatest number of
/// marked texts to one of them.
fn twice(alloc: Global) -> Result<(bool, usize, u64), NoMemory> {
    let dfa = automaton_of(alloc, b".*$x{a}.*")?;
    let a = of_byte(alloc, &dfa, b'a')?;
    let twice = compose(alloc, &a, &a)?;
    if twice.states() == 0 {
        return Err(NoMemory);
    }
    let counts = twice.counts(0);
    Ok((twice.unmarked(0).is_some(), counts.len(), greatest(counts)))
}

fn greatest(counts: &[Count]) -> u64 {
    let mut most = 0;
    for count in counts {
        most = most.max(count.number);
    }
    most
}

#[test]
fn two_bytes_are_counted(rt: HostRuntime) -> Result<(), Fail> {
    let found = twice(rt.alloc())?;
    assert!(rt; found == (true, 2, 1), "{found:?}");
    Ok(())
}

/// A formula, a text, and the number of answers. The last formula's automaton has more than 256 states.
const ROWS: [(&[u8], &[u8], u64); 10] = [
    (b".*$x{a.}.*", b"abracadabra", 4),
    (b"b", b"abracadabra", 0),
    (b".*", b"abracadabra", 1),
    (b".*$x{.*}.*", b"abc", 10),
    (b".*$x{.*}.*", b"", 1),
    (b".*$x{a}.*$y{a}.*", b"abracadabra", 10),
    (b".*$x{.*}.*$y{.*}.*", b"abc", 35),
    (b".*($x{b}|$y{a}).*", b"abracadabra", 7),
    (b"$x{a*}|$y{.*}", b"aa", 2),
    (
        b"[ab]*a[ab][ab][ab][ab][ab][ab][ab]$x{.*}",
        b"abbabbbbababbbab",
        3,
    ),
];

/// A text and an automaton, with the tables and the counting tables of the text's nodes.
#[derive(Drop)]
struct CountedText {
    store: Store,
    root: Option<NodeId>,
    dfa: Dfa,
    tables: Tables,
    counts: CountTables,
}

fn counted_text<R: Threads + Sync, L: Ledger>(
    rt: &R,
    alloc: Global,
    formula: &[u8],
    text: &[u8],
    steps: &mut Steps<L>,
) -> Result<CountedText, NoMemory>
    ensures ready { IfOk result (λ c. IsReady c.dfa c.store c.tables c.root) }
    ensures covered { IfOk result (λ c. count_of c.tables ≡ length c.store) }
    ensures counted { IfOk result (λ c. IsCounted c.dfa c.store c.counts c.root) }
{
    if text.len() > 100 {
        return Err(NoMemory);
    }
    let dfa = automaton_of(alloc, formula)?;
    let mut store = Store::new(alloc);
    let root = load(alloc, &mut store, text, steps)?;
    let tables = tables_of(rt, alloc, &store, &dfa, 100, steps)?;
    let one = Workers {
        rt,
        count: 1,
        gate: &OpenGate,
    };
    let counts = counts_of(one, alloc, &store, &dfa, steps)?;
    Ok(CountedText {
        store,
        root,
        dfa,
        tables,
        counts,
    })
}

/// The answers in mark order. More than a hundred are reported as an allocation failure.
fn listed<L: Ledger>(
    alloc: Global,
    counted: &CountedText,
    steps: &mut Steps<L>,
) -> Result<Vec<Tuple>, NoMemory>
    requires ready { IsReady counted.now.dfa counted.now.store counted.now.tables counted.now.root }
    requires covered { count_of counted.now.tables ≡ length counted.now.store }
{
    let view = counted.tables.view(&counted.store);
    let mut answers = Answers::start(alloc, view, &counted.dfa, counted.root, steps)?;
    let mut list = Vec::new(alloc);
    for _ in 0..100 {
        match answers.next(steps) {
            Some(tuple) => list.push(tuple)?,
            None => return Ok(list),
        }
    }
    Err(NoMemory)
}

/// Whether the answer at a position is that of the list, and none is behind the list.
fn is_numbered<L: Ledger>(
    alloc: Global,
    counted: &CountedText,
    list: &[Tuple],
    index: usize,
    steps: &mut Steps<L>,
) -> Result<bool, NoMemory>
    requires counted { IsCounted counted.now.dfa counted.now.store counted.now.counts counted.now.root }
    requires small { index < 1000 }
{
    let (counts, store, dfa) = (&counted.counts, &counted.store, &counted.dfa);
    let found = counts.nth(alloc, store, dfa, counted.root, index as u64 + 1, steps)?;
    Ok(found == list.get(index).copied())
}

fn comes_before(first: &Tuple, second: &Tuple) -> bool {
    first.count() == second.count() && compare(first, second) == Ordering::Less
}

/// How many tuples of the list come before this one.
fn number_before(list: &[Tuple], tuple: &Tuple) -> u64 {
    list.iter()
        .filter(|other| comes_before(other, tuple))
        .count() as u64
}

/// Whether the tuple's rank is the number of the answers before it.
fn is_ranked<L: Ledger>(
    alloc: Global,
    counted: &CountedText,
    list: &[Tuple],
    tuple: &Tuple,
    steps: &mut Steps<L>,
) -> Result<bool, NoMemory>
    requires { IsCounted counted.now.dfa counted.now.store counted.now.counts counted.now.root }
{
    if tuple.count() != counted.dfa.variables() {
        return Ok(false);
    }
    let (counts, store, dfa) = (&counted.counts, &counted.store, &counted.dfa);
    let rank = counts.rank(alloc, store, dfa, counted.root, tuple, steps)?;
    Ok(rank == number_before(list, tuple))
}

/// Bounds of spans, of which some lie past the texts. `(0, 0)` stands for no span.
const BOUNDS: [(u64, u64); 13] = [
    (0, 0),
    (1, 1),
    (1, 2),
    (1, 4),
    (2, 2),
    (2, 3),
    (2, 9),
    (3, 4),
    (4, 4),
    (4, 5),
    (6, 8),
    (8, 10),
    (14, 14),
];

fn with_bounds(tuple: Tuple, v: u8, bounds: (u64, u64)) -> Tuple {
    let (start, end) = bounds;
    if v < tuple.count() && 1 <= start && start <= end && end < 100 {
        tuple.with_span(v, Some(Span { start, end }))
    } else {
        tuple
    }
}

/// Whether all answers are at their positions, and all tuples with these bounds for the first two variables have their
/// ranks.
fn are_placed<L: Ledger>(
    alloc: Global,
    counted: &CountedText,
    list: &[Tuple],
    steps: &mut Steps<L>,
) -> Result<bool, NoMemory>
    requires { IsCounted counted.now.dfa counted.now.store counted.now.counts counted.now.root }
{
    let none = Tuple::none(counted.dfa.variables());
    for index in 0..BOUNDS.len() * BOUNDS.len() {
        let first = with_bounds(none, 0, BOUNDS[index % BOUNDS.len()]);
        let tuple = with_bounds(first, 1, BOUNDS[index / BOUNDS.len()]);
        if !is_numbered(alloc, counted, list, index, steps)?
            || !is_ranked(alloc, counted, list, &tuple, steps)?
        {
            return Ok(false);
        }
    }
    Ok(true)
}

/// The number of answers, the length of their list, and whether they are at their positions and tuples have their
/// ranks.
type Placed = (u64, usize, bool);

fn placed<L: Ledger>(
    alloc: Global,
    counted: &CountedText,
    steps: &mut Steps<L>,
) -> Result<Placed, NoMemory>
    requires ready { IsReady counted.now.dfa counted.now.store counted.now.tables counted.now.root }
    requires covered { count_of counted.now.tables ≡ length counted.now.store }
    requires counted { IsCounted counted.now.dfa counted.now.store counted.now.counts counted.now.root }
{
    let list = listed(alloc, counted, steps)?;
    let number = counted
        .counts
        .number(&counted.store, &counted.dfa, counted.root);
    let are_placed = are_placed(alloc, counted, &list, steps)?;
    Ok((number, list.len(), are_placed))
}

fn agreement<R: Threads + Sync, L: Ledger>(
    rt: &R,
    alloc: Global,
    blank: Blank,
    formula: &[u8],
    text: &[u8],
) -> Result<Placed, NoMemory>
    requires { (blank.name ≡ L.name) × (blank.parts ≡ L.parts) × (0 < L.parts) }
{
    let mut steps = Steps::<L>::new(blank);
    let counted = counted_text(rt, alloc, formula, text, &mut steps)?;
    placed(alloc, &counted, &mut steps)
}

#[test]
fn answers_at_places(rt: HostRuntime) -> Result<(), Fail> {
    for (formula, text, number) in ROWS {
        let found = agreement::<HostRuntime, Brand>(&rt, rt.alloc(), Blank::new(1), formula, text)?;
        assert!(rt;
            found == (number, number as usize, true),
            "{number} {found:?}"
        );
    }
    Ok(())
}
