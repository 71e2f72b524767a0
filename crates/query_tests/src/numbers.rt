//! Numbers of answers and positions in a registry, compared with the listing.
ghost use Rattle.query_book.specs.Serving.{Covers, HasCounts, Serves};
ghost use Rattle.slp_model.specs.Nodes.{IsLive};
ghost use Rattle.std.specs.Prelude.{◌≡◌, ◌<◌, ◌≤◌, ◌^◌, ◌-◌, length, IfOk, OnOk};

use crate::asking::fits;
use crate::books::{Queries, book_of};
use crate::workers::Workers;
use node_store::{NodeId, Store};
use pair_loader::load;
use query_book::{BookRefusal, QueryBook};
use span_types::{NoMemory, Steps, Tuple};
use std::alloc::Global;
use std::marker::Brand;
use std::sync::ledger::{Blank, Ledger};
use std::test::Fail;
use std::thread::Threads;
use store_compact::Plan;
use work_gate::OpenGate;

const QUERIES: Queries = &[(b"p", b"b"), (b"q", b".*$x{a}.*$y{a}.*")];

/// More than the positions of each list.
const LIMIT: u64 = 100;

/// The name of a query, and the root of the text on which it is evaluated.
#[derive(Clone, Copy)]
struct Question<'a> {
    name: &'a [u8],
    root: Option<NodeId>,
}

/// The first answer from position `m` on.
fn first_at<'a, L: Ledger>(
    alloc: Global,
    book: &'a QueryBook,
    store: &'a Store,
    asked: Question<'_>,
    m: u64,
    looks: &mut Steps<L>,
) -> Result<Option<Tuple>, BookRefusal>
    requires covers { Covers store.now book.now }
    requires counted { HasCounts (length store.now) book.now asked.name.now }
    requires live { IsLive store.now asked.root }
    requires first { 1 ≤ m }
    requires last { m ≤ 2 ^ 64 - 2 }
{
    let mut answers = book.start_at(alloc, asked.name, store, asked.root, m, looks)?;
    Ok(answers.next(looks))
}

/// How many answers come before the tuple, or `None` if it has other variables than the query.
fn before<L: Ledger>(
    alloc: Global,
    book: &QueryBook,
    store: &Store,
    asked: Question<'_>,
    tuple: &Tuple,
    looks: &mut Steps<L>,
) -> Result<Option<u64>, BookRefusal>
    requires covers { Covers store.now book.now }
    requires counted { HasCounts (length store.now) book.now asked.name.now }
    requires live { IsLive store.now asked.root }
{
    if fits(book, asked.name, tuple) {
        let rank = book.rank(alloc, asked.name, store, asked.root, tuple, looks)?;
        Ok(Some(rank))
    } else {
        Ok(None)
    }
}

/// The number of answers, if `count`, `rank` and `start_at` agree with the listing.
fn agreed<'a, L: Ledger>(
    alloc: Global,
    book: &'a QueryBook,
    store: &'a Store,
    asked: Question<'_>,
    looks: &mut Steps<L>,
) -> Result<Option<u64>, BookRefusal>
    requires covers { Covers store.now book.now }
    requires counted { HasCounts (length store.now) book.now asked.name.now }
    requires live { IsLive store.now asked.root }
{
    let number = book.count(asked.name, store, asked.root)?;
    let mut answers = book.start(alloc, asked.name, store, asked.root, looks)?;
    for m in 1..LIMIT {
        let found = first_at(alloc, book, store, asked, m, looks)?;
        let Some(answer) = answers.next(looks) else {
            let same = found.is_none() && number == m - 1;
            return Ok(same.then_some(number));
        };
        let rank = before(alloc, book, store, asked, &answer, looks)?;
        if found != Some(answer) || rank != Some(m - 1) {
            return Ok(None);
        }
    }
    Ok(None)
}

/// A root, and the number of answers of the query `q` on its text.
#[derive(Clone, Copy)]
struct Numbered {
    root: Option<NodeId>,
    number: Option<u64>,
}

/// The number of answers of the query `q` on the text, after the computation of the missing tables.
fn number_on<R: Threads + Sync, L: Ledger>(
    workers: Workers<'_, R, OpenGate>,
    alloc: Global,
    book: &mut QueryBook,
    store: &mut Store,
    text: &[u8],
    steps: &mut Steps<L>,
) -> Result<Numbered, BookRefusal>
    requires short { length text.now ≤ 100 }
    requires serves { Serves store.old book.old }
    ensures serves { OnOk result (Serves store.new book.new) }
    ensures live { IfOk result (λ n. IsLive store.new n.root) }
{
    let root = load(alloc, store, text, steps)?;
    let Workers { rt, count, gate } = workers;
    book.grow_all(rt, alloc, store, count, gate, steps)?;
    book.grow_counts(rt, alloc, b"q", store, count, gate, steps)?;
    let number = agreed(alloc, book, store, Question { name: b"q", root }, steps)?;
    Ok(Numbered { root, number })
}

/// The store with the nodes of the root alone, and the registry for it.
fn compacted(
    alloc: Global,
    store: &Store,
    root: Option<NodeId>,
    book: &mut QueryBook,
) -> Result<Store, NoMemory>
    requires serves { Serves store.now book.old }
    requires live { IsLive store.now root }
    ensures { IfOk result (λ thin. Serves thin book.new) }
{
    let mut plan = Plan::new(alloc, store)?;
    plan.keep_root(store, root)?;
    let (thin, moves) = plan.build(alloc, store)?;
    book.renumber(&moves);
    Ok(thin)
}

/// The numbers of answers on a text, on a second one after it, and on that after a compaction.
fn numbers_in<R: Threads + Sync, L: Ledger>(
    workers: Workers<'_, R, OpenGate>,
    alloc: Global,
    book: &mut QueryBook,
    store: &mut Store,
    texts: (&[u8], &[u8]),
    steps: &mut Steps<L>,
) -> Result<[Option<u64>; 3], BookRefusal>
    requires first { length texts.0.now ≤ 100 }
    requires second { length texts.1.now ≤ 100 }
    requires serves { Serves store.old book.old }
{
    let first = number_on(workers, alloc, book, store, texts.0, steps)?;
    let second = number_on(workers, alloc, book, store, texts.1, steps)?;
    let mut thin = compacted(alloc, store, second.root, book)?;
    let again = number_on(workers, alloc, book, &mut thin, texts.1, steps)?;
    Ok([first.number, second.number, again.number])
}

/// The same for the registry of `QUERIES` and an empty store.
fn numbers<R: Threads + Sync, L: Ledger>(
    workers: Workers<'_, R, OpenGate>,
    alloc: Global,
    blank: Blank,
    texts: (&[u8], &[u8]),
) -> Result<[Option<u64>; 3], BookRefusal>
    requires blank { (blank.name ≡ L.name) × (blank.parts ≡ L.parts) × (0 < L.parts) }
    requires first { length texts.0.now ≤ 100 }
    requires second { length texts.1.now ≤ 100 }
{
    let mut steps = Steps::<L>::new(blank);
    let mut store = Store::new(alloc);
    let mut book = book_of(alloc, QUERIES)?;
    numbers_in(workers, alloc, &mut book, &mut store, texts, &mut steps)
}

/// A text with 5 letters `a` has 10 pairs of them, and one with 10 has 45.
const TEXTS: (&[u8], &[u8]) = (b"abracadabra", b"abracadabra abracadabra");

#[test]
fn numbers_ranks_and_positions(rt: HostRuntime) -> Result<(), Fail> {
    for count in [1u8, 4] {
        let workers = Workers {
            rt: &rt,
            count,
            gate: &OpenGate,
        };
        let found = numbers::<HostRuntime, Brand>(workers, rt.alloc(), Blank::new(1), TEXTS)?;
        assert!(rt; found == [Some(10), Some(45), Some(45)], "{found:?}");
    }
    Ok(())
}
