//! Tests of pages of documents, with a gate that shows that two pieces run at once.
ghost use Rattle.query_book.specs.Serving.{Covers};
ghost use Rattle.slp_model.specs.Nodes.{IsLive};
ghost use Rattle.std.specs.List.{AllByRecursion};
ghost use Rattle.std.specs.Prelude.{◌≡◌, ◌<◌, IfOk};

use crate::books::{Queries, grown_book, named};
use crate::meeting::Meeting;
use crate::workers::Workers;
use doc_book::Docs;
use list_all::{Pages, pages};
use node_store::{NodeId, Store};
use query_book::QueryBook;
use span_types::{NoMemory, Steps};
use std::alloc::Global;
use std::marker::Brand;
use std::sync::ledger::{Blank, Ledger};
use std::test::Fail;
use std::thread::Threads;
use work_gate::{Gate, OpenGate};

const QUERIES: Queries = &[(b"q", b".*$x{a}.*")];

/// The documents `d` and `e` with these roots.
fn two_documents(
    alloc: Global,
    store: &Store,
    first: Option<NodeId>,
    second: Option<NodeId>,
) -> Result<Docs, NoMemory>
    requires first { IsLive store.now first }
    requires second { IsLive store.now second }
    ensures { IfOk result (AllByRecursion (λ d. IsLive store.now d.root)) }
{
    let d = named(alloc, b"d")?;
    let e = named(alloc, b"e")?;
    let mut docs = Docs::new(alloc);
    docs.set(alloc, d, first)?;
    docs.set(alloc, e, second)?;
    Ok(docs)
}

/// The documents `d` and `e` with these letters.
fn two_letters(alloc: Global, store: &mut Store, first: u8, second: u8) -> Result<Docs, NoMemory>
    ensures { IfOk result (AllByRecursion (λ d. IsLive store.new d.root)) }
{
    let left = store.byte(first)?;
    let right = store.byte(second)?;
    two_documents(alloc, store, Some(left), Some(right))
}

/// The number of answers of the page at index `index`, and whether there are more, or `None` if there is no such page.
fn seen_at(pages: &Pages, index: usize) -> Option<(usize, bool)> {
    if index < pages.count() {
        Some((pages.tuples(index).len(), pages.more(index)))
    } else {
        None
    }
}

/// The results at the first three indices.
type Seen = [Option<(usize, bool)>; 3];

/// The results for pages of at most one answer of the query on each document.
fn seen_of<R: Threads + Sync, G: Gate>(
    workers: Workers<'_, R, G>,
    alloc: Global,
    store: &Store,
    docs: &Docs,
    book: &QueryBook,
) -> Result<Seen, NoMemory>
    requires covers { Covers store.now book.now }
    requires live { AllByRecursion (λ d. IsLive store.now d.root) docs.now }
{
    let Ok((view, dfa)) = book.parts(b"q", store) else {
        return Err(NoMemory);
    };
    let Workers { rt, count, gate } = workers;
    let pages = pages(rt, alloc, view, dfa, docs, 0, docs.count(), 1, count, gate)?;
    Ok([seen_at(&pages, 0), seen_at(&pages, 1), seen_at(&pages, 2)])
}

/// The same for the documents of two letters.
fn listed<R: Threads + Sync, G: Gate, L: Ledger>(
    workers: Workers<'_, R, G>,
    alloc: Global,
    blank: Blank,
    letters: (u8, u8),
) -> Result<Seen, NoMemory>
    requires { (blank.name ≡ L.name) × (blank.parts ≡ L.parts) × (0 < L.parts) }
{
    let mut steps = Steps::<L>::new(blank);
    let mut store = Store::new(alloc);
    let docs = two_letters(alloc, &mut store, letters.0, letters.1)?;
    let book = grown_book(workers.rt, alloc, QUERIES, &store, 1, &mut steps)?;
    seen_of(workers, alloc, &store, &docs, &book)
}

/// The same for a test.
fn seen<R: Threads + Sync, G: Gate>(
    workers: Workers<'_, R, G>,
    alloc: Global,
    letters: (u8, u8),
) -> Result<Seen, NoMemory> {
    listed::<R, G, Brand>(workers, alloc, Blank::new(1), letters)
}

#[test]
fn pages_on_many_workers(rt: HostRuntime) -> Result<(), Fail> {
    let workers = Workers {
        rt: &rt,
        count: 64,
        gate: &OpenGate,
    };
    let found = seen(workers, rt.alloc(), (b'a', b'b'))?;
    assert!(rt; found == [Some((1, false)), Some((0, false)), None]);
    Ok(())
}

#[test]
fn one_page_for_equal_roots(rt: HostRuntime) -> Result<(), Fail> {
    let workers = Workers {
        rt: &rt,
        count: 1,
        gate: &OpenGate,
    };
    let found = seen(workers, rt.alloc(), (b'a', b'a'))?;
    assert!(rt; found == [Some((1, false)), Some((1, false)), None]);
    Ok(())
}

#[test]
fn two_places_meet(rt: HostRuntime) -> Result<(), Fail> {
    let gate = Meeting::new(Some((0, 1)));
    let workers = Workers {
        rt: &rt,
        count: 2,
        gate: &gate,
    };
    let found = seen(workers, rt.alloc(), (b'a', b'b'))?;
    assert!(rt; found[1].is_some() && found[2].is_none());
    assert!(rt; gate.counts() == (2, 2, 0));
    Ok(())
}
