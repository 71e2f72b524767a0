//! Tests of registries of queries.
ghost use Rattle.query_book.specs.Serving.{Covers, Serves};
ghost use Rattle.slp_model.specs.declared.Node.{Node};
ghost use Rattle.std.specs.Prelude.{◌≤◌, List, IfOk};

use crate::subsets::says;
use node_store::Store;
use query_book::{BookRefusal, QueryBook, QueryRefusal};
use span_types::{Name, NoMemory, Steps};
use std::alloc::Global;
use std::sync::ledger::Ledger;
use std::test::Fail;
use std::thread::Threads;
use work_gate::OpenGate;

/// Queries by their names.
pub type Queries = &'static [(&'static [u8], &'static [u8])];

/// The name with these bytes. Bytes that are no name are reported as an allocation failure, and so is a text below that
/// is no query.
pub fn named(alloc: Global, name: &[u8]) -> Result<Name, NoMemory> {
    match Name::new(alloc, name) {
        Ok(name) => Ok(name),
        Err(_) => Err(NoMemory),
    }
}

fn register(alloc: Global, book: &mut QueryBook, name: &[u8], text: &[u8]) -> Result<(), NoMemory>
    ensures { (ns : List Node) → Serves ns book.old → Serves ns book.new }
{
    let name = named(alloc, name)?;
    match book.add(alloc, name, text) {
        Ok(()) => Ok(()),
        Err(_) => Err(NoMemory),
    }
}

/// A registry of these queries, without tables.
pub fn book_of(alloc: Global, queries: Queries) -> Result<QueryBook, NoMemory>
    ensures { IfOk result (λ book. (ns : List Node) → Serves ns book) }
{
    let mut book = QueryBook::new(alloc);
    for (name, text) in queries {
        register(alloc, &mut book, name, text)?;
    }
    Ok(book)
}

/// A registry of these queries, with the tables of all nodes.
pub fn grown_book<R: Threads + Sync, L: Ledger>(
    rt: &R,
    alloc: Global,
    queries: Queries,
    store: &Store,
    workers: u8,
    places: &mut Steps<L>,
) -> Result<QueryBook, NoMemory>
    requires least { 1 ≤ workers }
    requires most { workers ≤ 64 }
    ensures { IfOk result (Covers store.now) }
{
    let mut book = book_of(alloc, queries)?;
    book.grow_all(rt, alloc, store, workers, &OpenGate, places)?;
    Ok(book)
}

/// The result of `add` for a text as the query `q`: `ok` or its rejection.
fn added(alloc: Global, book: &mut QueryBook, text: &[u8]) -> Result<String, NoMemory> {
    let name = named(alloc, b"q")?;
    let said = match book.add(alloc, name, text) {
        Ok(()) => String::from_str(alloc, "ok"),
        Err(why) => why.to_string(alloc),
    };
    Ok(said?)
}

/// Texts for a query, and the result for each.
const TEXTS: &[(&[u8], &str)] = &[
    (b"[ab]*a[ab][ab][ab][ab][ab][ab]", "too many states"),
    (b"[ab]*a[ab][ab][ab][ab][ab]", "ok"),
    (b"($x{a}|b)", "ok"),
    (b"$x{a}$x{b}", "not functional in x"),
    (b"($x{a})*", "not functional in x"),
    (b"a)", "not a formula"),
];

/// Texts for a query in a registry that allows 1,024 states.
const WIDE_TEXTS: &[(&[u8], &str)] = &[
    (b"[ab]*a[ab][ab][ab][ab][ab][ab]", "ok"),
    (b"[ab]*a[ab][ab][ab][ab][ab][ab][ab][ab]", "ok"),
    (
        b"[ab]*a[ab][ab][ab][ab][ab][ab][ab][ab][ab]",
        "too many states",
    ),
];

#[test]
fn a_query_of_many_states(rt: HostRuntime) -> Result<(), Fail> {
    let mut book = QueryBook::with_states(rt.alloc(), 1024);
    for (text, want) in WIDE_TEXTS {
        assert!(rt; added(rt.alloc(), &mut book, text)?.as_str() == *want);
    }
    assert!(rt; book.states() == 1024);
    Ok(())
}

/// The number of a query's variables, or `None` if there is no such query.
fn variables(book: &QueryBook, name: &[u8]) -> Option<u8> {
    match book.vars(name) {
        Ok(vars) => Some(vars.count()),
        Err(_) => None,
    }
}

/// A rejected text doesn't change the query with the name.
#[test]
fn one_query(rt: HostRuntime) -> Result<(), Fail> {
    let mut book = QueryBook::new(rt.alloc());
    for (text, want) in TEXTS {
        assert!(rt; added(rt.alloc(), &mut book, text)?.as_str() == *want);
    }
    assert!(rt; variables(&book, b"q") == Some(1));
    assert!(rt; book.remove(b"q") == Ok(()));
    assert!(rt; book.remove(b"q") == Err(BookRefusal::NoSuchQuery));
    Ok(())
}

#[test]
fn texts_of_refusals(rt: HostRuntime) -> Result<(), Fail> {
    let alloc = rt.alloc();
    assert!(rt; says(alloc, BookRefusal::NoSuchQuery, "no query has this name")?);
    assert!(rt; says(alloc, BookRefusal::NoMemory, "no memory")?);
    assert!(rt; says(alloc, QueryRefusal::NoMemory, "no memory")?);
    Ok(())
}
