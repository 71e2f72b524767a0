//! Tests of the evaluation of registered queries.
ghost use Rattle.query_book.specs.Answers.{HasVariablesOf};
ghost use Rattle.query_book.specs.Book.{queries_of};
ghost use Rattle.query_book.specs.Serving.{Covers};
ghost use Rattle.slp_model.specs.Nodes.{IsLive};
ghost use Rattle.std.specs.Prelude.{◌≡◌, ◌<◌, IfOk, IsTrue, length};

use crate::books::{Queries, grown_book};
use crate::one_letter::spanned;
use node_store::{NodeId, Store};
use query_book::{BookRefusal, QueryBook};
use span_types::{NoMemory, Steps, Tuple};
use std::alloc::Global;
use std::marker::Brand;
use std::sync::ledger::{Blank, Ledger};
use std::thread::Threads;

const QUERIES: Queries = &[(b"q", b".*$x{a+}.*"), (b"r", b"b")];

#[test]
fn first_question(rt: HostRuntime) {
    let told = asked::<HostRuntime, Brand>(&rt, rt.alloc(), Blank::new(1));
    assert!(rt; told == Ok([true; 3]));
}

/// The results of the queries on the text `aa`.
fn asked<R: Threads + Sync, L: Ledger>(
    rt: &R,
    alloc: Global,
    blank: Blank,
) -> Result<[bool; 3], NoMemory>
    requires { (blank.name ≡ L.name) × (blank.parts ≡ L.parts) × (0 < L.parts) }
{
    let mut steps = Steps::<L>::new(blank);
    let mut store = Store::new(alloc);
    let root = Some(two_letters(&mut store, &mut steps)?);
    let book = grown_book(rt, alloc, QUERIES, &store, 2, &mut steps)?;
    Ok(answers(alloc, &book, &store, root, &mut steps))
}

/// Whether the registry answers, lists all tuples, and lists the third one after the second.
fn answers<L: Ledger>(
    alloc: Global,
    book: &QueryBook,
    store: &Store,
    root: Option<NodeId>,
    looks: &mut Steps<L>,
) -> [bool; 3]
    requires covers { Covers store.now book.now }
    requires live { IsLive store.now root }
{
    let (first, second, third) = (spanned(1, 2), spanned(1, 3), spanned(2, 3));
    let all = tuples(alloc, book, store, root, None, looks);
    let rest = tuples(alloc, book, store, root, Some(second), looks);
    [
        has_answers(book, store, root, &second, looks),
        all == Ok([Some(first), Some(second), Some(third), None]),
        rest == Ok([Some(third), None, None, None]),
    ]
}

/// The node of `aa`.
fn two_letters<L: Ledger>(store: &mut Store, pairs: &mut Steps<L>) -> Result<NodeId, NoMemory>
    ensures { IfOk result (λ root. root.index < length store.new) }
{
    let letter = store.byte(b'a')?;
    store.pair(letter, letter, pairs)
}

/// Whether the queries have answers, and whether this tuple is one.
fn has_answers<L: Ledger>(
    book: &QueryBook,
    store: &Store,
    root: Option<NodeId>,
    tuple: &Tuple,
    looks: &mut Steps<L>,
) -> bool
    requires covers { Covers store.now book.now }
    requires live { IsLive store.now root }
{
    let q = book.test(b"q", store, root, looks);
    let r = book.test(b"r", store, root, looks);
    let z = book.test(b"z", store, root, looks);
    let has = fits(book, b"q", tuple) && book.has(b"q", store, root, tuple, looks) == Ok(true);
    has && q == Ok(true) && r == Ok(false) && z == Err(BookRefusal::NoSuchQuery)
}

/// The first four tuples of the query `q`, or of those after a tuple.
fn tuples<L: Ledger>(
    alloc: Global,
    book: &QueryBook,
    store: &Store,
    root: Option<NodeId>,
    after: Option<Tuple>,
    looks: &mut Steps<L>,
) -> Result<[Option<Tuple>; 4], BookRefusal>
    requires covers { Covers store.now book.now }
    requires live { IsLive store.now root }
{
    let mut answers = match after {
        Some(tuple) if fits(book, b"q", &tuple) => {
            book.seek(alloc, b"q", store, root, &tuple, looks)?
        }
        _ => book.start(alloc, b"q", store, root, looks)?,
    };
    Ok([
        answers.next(looks),
        answers.next(looks),
        answers.next(looks),
        answers.next(looks),
    ])
}

/// Whether the tuple has as many variables as the query with this name.
pub fn fits(book: &QueryBook, name: &[u8], tuple: &Tuple) -> bool
    ensures { IsTrue result → HasVariablesOf (queries_of book.now) name.now tuple.now }
{
    match book.vars(name) {
        Ok(vars) => vars.count() == tuple.count(),
        Err(_) => false,
    }
}
