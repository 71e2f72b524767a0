//! The computation of tables.
ghost use Rattle.query_book.specs.Book.{queries_of};
ghost use Rattle.query_book.specs.Grown.{GrowsCounts, GrowsTables};
ghost use Rattle.query_book.specs.Named.{value_of};
ghost use Rattle.query_book.specs.Serving.{CoversQuery, HasCounts, Serves};
ghost use Rattle.std.specs.Prelude.{◌≡◌, ℕ, List, None, false, length, OnOk};

use node_store::Store;
use query_book::{BookRefusal, QueryBook};
use session_state::Lent;
use span_types::{Name, NoMemory, Steps};
use std::alloc::Global;
use std::sync::ledger::Ledger;
use std::thread::Threads;
use work_gate::Gate;

/// Computes the missing tables of the query with this name, so that each node of the store has one. If there is no such
/// query nothing changes, and if allocation fails, the query has the tables that it had.
#[tactic(auto, using(crate::proofs::Facts::all_grown))]
pub fn grow<R: Threads + Sync, G: Gate, T: Ledger>(
    lent: Lent<'_, R, G>,
    alloc: Global,
    query: &Name,
    store: &Store,
    book: &mut QueryBook,
    places: &mut Steps<T>,
) -> Result<(), NoMemory>
    requires serves { Serves store.now book.old }
    ensures all { OnOk result (CoversQuery store.now book.new query.now) }
    ensures grown { GrowsTables false store.now book.old book.new places.old places.new }
    ensures missing { value_of (queries_of book.old) query.now ≡ None → (book.new ≡ book.old) × (places.new ≡ places.old) }
{
    let name = query.bytes();
    match book.grow_one(lent.rt, alloc, name, store, lent.workers, lent.gate, places) {
        Ok(()) => Ok(()),
        Err(BookRefusal::NoSuchQuery) => Ok(()),
        Err(BookRefusal::NoMemory) => Err(NoMemory),
    }
}

/// Computes the missing counting tables of the query with this name, so that each node of the store has one. If there is no
/// such query nothing changes, and if allocation fails, the query has the counting tables that it had.
pub fn grow_counts<R: Threads + Sync, G: Gate, T: Ledger>(
    lent: Lent<'_, R, G>,
    alloc: Global,
    query: &Name,
    store: &Store,
    book: &mut QueryBook,
    places: &mut Steps<T>,
) -> Result<(), NoMemory>
    requires serves { Serves store.now book.old }
    ensures counts { OnOk result (HasCounts (length store.now) book.new query.now) }
    ensures covers { (name : List ℕ) → CoversQuery store.now book.old name → CoversQuery store.now book.new name }
    ensures grown { GrowsCounts store.now book.old book.new places.old places.new }
    ensures missing { value_of (queries_of book.old) query.now ≡ None → (book.new ≡ book.old) × (places.new ≡ places.old) }
{
    let name = query.bytes();
    match book.grow_counts(lent.rt, alloc, name, store, lent.workers, lent.gate, places) {
        Ok(()) => Ok(()),
        Err(BookRefusal::NoSuchQuery) => Ok(()),
        Err(BookRefusal::NoMemory) => Err(NoMemory),
    }
}
