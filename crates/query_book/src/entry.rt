//! The entries of the registry.
ghost use Rattle.query_book.specs.Compiling.{IsCompiled};
ghost use Rattle.query_book.specs.Growing.{Grows, Keeps, MayGrow};
ghost use Rattle.query_book.specs.Kept.{IsSound};
ghost use Rattle.query_book.specs.Making.{IsFresh};
ghost use Rattle.query_book.specs.Serving.{IsServed};
ghost use Rattle.state_tables.specs.Dictionary.{count_of};
ghost use Rattle.std.specs.Prelude.{◌≡◌, ◌+◌, ◌≤◌, IfOk, OnErr, OnOk};

use crate::compiled::Compiled;
use count_tables::CountTables;
use node_store::Store;
use span_types::{Name, NoMemory, Steps};
use state_tables::Tables;
use std::alloc::{AllocError, Global};
use std::sync::ledger::Ledger;
use std::thread::Threads;
use table_grow::{Memory, grow};
use work_gate::Gate;

/// The size of each query's cache of compositions, in compositions.
const REMEMBERED: usize = 65_536;

/// A query, its tables for the first nodes of a store, and a cache of compositions of these tables. A query whose answers
/// were counted also has counting tables.
#[derive(Drop)]
pub struct TabledQuery {
    pub(crate) query: Compiled,
    pub(crate) tables: Tables,
    pub(crate) memory: Memory,
    pub(crate) counts: Option<CountTables>,
}

/// A query with its tables, and its name.
#[derive(Drop)]
pub struct Entry {
    pub(crate) name: Name,
    pub(crate) tabled: TabledQuery,
}

/// What the computation of tables needs apart from the queries: the runtime, the allocator, the store, the maximum
/// number of pieces that run at once, and the gate.
pub(crate) struct Lent<'a, R: Threads + Sync, G: Gate> {
    pub(crate) rt: &'a R,
    pub(crate) alloc: Global,
    pub(crate) store: &'a Store,
    pub(crate) workers: u8,
    pub(crate) gate: &'a G,
    ghost least: { 1 ≤ workers },
    ghost most: { workers ≤ 64 },
}

impl<'a, R: Threads + Sync, G: Gate> Clone for Lent<'a, R, G> {
    fn clone(&self) -> Result<Self, AllocError> {
        Ok(*self)
    }
}

impl<'a, R: Threads + Sync, G: Gate> Copy for Lent<'a, R, G> {}

/// An entry without tables.
pub(crate) fn fresh_entry(alloc: Global, name: Name, query: Compiled) -> Result<Entry, NoMemory>
    requires { IsCompiled query }
    ensures { IfOk result (IsFresh name query) }
{
    let tables = Tables::new(alloc, &query.dfa);
    let memory = Memory::new(alloc, REMEMBERED)?;
    let tabled = TabledQuery {
        query,
        tables,
        memory,
        counts: None,
    };
    Ok(Entry { name, tabled })
}

/// Computes the query's missing tables, so that each node of the store has one.
pub(crate) fn grow_query<R: Threads + Sync, G: Gate, L: Ledger>(
    lent: Lent<'_, R, G>,
    tabled: &mut TabledQuery,
    places: &mut Steps<L>,
) -> Result<(), NoMemory>
    requires sound { IsSound tabled.old }
    requires served { IsServed lent.store.now tabled.old }
    ensures all { OnOk result (Grows lent.entry.store.now tabled.old tabled.new) }
    ensures same { OnErr result (Keeps lent.entry.store.now tabled.old tabled.new) }
    ensures some { MayGrow lent.entry.store.now tabled.old tabled.new }
    ensures steps { places.new + count_of tabled.old.tables ≡ places.old + count_of tabled.new.tables }
{
    grow(
        lent.rt,
        lent.alloc,
        &mut tabled.tables,
        lent.store,
        &tabled.query.dfa,
        &mut tabled.memory,
        lent.workers,
        lent.gate,
        places,
    )
}
