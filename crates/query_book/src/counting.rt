//! Computation of the counting tables of one query.
ghost use Rattle.marker_dfa.specs.Deterministic.{states_of};
ghost use Rattle.query_book.specs.Book.{entries_of};
ghost use Rattle.query_book.specs.Counting.{counted};
ghost use Rattle.query_book.specs.Growing.{CannotCount, ChangesAt, ChangesNamed, GrowsCounts, KeepsCounts};
ghost use Rattle.query_book.specs.Kept.{AreSound, IsSound};
ghost use Rattle.query_book.specs.Serving.{AreServed, IsServed, counted_in, sum_of};
ghost use Rattle.std.specs.Prelude.{◌≡◌, ◌+◌, ◌<◌, [], length, IfOk, MatchOption, MatchResult, None, OnErr, OnOk};

use crate::entry::{Lent, TabledQuery};
use crate::finding::index_of;
use crate::refusal::BookRefusal;
use count_tables::CountTables;
use marker_dfa::Dfa;
use name_map::NameMap;
use span_types::{NoMemory, Steps};
use std::alloc::Global;
use std::sync::ledger::Ledger;
use std::thread::Threads;
use work_gate::Gate;

/// Computes the missing counting tables of the query with this name. `NoSuchQuery` exactly if there is none, and then
/// nothing changes.
pub(crate) fn count_named<R: Threads + Sync, G: Gate, L: Ledger>(
    lent: Lent<'_, R, G>,
    by_name: &mut NameMap<TabledQuery>,
    name: &[u8],
    places: &mut Steps<L>,
) -> Result<(), BookRefusal>
    requires kept { AreSound by_name.old }
    requires served { AreServed lent.store.now (entries_of by_name.old) }
    ensures changes { MatchResult result (λ _. ChangesNamed (GrowsCounts lent.entry.store.now) name.now by_name.old by_name.new) (CannotCount lent.entry.store.now name.now by_name.old by_name.new) }
    ensures steps { places.new + sum_of (counted_in (entries_of by_name.old)) ≡ places.old + sum_of (counted_in (entries_of by_name.new)) }
{
    let Some(index) = index_of(by_name, name) else {
        return Err(BookRefusal::NoSuchQuery);
    };
    count_at(lent, by_name, index, places)?;
    Ok(())
}

/// Computes the missing counting tables of the query at an index.
fn count_at<R: Threads + Sync, G: Gate, L: Ledger>(
    lent: Lent<'_, R, G>,
    by_name: &mut NameMap<TabledQuery>,
    index: usize,
    places: &mut Steps<L>,
) -> Result<(), NoMemory>
    requires index { index < length by_name.old }
    requires kept { AreSound by_name.old }
    requires served { AreServed lent.store.now (entries_of by_name.old) }
    ensures all { OnOk result (ChangesAt (GrowsCounts lent.entry.store.now) index by_name.old by_name.new) }
    ensures same { OnErr result (ChangesAt (KeepsCounts lent.entry.store.now) index by_name.old by_name.new) }
    ensures steps { places.new + sum_of (counted_in (entries_of by_name.old)) ≡ places.old + sum_of (counted_in (entries_of by_name.new)) }
{
    let tabled = by_name.value_mut(index);
    count_query(lent, tabled, places)
}

/// Computes the query's missing counting tables, so that each node of the store has one.
fn count_query<R: Threads + Sync, G: Gate, L: Ledger>(
    lent: Lent<'_, R, G>,
    tabled: &mut TabledQuery,
    places: &mut Steps<L>,
) -> Result<(), NoMemory>
    requires sound { IsSound tabled.old }
    requires served { IsServed lent.store.now tabled.old }
    ensures all { OnOk result (GrowsCounts lent.entry.store.now tabled.old tabled.new) }
    ensures same { OnErr result (KeepsCounts lent.entry.store.now tabled.old tabled.new) }
    ensures steps { places.new + counted tabled.old ≡ places.old + counted tabled.new }
{
    let mut counts = counts_or_new(lent.alloc, tabled.counts.take(), &tabled.query.dfa)?;
    let done = counts.grow(
        lent.rt,
        lent.alloc,
        lent.store,
        &tabled.query.dfa,
        lent.workers,
        lent.gate,
        places,
    );
    tabled.counts = Some(counts);
    done
}

/// The counting tables, or those of no node.
fn counts_or_new(
    alloc: Global,
    counts: Option<CountTables>,
    dfa: &Dfa,
) -> Result<CountTables, NoMemory>
    ensures tables { IfOk result (λ t. MatchOption counts (t ≡ record { states = states_of dfa.now; kept = []; numbers = [] }) (λ d. t ≡ d)) }
    ensures none { OnErr result (counts ≡ None) }
{
    match counts {
        Some(counts) => Ok(counts),
        None => CountTables::new(alloc, dfa),
    }
}
