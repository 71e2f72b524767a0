//! Table computation for one query, and for all queries, one after the other.
ghost use Rattle.query_book.specs.Book.{entries_of};
ghost use Rattle.query_book.specs.Growing.{CannotGrow, ChangesAt, ChangesFirst, ChangesNamed, Grows, Keeps, MayGrow};
ghost use Rattle.query_book.specs.Kept.{AreSound};
ghost use Rattle.query_book.specs.Serving.{AreServed, covered_in, sum_of};
ghost use Rattle.std.specs.Prelude.{◌≡◌, ◌+◌, ◌<◌, length, MatchResult, OnErr, OnOk};

use crate::entry::{Lent, TabledQuery, grow_query};
use crate::finding::index_of;
use crate::refusal::BookRefusal;
use name_map::NameMap;
use span_types::{NoMemory, Steps};
use std::sync::ledger::Ledger;
use std::thread::Threads;
use work_gate::Gate;

/// Computes the missing tables of the query with this name. `NoSuchQuery` exactly if there is none, and then nothing
/// changes.
pub(crate) fn grow_named<R: Threads + Sync, G: Gate, L: Ledger>(
    lent: Lent<'_, R, G>,
    by_name: &mut NameMap<TabledQuery>,
    name: &[u8],
    places: &mut Steps<L>,
) -> Result<(), BookRefusal>
    requires kept { AreSound by_name.old }
    requires served { AreServed lent.store.now (entries_of by_name.old) }
    ensures changes { MatchResult result (λ _. ChangesNamed (Grows lent.entry.store.now) name.now by_name.old by_name.new) (CannotGrow lent.entry.store.now name.now by_name.old by_name.new) }
    ensures steps { places.new + sum_of (covered_in (entries_of by_name.old)) ≡ places.old + sum_of (covered_in (entries_of by_name.new)) }
{
    let Some(index) = index_of(by_name, name) else {
        return Err(BookRefusal::NoSuchQuery);
    };
    grow_at(lent, by_name, index, places)?;
    Ok(())
}

/// Computes the missing tables of all queries. If allocation fails, some queries may have all tables, and the others
/// have those that they had.
pub(crate) fn grow_entries<R: Threads + Sync, G: Gate, L: Ledger>(
    lent: Lent<'_, R, G>,
    by_name: &mut NameMap<TabledQuery>,
    places: &mut Steps<L>,
) -> Result<(), NoMemory>
    requires kept { AreSound by_name.old }
    requires served { AreServed lent.store.now (entries_of by_name.old) }
    ensures all { OnOk result (ChangesFirst (Grows lent.entry.store.now) (length by_name.old) by_name.old by_name.new) }
    ensures some { ChangesFirst (MayGrow lent.entry.store.now) (length by_name.old) by_name.old by_name.new }
    ensures steps { places.new + sum_of (covered_in (entries_of by_name.old)) ≡ places.old + sum_of (covered_in (entries_of by_name.new)) }
{
    for index in 0..by_name.count() {
        grow_at(lent, by_name, index, places)?;
    }
    Ok(())
}

/// Computes the missing tables of the query at index `index`.
fn grow_at<R: Threads + Sync, G: Gate, L: Ledger>(
    lent: Lent<'_, R, G>,
    by_name: &mut NameMap<TabledQuery>,
    index: usize,
    places: &mut Steps<L>,
) -> Result<(), NoMemory>
    requires index { index < length by_name.old }
    requires kept { AreSound by_name.old }
    requires served { AreServed lent.store.now (entries_of by_name.old) }
    ensures all { OnOk result (ChangesAt (Grows lent.entry.store.now) index by_name.old by_name.new) }
    ensures same { OnErr result (ChangesAt (Keeps lent.entry.store.now) index by_name.old by_name.new) }
    ensures some { ChangesAt (MayGrow lent.entry.store.now) index by_name.old by_name.new }
    ensures steps { places.new + sum_of (covered_in (entries_of by_name.old)) ≡ places.old + sum_of (covered_in (entries_of by_name.new)) }
{
    let tabled = by_name.value_mut(index);
    grow_query(lent, tabled, places)
}
