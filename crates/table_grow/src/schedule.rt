//! The new nodes in the order of any schedule.

ghost use Rattle.marker_dfa.specs.Deterministic.{states_of};
ghost use Rattle.state_tables.specs.Dictionary.{AreTables, count_of, table_of};
ghost use Rattle.std.specs.Prelude.{◌≡◌, ℕ, ◌+◌, ◌-◌, ◌<◌, ◌≤◌, length, OnOk, OnErr};
ghost use Rattle.table_grow.specs.Filling.{Continues, IsFilled, IsFilledTo};
ghost use Rattle.table_grow.specs.Schedule.{IsSchedule};

use crate::filling::{Filling, Growth};
use crate::found::find;
use crate::place::place_found;
use marker_dfa::Dfa;
use node_store::{NodeId, Store};
use pair_memo::PairMemo;
use span_types::{NoMemory, Steps};
use state_tables::Tables;
use std::alloc::Global;
use std::sync::ledger::Ledger;

// Assigns tables to the new nodes in the order of the schedule.
fn fill_new(filling: &mut Filling, schedule: &[NodeId]) -> Result<(), NoMemory>
    requires filled { IsFilledTo filling.old filling.old.filler.known }
    requires schedule { IsSchedule filling.old.nodes filling.old.filler.known schedule.now }
    ensures continues { Continues filling.old filling.new }
    ensures filled { OnOk result (IsFilled filling.new) }
{
    for id in schedule {
        let found = find(filling, *id)?;
        place_found(filling, *id, found)?;
    }
    Ok(())
}

/// The size of the cache of compositions for a schedule, in compositions.
const CACHED: usize = 4096;

/// Computes the tables of all nodes of the store that have none, in the order of a schedule: a list of the nodes
/// without a table, each once, each after those of its children that have none. It shows that the order doesn't matter.
///
/// # Errors
///
/// `NoMemory` if allocation fails; each node's table is then unchanged.
pub fn fill<L: Ledger>(
    alloc: Global,
    tables: &mut Tables,
    store: &Store,
    dfa: &Dfa,
    schedule: &[NodeId],
    places: &mut Steps<L>,
) -> Result<(), NoMemory>
    requires covered { count_of tables.old ≤ length store.now }
    requires states { tables.old.states ≡ states_of dfa.now }
    requires true_tables { AreTables dfa.now store.now tables.old }
    requires schedule { IsSchedule store.now (count_of tables.old) schedule.now }
    ensures all { OnOk result (count_of tables.new ≡ length store.now) }
    ensures meaning { AreTables dfa.now store.now tables.new }
    ensures old { (id : ℕ) → id < count_of tables.old → table_of tables.new id ≡ table_of tables.old id }
    ensures err { OnErr result (tables.new.numbers ≡ tables.old.numbers) }
    ensures steps_ok { OnOk result (places.new ≡ places.old + (length store.now - count_of tables.old)) }
    ensures steps_err { OnErr result (places.new ≡ places.old) }
{
    let _ = tables.count();
    let mut memory = PairMemo::new(alloc, CACHED)?;
    let mut filling = Filling::open(Growth { alloc, store, dfa }, tables, &mut memory)?;
    let done = fill_new(&mut filling, schedule);
    filling.close(done, tables, &mut memory, places)
}
