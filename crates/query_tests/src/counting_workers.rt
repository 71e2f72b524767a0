//! Counting tables that are computed by several workers.
ghost use Rattle.count_tables.specs.Dictionary.{AreCountTables, count_of};
ghost use Rattle.marker_dfa.specs.Deterministic.{states_of};
ghost use Rattle.std.specs.Prelude.{◌≡◌, ◌<◌, length, IfOk};

use crate::formulas::automaton_of;
use crate::meeting::Meeting;
use crate::workers::Workers;
use count_tables::CountTables;
use marker_dfa::Dfa;
use node_store::Store;
use pair_loader::load;
use span_types::{NoMemory, Steps};
use std::alloc::Global;
use std::marker::Brand;
use std::sync::ledger::{Blank, Ledger};
use std::test::Fail;
use std::thread::Threads;
use work_gate::Gate;

/// The counting tables of a store.
pub fn counts_of<R: Threads + Sync, G: Gate, L: Ledger>(
    workers: Workers<'_, R, G>,
    alloc: Global,
    store: &Store,
    dfa: &Dfa,
    places: &mut Steps<L>,
) -> Result<CountTables, NoMemory>
    ensures covered { IfOk result (λ counts. count_of counts ≡ length store.now) }
    ensures states { IfOk result (λ counts. counts.states ≡ states_of dfa.now) }
    ensures true_tables { IfOk result (AreCountTables dfa.now store.now) }
{
    let mut counts = CountTables::new(alloc, dfa)?;
    counts.grow(
        workers.rt,
        alloc,
        store,
        dfa,
        workers.count,
        workers.gate,
        places,
    )?;
    Ok(counts)
}

/// The numbers of nodes with counting tables, of distinct tables, and of answers. In the texts of these tests `ab` and
/// `cd` have tables of their own.
type Counts = (usize, usize, u64);

/// The numbers for a short text.
fn counted_by<R: Threads + Sync, G: Gate, L: Ledger>(
    workers: Workers<'_, R, G>,
    alloc: Global,
    blank: Blank,
    text: &[u8],
) -> Result<Counts, NoMemory>
    requires { (blank.name ≡ L.name) × (blank.parts ≡ L.parts) × (0 < L.parts) }
{
    if text.len() > 100 {
        return Err(NoMemory);
    }
    let dfa = automaton_of(alloc, b".*$x{ab}.*$y{cd}.*")?;
    let mut steps = Steps::<L>::new(blank);
    let mut store = Store::new(alloc);
    let root = load(alloc, &mut store, text, &mut steps)?;
    let counts = counts_of(workers, alloc, &store, &dfa, &mut steps)?;
    let number = counts.number(&store, &dfa, root);
    Ok((counts.count(), counts.distinct(), number))
}

/// The same for a test.
fn counts<R: Threads + Sync, G: Gate>(
    workers: Workers<'_, R, G>,
    alloc: Global,
    text: &[u8],
) -> Result<Counts, NoMemory> {
    counted_by::<R, G, Brand>(workers, alloc, Blank::new(1), text)
}

/// The numbers of workers.
const WORKERS: [u8; 4] = [1, 2, 5, 64];

#[test]
fn the_same_on_any_workers(rt: HostRuntime) -> Result<(), Fail> {
    for count in WORKERS {
        let gate = Meeting::new(None);
        let workers = Workers {
            rt: &rt,
            count,
            gate: &gate,
        };
        let found = counts(workers, rt.alloc(), b"ababcdab")?;
        assert!(rt; found == (9, 9, 2), "{count} {found:?}");
        assert!(rt; gate.counts() == (9, 0, 0), "{count}");
    }
    Ok(())
}

/// The children of the root of `abcd`, which are `ab` and `cd`.
const CHILDREN: (usize, usize) = (2, 5);

#[test]
fn two_counted_nodes_meet(rt: HostRuntime) -> Result<(), Fail> {
    let gate = Meeting::new(Some(CHILDREN));
    let workers = Workers {
        rt: &rt,
        count: 2,
        gate: &gate,
    };
    let found = counts(workers, rt.alloc(), b"abcd")?;
    assert!(rt; found == (7, 7, 1), "{found:?}");
    assert!(rt; gate.counts() == (7, 2, 0));
    Ok(())
}
