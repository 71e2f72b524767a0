//! Tests of how often a gate is passed, and that `run` uses the number of workers that the arguments set.
use crate::running::{Setting, plain, run_over, shelf_of};
use edge_io::SureSink;
use span_run::Status;
use std::alloc::{AllocError, Global};
use std::sync::atomic::{AtomicU64, Ordering};
use std::test::Fail;
use std::thread::Threads;
use work_gate::Gate;

/// The maximum number of turns that a thread waits for another.
const TURNS: u32 = 50_000_000;

/// A gate that lets `passing` threads pass. It holds the next thread until another one arrives, for at most `TURNS`
/// turns.
#[derive(Drop)]
struct Meeting {
    passing: u64,
    arrived: AtomicU64,
    gave_up: AtomicU64,
}

impl Gate for Meeting {
    fn pass(&self, _index: usize) {
        if self.arrived.fetch_add(1, Ordering::SeqCst) != self.passing {
            return;
        }
        for _ in 0..TURNS {
            if self.arrived.load(Ordering::SeqCst) != self.passing.wrapping_add(1) {
                return;
            }
        }
        self.gave_up.store(1, Ordering::SeqCst);
    }
}

/// The outcome of a run over the gate: its status, the number of arrivals, and the number of threads that waited in
/// vain.
type Met = (Status, u64, u64);

/// Runs a script with two workers over a gate that lets `passing` threads pass before it holds one.
fn met<R: Threads + Sync>(
    rt: &R,
    alloc: Global,
    script: &[u8],
    passing: u64,
) -> Result<Met, AllocError> {
    let setting = Setting {
        words: &["--workers", "2"],
        ..plain(script)
    };
    let gate = Meeting {
        passing,
        arrived: AtomicU64::new(0),
        gave_up: AtomicU64::new(0),
    };
    let mut shelf = shelf_of(alloc, setting)?;
    let status = run_over(
        rt,
        alloc,
        setting,
        &mut SureSink::new(alloc),
        &mut shelf,
        &gate,
    )?;
    let arrived = gate.arrived.load(Ordering::SeqCst);
    Ok((status, arrived, gate.gave_up.load(Ordering::SeqCst)))
}

/// More threads than ever arrive: the gate holds none.
const ALL: u64 = u64::MAX;

/// Scripts, the number of threads that pass before one is blocked, and the number of arrivals. In the first script two
/// nodes meet, in the second two documents.
///
/// The others have 20 nodes, of which nothing reaches 5 when `e` is dropped. The tables of a new query are computed for
/// each node, so they show how many `compact` leaves. The tables of these stay: the last page computes none.
const MEETINGS: [(&str, u64, u64); 6] = [
    ("text d abcd\nquery q .*\ntest q d\n", 0, 7),
    ("text a a\ntext b b\nquery q .\ntest q a\nlistall q\n", 2, 4),
    (
        "text d abracadabra\ntext e xyz\nquery q .*$x{a}.*\nlist q d limit 1\n",
        ALL,
        20,
    ),
    (
        "text d abracadabra\ntext e xyz\nquery q .*$x{a}.*\nlist q d limit 1\ndrop e\nquery r b\ntest r d\n",
        ALL,
        40,
    ),
    (
        "text d abracadabra\ntext e xyz\nquery q .*$x{a}.*\nlist q d limit 1\ndrop e\ncompact\nquery r b\ntest r d\n",
        ALL,
        35,
    ),
    (
        "text d abracadabra\ntext e xyz\nquery q .*$x{a}.*\nlist q d limit 1\ndrop e\ncompact\nlist q d after x=[1,2) limit 1\n",
        ALL,
        20,
    ),
];

#[test]
fn arrivals(rt: HostRuntime) -> Result<(), Fail> {
    for (script, passing, arrived) in MEETINGS {
        let told = met(&rt, rt.alloc(), script.as_bytes(), passing)?;
        assert_eq!(rt; told, (Status::Done, arrived, 0), "{script}");
    }
    Ok(())
}
