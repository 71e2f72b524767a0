//! A sink that accepts half of each piece, and runs of a script over it.
ghost use Rattle.std.specs.Prelude.{None};

use crate::running::{Outcome, outcome_of, plain, run_over, shelf_of};
use edge_io::{Sink, SureSink, WriteRefusal};
use std::alloc::{AllocError, Global};
use std::thread::Threads;
use work_gate::OpenGate;

/// A sink into memory that never fails, and accepts only the first half of each piece, rounded up.
#[derive(Drop)]
struct HalfSink {
    inner: SureSink,
}

impl Sink for HalfSink {
    ghost written = { λ _. None };

    ghost kept = { λ _. 0 };

    ghost faults = { λ _. 0 };

    ghost wants = { λ s. s.inner.wants };

    fn write(&mut self, piece: &[u8]) -> Result<usize, WriteRefusal> {
        let half = piece.len() - piece.len() / 2;
        self.inner.write(&piece[..half])
    }

    fn flush(&mut self) -> Result<(), WriteRefusal> {
        self.inner.flush()
    }
}

/// Runs a script over such a sink and without files.
pub fn ran_by_halves<R: Threads + Sync>(
    rt: &R,
    alloc: Global,
    script: &[u8],
    output: &[u8],
) -> Result<Outcome, AllocError> {
    let inner = SureSink::new(alloc);
    let mut sink = HalfSink { inner };
    let setting = plain(script);
    let mut shelf = shelf_of(alloc, setting)?;
    let status = run_over(rt, alloc, setting, &mut sink, &mut shelf, &OpenGate)?;
    Ok(outcome_of(status, sink.inner.written(), output))
}
