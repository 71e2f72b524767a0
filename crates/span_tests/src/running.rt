//! Runs of a script over objects in memory.
ghost use Rattle.std.specs.Prelude.{◌≡◌, ◌<◌};

use edge_io::{MemShelf, MemSink, MemSource, Shelf, Sink};
use span_run::{Status, run};
use span_types::Steps;
use std::alloc::{AllocError, Global};
use std::marker::Brand;
use std::sync::ledger::{Blank, Ledger};
use std::thread::Threads;
use work_gate::{Gate, OpenGate};

/// A script with its command-line arguments and its files, and the behaviour of the objects in memory.
#[derive(Clone, Copy)]
pub struct Setting<'a> {
    pub script: &'a [u8],
    pub words: &'a [&'a str],

    /// The name and the bytes of each file.
    pub files: &'a [(&'a str, &'a [u8])],

    /// The maximum number of bytes that a read or a write moves.
    pub piece: usize,

    /// The numbers of the calls that fail: of the source, the sink and the file store. Calls are numbered from 1.
    pub bad_read: u64,
    pub bad_write: u64,
    pub bad_call: u64,
}

/// A script without arguments and files, and objects that never fail.
pub fn plain<'a>(script: &'a [u8]) -> Setting<'a> {
    Setting {
        script,
        words: &[],
        files: &[],
        piece: 1000,
        bad_read: 0,
        bad_write: 0,
        bad_call: 0,
    }
}

/// How a run ended, and how the written bytes compare with an expected output.
#[derive(Clone, Copy, Debug, PartialEq, Eq)]
pub struct Outcome {
    pub status: Status,

    /// The number of written bytes.
    pub length: usize,

    /// Whether the expected output begins with the written bytes.
    pub is_prefix: bool,

    /// Whether the written bytes end with the expected output.
    pub is_suffix: bool,
}

/// The outcome of a run that wrote these bytes.
pub fn outcome_of(status: Status, written: &[u8], output: &[u8]) -> Outcome {
    Outcome {
        status,
        length: written.len(),
        is_prefix: output.starts_with(written),
        is_suffix: written.ends_with(output),
    }
}

/// The outcome of a run that wrote exactly the expected output.
pub fn whole(status: Status, output: &[u8]) -> Outcome {
    outcome_of(status, output, output)
}

/// A file store with the files of a setting.
pub fn shelf_of(alloc: Global, setting: Setting<'_>) -> Result<MemShelf, AllocError> {
    let mut files = Vec::new(alloc);
    for (name, bytes) in setting.files {
        files.push((name.as_bytes().to_vec(alloc)?, bytes.to_vec(alloc)?))?;
    }
    let failing = vec![in alloc; setting.bad_call]?;
    Ok(MemShelf::new(files, setting.piece.max(1), failing))
}

/// Runs a script over objects in memory.
pub fn ran<R: Threads + Sync>(
    rt: &R,
    alloc: Global,
    setting: Setting<'_>,
    output: &[u8],
) -> Result<Outcome, AllocError> {
    ran_over(rt, alloc, setting, output, &mut shelf_of(alloc, setting)?)
}

/// Runs a script over this file store.
pub fn ran_over<R: Threads + Sync, F: Shelf>(
    rt: &R,
    alloc: Global,
    setting: Setting<'_>,
    output: &[u8],
    shelf: &mut F,
) -> Result<Outcome, AllocError> {
    let failing = vec![in alloc; setting.bad_write]?;
    let mut sink = MemSink::new(alloc, setting.piece.max(1), failing);
    let status = run_over(rt, alloc, setting, &mut sink, shelf, &OpenGate)?;
    Ok(outcome_of(status, sink.written(), output))
}

/// Runs a script over these objects, with counters of its own.
pub fn run_over<R: Threads + Sync, K: Sink, F: Shelf, G: Gate>(
    rt: &R,
    alloc: Global,
    setting: Setting<'_>,
    sink: &mut K,
    shelf: &mut F,
    gate: &G,
) -> Result<Status, AllocError> {
    let mut words = Vec::new(alloc);
    for word in setting.words {
        words.push(String::from_str(alloc, word)?)?;
    }
    let script = setting.script.to_vec(alloc)?;
    let failing = vec![in alloc; setting.bad_read]?;
    let mut source = MemSource::new(script, setting.piece.max(1), failing);
    let host = Host { rt, alloc, gate };
    let blanks = (Blank::new(1), Blank::new(1), Blank::new(1));
    Ok(counted::<R, K, F, G, Brand, Brand, Brand>(host, &words, &mut source, sink, shelf, blanks))
}

/// What a run uses apart from its objects.
struct Host<'a, R: Threads + Sync, G: Gate> {
    rt: &'a R,
    alloc: Global,
    gate: &'a G,
}

fn counted<R: Threads + Sync, K: Sink, F: Shelf, G: Gate, P: Ledger, T: Ledger, L: Ledger>(
    host: Host<'_, R, G>,
    words: &[String],
    source: &mut MemSource,
    sink: &mut K,
    shelf: &mut F,
    blanks: (Blank, Blank, Blank),
) -> Status
    requires pairs { (blanks.0.name ≡ P.name) × (blanks.0.parts ≡ P.parts) × (0 < P.parts) }
    requires places { (blanks.1.name ≡ T.name) × (blanks.1.parts ≡ T.parts) × (0 < T.parts) }
    requires looks { (blanks.2.name ≡ L.name) × (blanks.2.parts ≡ L.parts) × (0 < L.parts) }
{
    let Host { rt, alloc, gate } = host;
    run(
        rt,
        alloc,
        words,
        source,
        sink,
        shelf,
        gate,
        &mut Steps::<P>::new(blanks.0),
        &mut Steps::<T>::new(blanks.1),
        &mut Steps::<L>::new(blanks.2),
    )
}
