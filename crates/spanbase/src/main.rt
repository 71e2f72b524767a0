//! Reads a script from standard input, and writes its replies to standard output.
//!
//! ```text
//! spanbase < logs.script                                   # the replies
//! spanbase --workers 4 < logs.script                       # the same replies, tables made on four threads
//! spanbase --demo 46                                       # a script of its own
//! ```
//!
//! `main` reads the command-line arguments, and calls `span_run::run` with standard input, standard output and the
//! files of the current folder. The exit status is 0 if every line was accepted, and 1 if a line was rejected. It is 2
//! to 7 if the run was stopped. Then the name of the status is written to standard error, or for rejected arguments the
//! usage text. The cost of a run is that of its lines.
//!
//! Proved: When a fault or rejected arguments may be the cause of a status.
//!
//! Tested: Its stored run and all cases; no file is saved after output that failed (`tools/hostile`).
#![tactic(auto)]

ghost use Rattle.edge_io.specs.Causes.{HasIncreased};
ghost use Rattle.span_language.specs.Scripts.{AsksForNoDemo};
ghost use Rattle.span_words.specs.Words.{Refused};
ghost use Rattle.std.specs.Prelude.{◌≡◌, ◌<◌, ◌⊎◌, ◌^◌, IfSome, length, map, string_bytes};

use edge_io::{BufferedSink, DirShelf, Sink, Source, StdSink, StdSource};
use program_report::{arguments, report, report_status};
use span_run::{Status, run};
use span_types::Steps;
use std::alloc::Global;
use std::io::{self, Print};
use std::marker::Brand;
use std::process::ExitCode;
use std::rt::Files;
use std::sync::ledger::{Blank, Ledger};
use std::thread::Threads;
use work_gate::OpenGate;

/// A new ledger for each of the three counters: of node constructions, of computed tables and of table lookups.
struct Blanks {
    pairs: Blank,
    places: Blank,
    looks: Blank,
}

/// Runs a script over the files of the current folder, with a counter on each of three ledgers.
fn run_script<
    R: Threads + Sync + Files + AllocGlobal,
    S: Source,
    K: Sink,
    P: Ledger,
    T: Ledger,
    L: Ledger,
>(rt: &R, alloc: Global, words: &[String], script: &mut S, out: &mut K, blanks: Blanks) -> Status
    requires pairs { (blanks.pairs.name ≡ P.name) × (blanks.pairs.parts ≡ P.parts) × (0 < P.parts) }
    requires places { (blanks.places.name ≡ T.name) × (blanks.places.parts ≡ T.parts) × (0 < T.parts) }
    requires looks { (blanks.looks.name ≡ L.name) × (blanks.looks.parts ≡ L.parts) × (0 < L.parts) }
    ensures usage { result ≡ Status.Usage → Refused (map string_bytes words.now) }
    ensures refused { Refused (map string_bytes words.now) → (result ≡ Status.Usage) ⊎ (result ≡ Status.NoMemory) }
    ensures script_fault { result ≡ Status.ScriptFault → AsksForNoDemo (map string_bytes words.now) × HasIncreased (S.faults script.old) (S.faults script.new) }
    ensures out_fault { result ≡ Status.OutFault → HasIncreased (K.faults out.old) (K.faults out.new) }
    ensures too_long { result ≡ Status.ScriptTooLong → AsksForNoDemo (map string_bytes words.now) × IfSome (S.left script.old) (λ bytes. 2 ^ 24 < length bytes) }
    ensures nothing { (result ≡ Status.Usage) ⊎ (result ≡ Status.ScriptFault) ⊎ (result ≡ Status.ScriptTooLong) ⊎ Refused (map string_bytes words.now) → K.written out.new ≡ K.written out.old }
{
    let Blanks {
        pairs,
        places,
        looks,
    } = blanks;
    let mut shelf = DirShelf::new(rt);
    let mut pairs = Steps::<P>::new(pairs);
    let mut places = Steps::<T>::new(places);
    let mut looks = Steps::<L>::new(looks);
    run(
        rt,
        alloc,
        words,
        script,
        out,
        &mut shelf,
        &OpenGate,
        &mut pairs,
        &mut places,
        &mut looks,
    )
}

/// Runs a script over the files of the current folder, with replies to standard output. The lines of a reply are
/// buffered up to some kilobytes or the end of the reply. If the run was stopped, the buffered output is written before
/// the status is chosen, so a failure of that write also counts as a write failure. Output is not retried after a
/// failure.
fn run_over<R: Threads + Sync + Files + AllocGlobal + Print, S: Source>(
    rt: &R,
    words: &[String],
    script: &mut S,
) -> Status {
    let Ok(mut replies) = BufferedSink::new(rt.alloc(), StdSink::new(io::writer(rt))) else {
        return Status::NoMemory;
    };
    let blanks = Blanks {
        pairs: Blank::new(1),
        places: Blank::new(1),
        looks: Blank::new(1),
    };
    let status = run_script::<_, _, _, Brand, Brand, Brand>(
        rt,
        rt.alloc(),
        words,
        script,
        &mut replies,
        blanks,
    );
    if status == Status::OutFault {
        return status;
    }
    match replies.flush() {
        Ok(()) => status,
        Err(_) => Status::OutFault,
    }
}

fn main(rt: HostRuntime) -> io::Result<ExitCode> {
    let status = match arguments(&rt) {
        Ok(words) => {
            let mut script = StdSource::new(rt.reader());
            let status = run_over(&rt, &words, &mut script);
            report(&rt, status, &words);
            status
        }
        Err(status) => {
            report_status(&rt, status);
            status
        }
    };
    Ok(ExitCode::from(status.number()))
}
