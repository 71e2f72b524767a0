//! Reads a script from standard input line by line, and writes the reply to each line to standard output before reading
//! on.
//!
//! ```text
//! $ printf 'text d abc\nshow d 1 3\n' | spanshell
//! ok d 3 "abc"
//! "ab"
//! ```
//!
//! The arguments are those of spanbase, `--workers N`, `--states N` and `--demo N`, and so are the exit statuses. At a terminal, the
//! number of the next line is shown on standard error. The lines are executed by `talk` of span_talk; this crate reads
//! the arguments, and passes it standard input, standard output and the files of the current folder.
//!
//! Proved: The possible causes of each status.
//!
//! Tested: Its stored run; all cases, whole and in pieces; prompts at a terminal.
#![tactic(auto)]

ghost use Rattle.edge_io.specs.Causes.{HasIncreased};
ghost use Rattle.span_words.specs.Words.{Refused, Words};
ghost use Rattle.std.specs.Prelude.{◌≡◌, ◌≤◌, ◌<◌, IfErr, IfOk, map, string_bytes};

use edge_io::{DirShelf, Sink, Source, StdSink, StdSource, SureSource};
use program_report::{arguments, report, report_status};
use span_run::Status;
use span_talk::{Client, Listener, talk};
use span_types::Steps;
use span_words::{Options, WordsRefusal, read_words};
use std::alloc::Global;
use std::io::{self, IsTerminal, Print};
use std::marker::Brand;
use std::process::ExitCode;
use std::rt::{Files, Stderr};
use std::sync::ledger::{Blank, Ledger};
use std::thread::Threads;
use text_gen::demo;
use work_gate::OpenGate;

/// Parses the arguments. Returns the options, or the status with which the run ends.
fn options_of(alloc: Global, words: &[String]) -> Result<Options, Status>
    ensures taken { IfOk result (λ options. Words (map string_bytes words.now) options.workers options.states options.demo) }
    ensures usage { IfErr result (λ status. status ≡ Status.Usage → Refused (map string_bytes words.now)) }
{
    match read_words(alloc, words) {
        Ok(options) => Ok(options),
        Err(WordsRefusal::Usage) => Err(Status::Usage),
        Err(WordsRefusal::NoMemory) => Err(Status::NoMemory),
    }
}

/// A new ledger for each of the three counters: of node constructions, of computed tables and of table lookups.
struct Blanks {
    pairs: Blank,
    places: Blank,
    looks: Blank,
}

/// Runs a conversation with a client over the files of the current folder, with a counter on each of three ledgers.
fn talk_with<
    R: Threads + Sync + Files + AllocGlobal,
    C: Client<K>,
    K: Sink,
    P: Ledger,
    T: Ledger,
    L: Ledger,
>(rt: &R, client: &mut C, options: Options, out: &mut K, blanks: Blanks) -> Status
    requires least { 1 ≤ options.workers }
    requires most { options.workers ≤ 64 }
    requires few { 128 ≤ options.states }
    requires many { options.states ≤ 1024 }
    requires pairs { (blanks.pairs.name ≡ P.name) × (blanks.pairs.parts ≡ P.parts) × (0 < P.parts) }
    requires places { (blanks.places.name ≡ T.name) × (blanks.places.parts ≡ T.parts) × (0 < T.parts) }
    requires looks { (blanks.looks.name ≡ L.name) × (blanks.looks.parts ≡ L.parts) × (0 < L.parts) }
    ensures script_fault { result ≡ Status.ScriptFault → HasIncreased (C.faults client.old) (C.faults client.new) }
    ensures out_fault { result ≡ Status.OutFault → HasIncreased (K.faults out.old) (K.faults out.new) }
{
    let Blanks {
        pairs,
        places,
        looks,
    } = blanks;
    let mut shelf = DirShelf::new(rt);
    let mut pairs = Steps::<P>::new(pairs);
    let mut places = Steps::<T>::new(places);
    let mut looks = Steps::<L>::new(looks);
    talk(
        rt,
        rt.alloc(),
        client,
        options.workers,
        options.states,
        out,
        &mut shelf,
        &OpenGate,
        &mut pairs,
        &mut places,
        &mut looks,
    )
}

/// Runs a conversation with the sender of a source's bytes, with the workers and states of the options, and writes the
/// replies to standard output.
fn talk_over<R: Threads + Sync + Files + AllocGlobal + Print, S: Source + Drop>(
    rt: &R,
    source: S,
    prompts: Option<Stderr>,
    options: Options,
) -> Status
    requires least { 1 ≤ options.workers }
    requires most { options.workers ≤ 64 }
    requires few { 128 ≤ options.states }
    requires many { options.states ≤ 1024 }
{
    let mut client = Listener::new(source, prompts);
    let mut out = StdSink::new(io::writer(rt));
    let blanks = Blanks {
        pairs: Blank::new(1),
        places: Blank::new(1),
        looks: Blank::new(1),
    };
    talk_with::<_, _, _, Brand, Brand, Brand>(rt, &mut client, options, &mut out, blanks)
}

/// The writer for prompts: standard error, if it and standard input are a terminal, and otherwise none.
fn prompts_of(rt: &HostRuntime) -> Option<Stderr> {
    if rt.stdin().is_terminal() && rt.stderr().is_terminal() {
        Some(rt.stderr())
    } else {
        None
    }
}

fn main(rt: HostRuntime) -> io::Result<ExitCode> {
    let status = match arguments(&rt) {
        Ok(words) => {
            let status = match options_of(rt.alloc(), &words) {
                Ok(options) => match options.demo {
                    None => talk_over(&rt, StdSource::new(rt.reader()), prompts_of(&rt), options),
                    Some(number) => match demo(rt.alloc(), number) {
                        Ok(script) => talk_over(&rt, SureSource::new(script), None, options),
                        Err(_) => Status::NoMemory,
                    },
                },
                Err(status) => status,
            };
            report(&rt, status, &words);
            status
        }
        Err(status) => {
            report_status(&rt, status);
            status
        }
    };
    Ok(ExitCode::from(status.number()))
}
