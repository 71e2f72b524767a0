//! The top call: runs the script that the command-line arguments select, and returns a status.
ghost use Rattle.edge_io.specs.Causes.{HasIncreased};
ghost use Rattle.span_language.specs.Lines.{lines_of};
ghost use Rattle.span_language.specs.Runs.{outside, Anywhere, InFileLine, UnlessList, RunsAll, RunsPrefix};
ghost use Rattle.span_language.specs.Scripts.{script_of, AsksForNoDemo, OfScript};
ghost use Rattle.span_run.specs.Taken.{TakesAtMost};
ghost use Rattle.span_session.specs.Lending.{IsSameIo, IsSameMeters, outside_through};
ghost use Rattle.span_words.specs.Words.{Refused};
ghost use Rattle.std.specs.Prelude.{◌≡◌, ◌⊎◌, ◌+◌, ◌^◌, ◌<◌, ◌≤◌, true, false, None, Some, IfOk, IfErr, IfSome, MatchResult, OnOk, length, map, string_bytes};

use edge_io::{Shelf, Sink, Source};
use script_driver::Progress;
use session_state::Lent;
use span_language::Stop;
use span_session::{Io, Meters};
use span_types::Steps;
use span_words::{WordsRefusal, read_words};
use std::alloc::Global;
use std::sync::ledger::Ledger;
use std::thread::Threads;
use text_gen::demo;
use work_gate::Gate;

/// The maximum length of a script, in bytes.
const MAX_SCRIPT: usize = 1 << 24;

/// How a run ended. The program's exit status is the number of the status.
///
/// If a fault or an allocation failure stopped the run, what was written is a prefix of the whole output.
#[derive(Clone, Copy, Debug, PartialEq, Eq)]
pub enum Status {
    /// 0: every line was executed, and none was rejected.
    Done,
    /// 1: every line was executed, and at least one was rejected.
    SomeRefused,
    /// 2: the command-line arguments were rejected. Nothing is read or written.
    Usage,
    /// 3: the source failed. Nothing is written.
    ScriptFault,
    /// 4: writing to the sink failed.
    OutFault,
    /// 5: a call to the file store failed.
    ShelfFault,
    /// 6: an allocation failed.
    NoMemory,
    /// 7: the script has more than 2^24 bytes. Nothing is written.
    ScriptTooLong,
}

impl Status {
    ghost use Rattle.span_run.specs.Exit.{exit_of};

    /// The exit status of a program whose run ended so, 0 to 7.
    pub fn number(self) -> u8
        ensures { result ≡ exit_of self }
    {
        match self {
            Status::Done => 0,
            Status::SomeRefused => 1,
            Status::Usage => 2,
            Status::ScriptFault => 3,
            Status::OutFault => 4,
            Status::ShelfFault => 5,
            Status::NoMemory => 6,
            Status::ScriptTooLong => 7,
        }
    }
}

/// Why there is no script.
#[derive(Clone, Copy, Debug, PartialEq, Eq)]
enum NoScript {
    Fault,
    TooLong,
    NoMemory,
}

/// Reads all bytes of a source, which may be at most 2^24. At most one byte more is read from it.
fn read_script<S: Source>(alloc: Global, script: &mut S) -> Result<Vec<u8>, NoScript>
    ensures all { IfOk result (λ bytes. IfSome (S.left script.old) (λ left. bytes.items ≡ left)) }
    ensures short { IfOk result (λ bytes. length bytes.items ≤ 2 ^ 24) }
    ensures too_long { IfErr result (λ why. why ≡ NoScript.TooLong → IfSome (S.left script.old) (λ left. 2 ^ 24 < length left)) }
    ensures taken { TakesAtMost (2 ^ 24 + 1) (S.left script.old) (S.left script.new) }
    ensures later { S.faults script.old ≤ S.faults script.new }
    ensures fault { IfErr result (λ why. why ≡ NoScript.Fault → HasIncreased (S.faults script.old) (S.faults script.new)) }
    ensures sound { OnOk result (S.faults script.new ≡ S.faults script.old) }
{
    let mut bytes = Vec::new(alloc);
    let mut chunk = [0u8; 4096];
    while bytes.len() <= MAX_SCRIPT {
        let room = chunk.len().min(MAX_SCRIPT + 1 - bytes.len());
        let Ok(count) = script.read(&mut chunk[..room]) else {
            return Err(NoScript::Fault);
        };
        if count == 0 {
            return Ok(bytes);
        }
        if bytes.extend_from_slice(&chunk[..count]).is_err() {
            return Err(NoScript::NoMemory);
        }
    }
    Err(NoScript::TooLong)
}

/// The selected script: that of a demo, for which the source isn't read, or all bytes of the source.
fn asked_script<S: Source>(
    alloc: Global,
    number: Option<u8>,
    script: &mut S,
) -> Result<Vec<u8>, NoScript>
    requires { IfSome number (λ n. (1 ≤ n) × (n ≤ 46)) }
    ensures all { IfOk result (λ bytes. IfSome (script_of number (S.left script.old)) (λ told. bytes.items ≡ told)) }
    ensures short { IfOk result (λ bytes. length bytes.items ≤ 2 ^ 24) }
    ensures too_long { IfErr result (λ why. why ≡ NoScript.TooLong → (number ≡ None) × IfSome (S.left script.old) (λ left. 2 ^ 24 < length left)) }
    ensures taken { TakesAtMost (2 ^ 24 + 1) (S.left script.old) (S.left script.new) }
    ensures fault { IfErr result (λ why. why ≡ NoScript.Fault → (number ≡ None) × HasIncreased (S.faults script.old) (S.faults script.new)) }
    ensures sound { OnOk result (S.faults script.new ≡ S.faults script.old) }
    ensures unread { IfSome number (λ _. script.new ≡ script.old) }
{
    match number {
        None => read_script(alloc, script),
        Some(number) => match demo(alloc, number) {
            Ok(bytes) => Ok(bytes),
            Err(_) => Err(NoScript::NoMemory),
        },
    }
}

/// Executes the lines of a script in order, and returns whether one was rejected. The automaton of a query may have at
/// most `states` states. If the sink had nothing buffered before, everything written has been sent whenever a line
/// begins.
fn run_lines<R: Threads + Sync, K: Sink, F: Shelf, G: Gate, P: Ledger, T: Ledger, L: Ledger>(
    lent: Lent<'_, R, G>,
    alloc: Global,
    states: u16,
    script: &[u8],
    io: &mut Io<'_, '_, K, F>,
    meters: &mut Meters<'_, '_, '_, P, T, L>,
) -> Result<bool, Stop>
    requires few { 128 ≤ states }
    requires many { states ≤ 1024 }
    ensures same_io { IsSameIo io.old io.new }
    ensures same_meters { IsSameMeters meters.old meters.new }
    ensures done { IfOk result (λ refused. RunsAll (lines_of script.now) refused states
        (outside_through K.written F.files io.old meters.old)
        (outside_through K.written F.files io.new meters.new)) }
    ensures out_fault { IfErr result (λ why. why ≡ Stop.OutFault → HasIncreased (K.faults io.old.out.now) (K.faults io.new.out.now) × RunsPrefix Anywhere
        (lines_of script.now) states (outside_through K.written F.files io.old meters.old)
        (outside_through K.written F.files io.new meters.new)) }
    ensures shelf_fault { IfErr result (λ why. why ≡ Stop.ShelfFault → HasIncreased (F.faults io.old.shelf.now) (F.faults io.new.shelf.now)
        × RunsPrefix InFileLine (lines_of script.now) states
        (outside_through K.written F.files io.old meters.old)
        (outside_through K.written F.files io.new meters.new)) }
    ensures want { IfErr result (λ why. why ≡ Stop.NoMemory → RunsPrefix (UnlessList (K.wants io.old.out.now) (K.wants io.new.out.now))
        (lines_of script.now) states (outside_through K.written F.files io.old meters.old)
        (outside_through K.written F.files io.new meters.new)) }
    ensures sound { OnOk result ((K.faults io.new.out.now ≡ K.faults io.old.out.now) × (K.wants io.new.out.now ≡ K.wants io.old.out.now) × (F.faults io.new.shelf.now ≡ F.faults io.old.shelf.now)) }
    ensures gone { K.kept io.old.out.now ≡ 0 → MatchResult result (λ _. K.kept io.new.out.now ≡ 0) (λ why. why ≡ Stop.ShelfFault → K.kept io.new.out.now ≡ 0) }
{
    let mut progress = Progress::new(alloc, states);
    progress.feed(lent, script, io, meters)?;
    progress.finish(lent, io, meters)
}

/// Runs a script over named texts: parses the arguments, reads the whole script, and executes its lines in order. Each
/// line of a reply is written to the sink, with its newline, before the next one is computed; `listall` computes up to
/// 64 documents at a time. The first failure of the source, the sink or the file store, or an allocation failure, ends
/// the run.
///
/// `words` are the command-line arguments after the program's name. They may set the number of workers that compute
/// tables, from 1 to 64, and the number of states that the automaton of a query may have, from 128 to 1,024. They may
/// also select the script of a demo, which runs instead of the source's script; the source isn't read then. `shelf` is
/// the file store. `pairs` counts node constructions, `places` counts computed tables, and `looks` counts table lookups,
/// except those of `listall`.
#[tactic(auto, using(crate::proofs::ScriptLemmas::never_refused))]
pub fn run<
    R: Threads + Sync,
    S: Source,
    K: Sink,
    F: Shelf,
    G: Gate,
    P: Ledger,
    T: Ledger,
    L: Ledger,
>(
    rt: &R,
    alloc: Global,
    words: &[String],
    script: &mut S,
    out: &mut K,
    shelf: &mut F,
    gate: &G,
    pairs: &mut Steps<P>,
    places: &mut Steps<T>,
    looks: &mut Steps<L>,
) -> Status
    ensures usage { result ≡ Status.Usage → Refused (map string_bytes words.now) }
    ensures refused { Refused (map string_bytes words.now) → ((result ≡ Status.Usage) ⊎ (result ≡ Status.NoMemory))
        × (outside (K.written out.new) (F.files shelf.new) looks.new pairs.new places.new
        ≡ outside (K.written out.old) (F.files shelf.old) looks.old pairs.old places.old) }
    ensures done { result ≡ Status.Done → OfScript (map string_bytes words.now) (S.left script.old)
        (λ states bytes. RunsAll (lines_of bytes) false states (outside (K.written out.old) (F.files shelf.old) looks.old pairs.old places.old)
        (outside (K.written out.new) (F.files shelf.new) looks.new pairs.new places.new)) }
    ensures some_refused { result ≡ Status.SomeRefused → OfScript (map string_bytes words.now) (S.left script.old)
        (λ states bytes. RunsAll (lines_of bytes) true states (outside (K.written out.old) (F.files shelf.old) looks.old pairs.old places.old)
        (outside (K.written out.new) (F.files shelf.new) looks.new pairs.new places.new)) }
    ensures script_fault { result ≡ Status.ScriptFault → AsksForNoDemo (map string_bytes words.now) × HasIncreased (S.faults script.old) (S.faults script.new) }
    ensures out_fault { result ≡ Status.OutFault → HasIncreased (K.faults out.old) (K.faults out.new) }
    ensures shelf_fault { result ≡ Status.ShelfFault → HasIncreased (F.faults shelf.old) (F.faults shelf.new) }
    ensures too_long { result ≡ Status.ScriptTooLong → AsksForNoDemo (map string_bytes words.now) × IfSome (S.left script.old)
        (λ bytes. 2 ^ 24 < length bytes) }
    ensures short { (result ≡ Status.Done) ⊎ (result ≡ Status.SomeRefused) ⊎ (result ≡ Status.OutFault)
        ⊎ (result ≡ Status.ShelfFault) → OfScript (map string_bytes words.now) (S.left script.old)
        (λ _ bytes. length bytes ≤ 2 ^ 24) }

    // A run that came to its end had no failure: no failed call of the source, the sink or the file store was retried.
    ensures sound { (result ≡ Status.Done) ⊎ (result ≡ Status.SomeRefused) → (S.faults script.new ≡ S.faults script.old)
        × (K.faults out.new ≡ K.faults out.old) × (K.wants out.new ≡ K.wants out.old) × (F.faults shelf.new ≡ F.faults shelf.old) }

    // If nothing was buffered before, nothing is buffered at the end, unless the sink or an allocation failed. Buffered
    // output is sent before the next line begins.
    ensures gone { K.kept out.old ≡ 0 → (result ≡ Status.OutFault) ⊎ (result ≡ Status.NoMemory) ⊎ (K.kept out.new ≡ 0) }

    // At most one byte beyond the limit of a script is read. The source isn't read for a demo, nor if the arguments are
    // rejected.
    ensures taken { TakesAtMost (2 ^ 24 + 1) (S.left script.old) (S.left script.new) }
    ensures unread { (AsksForNoDemo (map string_bytes words.now) → ⊥) → script.new ≡ script.old }

    // Nothing is written, and no file and no counter changes.
    ensures nothing { (result ≡ Status.Usage) ⊎ (result ≡ Status.ScriptFault) ⊎ (result ≡ Status.ScriptTooLong)
        → outside (K.written out.new) (F.files shelf.new) looks.new pairs.new places.new
        ≡ outside (K.written out.old) (F.files shelf.old) looks.old pairs.old places.old }
    ensures too_long_for_memory { result ≡ Status.NoMemory → AsksForNoDemo (map string_bytes words.now)
        → IfSome (S.left script.old) (λ bytes. 2 ^ 24 < length bytes → outside (K.written out.new)
        (F.files shelf.new) looks.new pairs.new places.new
        ≡ outside (K.written out.old) (F.files shelf.old) looks.old pairs.old places.old) }

    // What was written is a prefix of the whole output. A failure of the file store stops a line of the form `load`,
    // `share`, `write`, `save` or `open` before any of its reply is written, and leaves the files unchanged. An
    // allocation failure stops a `list` before any of its reply is written, unless the sink's allocation failed.
    ensures out_prefix { result ≡ Status.OutFault → OfScript (map string_bytes words.now) (S.left script.old)
        (λ states bytes. RunsPrefix Anywhere (lines_of bytes) states
        (outside (K.written out.old) (F.files shelf.old) looks.old pairs.old places.old)
        (outside (K.written out.new) (F.files shelf.new) looks.new pairs.new places.new)) }
    ensures shelf_prefix { result ≡ Status.ShelfFault → OfScript (map string_bytes words.now) (S.left script.old)
        (λ states bytes. RunsPrefix InFileLine (lines_of bytes) states
        (outside (K.written out.old) (F.files shelf.old) looks.old pairs.old places.old)
        (outside (K.written out.new) (F.files shelf.new) looks.new pairs.new places.new)) }
    ensures memory_prefix { result ≡ Status.NoMemory → OfScript (map string_bytes words.now) (S.left script.old)
        (λ states bytes. RunsPrefix (UnlessList (K.wants out.old) (K.wants out.new)) (lines_of bytes) states
        (outside (K.written out.old) (F.files shelf.old) looks.old pairs.old places.old)
        (outside (K.written out.new) (F.files shelf.new) looks.new pairs.new places.new)) }
{
    let options = match read_words(alloc, words) {
        Ok(options) => options,
        Err(WordsRefusal::Usage) => return Status::Usage,
        Err(WordsRefusal::NoMemory) => return Status::NoMemory,
    };
    let bytes = match asked_script(alloc, options.demo, script) {
        Ok(bytes) => bytes,
        Err(NoScript::Fault) => return Status::ScriptFault,
        Err(NoScript::TooLong) => return Status::ScriptTooLong,
        Err(NoScript::NoMemory) => return Status::NoMemory,
    };
    let lent = Lent {
        rt,
        workers: options.workers,
        gate,
    };
    let mut io = Io { out, shelf };
    let mut meters = Meters {
        pairs,
        places,
        looks,
    };
    match run_lines(lent, alloc, options.states, &bytes, &mut io, &mut meters) {
        Ok(false) => Status::Done,
        Ok(true) => Status::SomeRefused,
        Err(Stop::OutFault) => Status::OutFault,
        Err(Stop::ShelfFault) => Status::ShelfFault,
        Err(Stop::NoMemory) => Status::NoMemory,
    }
}
