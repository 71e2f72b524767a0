//! The steps of a conversation: the pieces that a client sends, and the whole script.
ghost use Rattle.edge_io.specs.Causes.{HasIncreased};
ghost use Rattle.span_language.specs.Lines.{whole_lines};
ghost use Rattle.script_driver.specs.Progress.{state_of, IsTalking};
ghost use Rattle.session_state.specs.SessionState.{IsSessionModel};
ghost use Rattle.span_language.specs.Lines.{lines_of};
ghost use Rattle.span_language.specs.Runs.{Anywhere, InFileLine, UnlessList, RunsAll, RunsPrefix};
ghost use Rattle.span_session.specs.Lending.{IsSameIo, IsSameMeters, outside_through};
ghost use Rattle.span_talk.specs.Talk.{AreServed, HaveRun, OfBytesRead, OfSent};
ghost use Rattle.std.specs.Io.KnownBytes.{IsAtEnd};
ghost use Rattle.std.specs.Prelude.{◌≡◌, ◌^◌, ◌<◌, ◌≤◌, ◌⊎◌, IfOk, IfErr, MatchResult, OnOk, length};

use crate::client::Client;
use edge_io::{Shelf, Sink};
use script_driver::Progress;
use session_state::Lent;
use span_run::Stop;
use span_session::{Io, Meters};
use std::alloc::Global;
use std::sync::ledger::Ledger;
use std::thread::Threads;
use work_gate::Gate;

/// The most bytes of a script.
const MAX_SCRIPT: u64 = 1 << 62;

/// Why a conversation ended before its script.
#[derive(Clone, Copy, Debug, PartialEq, Eq)]
pub enum End {
    Fault,
    TooLong,
    Stopped(Stop),
}

/// Reads from a client to the end of its script, and executes each line when its newline has come.
fn hear_all<
    R: Threads + Sync,
    C: Client<K>,
    K: Sink,
    F: Shelf,
    G: Gate,
    P: Ledger,
    T: Ledger,
    L: Ledger,
>(
    lent: Lent<'_, R, G>,
    alloc: Global,
    client: &mut C,
    states: u16,
    io: &mut Io<'_, '_, K, F>,
    meters: &mut Meters<'_, '_, '_, P, T, L>,
) -> Result<Progress, End>
    requires few { 128 ≤ states }
    requires many { states ≤ 1024 }
    ensures same_io { IsSameIo io.old io.new }
    ensures same_meters { IsSameMeters meters.old meters.new }
    ensures model { IfOk result (λ progress. IsSessionModel progress.session) }
    ensures few { IfOk result (λ progress. progress.number < 2 ^ 63) }
    ensures later { K.faults io.old.out.now ≤ K.faults io.new.out.now }
    ensures wants_later { K.wants io.old.out.now ≤ K.wants io.new.out.now }
    ensures shelf_later { F.faults io.old.shelf.now ≤ F.faults io.new.shelf.now }
    ensures at_end { OnOk result (IsAtEnd (C.left client.new)) }
    ensures all { IfOk result (λ progress. OfSent (C.left client.old)
        (λ sent. IsTalking sent states (outside_through K.written F.files io.old meters.old) progress.kept.items
        (state_of progress (outside_through K.written F.files io.new meters.new)))) }
    ensures fault { IfErr result (λ why. why ≡ End.Fault → HasIncreased (C.faults client.old) (C.faults client.new)
        × OfBytesRead (C.left client.old) (C.left client.new)
        (λ heard. HaveRun (whole_lines heard) states (outside_through K.written F.files io.old meters.old)
        (outside_through K.written F.files io.new meters.new))) }
    ensures too_long { IfErr result (λ why. why ≡ End.TooLong → OfBytesRead (C.left client.old) (C.left client.new)
        (λ heard. (2 ^ 62 ≤ length heard) × HaveRun (whole_lines heard) states
        (outside_through K.written F.files io.old meters.old)
        (outside_through K.written F.files io.new meters.new))) }
    ensures out_fault { IfErr result (λ why. why ≡ End.Stopped Stop.OutFault → HasIncreased (K.faults io.old.out.now) (K.faults io.new.out.now)
        × OfSent (C.left client.old) (λ sent. RunsPrefix Anywhere (lines_of sent) states
        (outside_through K.written F.files io.old meters.old)
        (outside_through K.written F.files io.new meters.new))) }
    ensures shelf_fault { IfErr result (λ why. why ≡ End.Stopped Stop.ShelfFault → HasIncreased (F.faults io.old.shelf.now) (F.faults io.new.shelf.now)
        × OfSent (C.left client.old) (λ sent. RunsPrefix InFileLine (lines_of sent) states
        (outside_through K.written F.files io.old meters.old)
        (outside_through K.written F.files io.new meters.new))) }
    ensures want { IfErr result (λ why. why ≡ End.Stopped Stop.NoMemory → OfSent (C.left client.old)
        (λ sent. RunsPrefix (UnlessList (K.wants io.old.out.now) (K.wants io.new.out.now)) (lines_of sent) states
        (outside_through K.written F.files io.old meters.old)
        (outside_through K.written F.files io.new meters.new))) }
    ensures served { AreServed (C.left client.old) states
        (outside_through K.written F.files io.old meters.old) (C.moments client.old)
        (C.moments client.new) }
    ensures sound { OnOk result ((C.faults client.new ≡ C.faults client.old) × (K.faults io.new.out.now ≡ K.faults io.old.out.now) × (K.wants io.new.out.now ≡ K.wants io.old.out.now)
        × (F.faults io.new.shelf.now ≡ F.faults io.old.shelf.now)) }
    ensures gone { K.kept io.old.out.now ≡ 0 → MatchResult result (λ _. K.kept io.new.out.now ≡ 0) (λ why. (K.kept io.new.out.now ≡ 0) ⊎ (why ≡ End.Stopped Stop.OutFault) ⊎ (why ≡ End.Stopped Stop.NoMemory)) }
{
    let mut progress = Progress::new(alloc, states);
    let mut chunk = [0u8; 4096];
    let mut heard = 0u64;
    'pieces: while heard < MAX_SCRIPT {
        let count = match client.hear(progress.number, io.out, &mut chunk) {
            Ok(count) => count,
            Err(_) => return Err(End::Fault),
        };
        if count == 0 {
            return Ok(progress);
        }
        let piece = &chunk[..count];
        match progress.feed(lent, piece, io, meters) {
            Ok(()) => heard += count as u64,
            Err(stop) => return Err(End::Stopped(stop)),
        }
    }
    Err(End::TooLong)
}

/// Reads from a client to the end of its script and executes all lines. Returns whether one was rejected.
pub fn hear_script<
    R: Threads + Sync,
    C: Client<K>,
    K: Sink,
    F: Shelf,
    G: Gate,
    P: Ledger,
    T: Ledger,
    L: Ledger,
>(
    lent: Lent<'_, R, G>,
    alloc: Global,
    client: &mut C,
    states: u16,
    io: &mut Io<'_, '_, K, F>,
    meters: &mut Meters<'_, '_, '_, P, T, L>,
) -> Result<bool, End>
    requires few { 128 ≤ states }
    requires many { states ≤ 1024 }
    ensures same_io { IsSameIo io.old io.new }
    ensures same_meters { IsSameMeters meters.old meters.new }
    ensures at_end { OnOk result (IsAtEnd (C.left client.new)) }
    ensures done { IfOk result (λ refused. OfSent (C.left client.old)
        (λ sent. RunsAll (lines_of sent) refused states (outside_through K.written F.files io.old meters.old)
        (outside_through K.written F.files io.new meters.new))) }
    ensures fault { IfErr result (λ why. why ≡ End.Fault → HasIncreased (C.faults client.old) (C.faults client.new)
        × OfBytesRead (C.left client.old) (C.left client.new)
        (λ heard. HaveRun (whole_lines heard) states (outside_through K.written F.files io.old meters.old)
        (outside_through K.written F.files io.new meters.new))) }
    ensures too_long { IfErr result (λ why. why ≡ End.TooLong → OfBytesRead (C.left client.old) (C.left client.new)
        (λ heard. (2 ^ 62 ≤ length heard) × HaveRun (whole_lines heard) states
        (outside_through K.written F.files io.old meters.old)
        (outside_through K.written F.files io.new meters.new))) }
    ensures out_fault { IfErr result (λ why. why ≡ End.Stopped Stop.OutFault → HasIncreased (K.faults io.old.out.now) (K.faults io.new.out.now)
        × OfSent (C.left client.old) (λ sent. RunsPrefix Anywhere (lines_of sent) states
        (outside_through K.written F.files io.old meters.old)
        (outside_through K.written F.files io.new meters.new))) }
    ensures shelf_fault { IfErr result (λ why. why ≡ End.Stopped Stop.ShelfFault → HasIncreased (F.faults io.old.shelf.now) (F.faults io.new.shelf.now)
        × OfSent (C.left client.old) (λ sent. RunsPrefix InFileLine (lines_of sent) states
        (outside_through K.written F.files io.old meters.old)
        (outside_through K.written F.files io.new meters.new))) }
    ensures want { IfErr result (λ why. why ≡ End.Stopped Stop.NoMemory → OfSent (C.left client.old)
        (λ sent. RunsPrefix (UnlessList (K.wants io.old.out.now) (K.wants io.new.out.now)) (lines_of sent) states
        (outside_through K.written F.files io.old meters.old)
        (outside_through K.written F.files io.new meters.new))) }
    ensures served { AreServed (C.left client.old) states
        (outside_through K.written F.files io.old meters.old) (C.moments client.old)
        (C.moments client.new) }
    ensures sound { OnOk result ((C.faults client.new ≡ C.faults client.old) × (K.faults io.new.out.now ≡ K.faults io.old.out.now) × (K.wants io.new.out.now ≡ K.wants io.old.out.now)
        × (F.faults io.new.shelf.now ≡ F.faults io.old.shelf.now)) }
    ensures gone { K.kept io.old.out.now ≡ 0 → MatchResult result (λ _. K.kept io.new.out.now ≡ 0) (λ why. (K.kept io.new.out.now ≡ 0) ⊎ (why ≡ End.Stopped Stop.OutFault) ⊎ (why ≡ End.Stopped Stop.NoMemory)) }
{
    let mut progress = hear_all(lent, alloc, client, states, io, meters)?;
    match progress.finish(lent, io, meters) {
        Ok(refused) => Ok(refused),
        Err(stop) => Err(End::Stopped(stop)),
    }
}
