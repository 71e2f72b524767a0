//! The top call: a conversation with a client, to its end.
ghost use Rattle.edge_io.specs.Causes.{HasIncreased};
ghost use Rattle.span_language.specs.Lines.{whole_lines};
ghost use Rattle.span_language.specs.Lines.{lines_of};
ghost use Rattle.span_language.specs.Runs.{outside, Anywhere, InFileLine, UnlessList, RunsAll, RunsPrefix};
ghost use Rattle.span_talk.specs.Talk.{AreServed, HaveRun, OfBytesRead, OfSent};
ghost use Rattle.std.specs.Io.KnownBytes.{IsAtEnd};
ghost use Rattle.std.specs.Prelude.{◌≡◌, ◌⊎◌, ◌^◌, ◌≤◌, true, false, length};

use crate::client::Client;
use crate::hearing::{End, hear_script};
use edge_io::{Shelf, Sink};
use session_state::Lent;
use span_run::{Status, Stop};
use span_session::{Io, Meters};
use span_types::Steps;
use std::alloc::Global;
use std::sync::ledger::Ledger;
use std::thread::Threads;
use work_gate::Gate;

/// Runs a conversation with a client: executes each line of its script when it has come, and writes its reply before
/// reading on. The end of the client's bytes ends the last line and the conversation. The first failure of the client,
/// the sink or the file store, and an allocation failure, end the conversation too. At most 65,537 bytes of a line are
/// stored. `workers` is 1 to 64. The automaton of a query may have at most `states` states, 128 to 1,024.
pub fn talk<
    R: Threads + Sync,
    C: Client<K>,
    K: Sink,
    F: Shelf,
    G: Gate,
    P: Ledger,
    T: Ledger,
    L: Ledger,
>(
    rt: &R,
    alloc: Global,
    client: &mut C,
    workers: u8,
    states: u16,
    out: &mut K,
    shelf: &mut F,
    gate: &G,
    pairs: &mut Steps<P>,
    places: &mut Steps<T>,
    looks: &mut Steps<L>,
) -> Status
    requires least { 1 ≤ workers }
    requires most { workers ≤ 64 }
    requires few { 128 ≤ states }
    requires many { states ≤ 1024 }
    ensures done { result ≡ Status.Done → OfSent (C.left client.old)
        (λ sent. RunsAll (lines_of sent) false states (outside (K.written out.old) (F.files shelf.old) looks.old pairs.old places.old)
        (outside (K.written out.new) (F.files shelf.new) looks.new pairs.new places.new)) }
    ensures some_refused { result ≡ Status.SomeRefused → OfSent (C.left client.old)
        (λ sent. RunsAll (lines_of sent) true states (outside (K.written out.old) (F.files shelf.old) looks.old pairs.old places.old)
        (outside (K.written out.new) (F.files shelf.new) looks.new pairs.new places.new)) }
    ensures at_end { (result ≡ Status.Done) ⊎ (result ≡ Status.SomeRefused) → IsAtEnd (C.left client.new) }

    // The client failed, or it sent 2^62 bytes: the complete lines were executed, and the incomplete one wasn't.
    ensures script_fault { result ≡ Status.ScriptFault → HasIncreased (C.faults client.old) (C.faults client.new)
        × OfBytesRead (C.left client.old) (C.left client.new)
        (λ heard. HaveRun (whole_lines heard) states (outside (K.written out.old) (F.files shelf.old) looks.old pairs.old places.old)
        (outside (K.written out.new) (F.files shelf.new) looks.new pairs.new places.new)) }
    ensures too_long { result ≡ Status.ScriptTooLong → OfBytesRead (C.left client.old) (C.left client.new)
        (λ heard. (2 ^ 62 ≤ length heard) × HaveRun (whole_lines heard) states
        (outside (K.written out.old) (F.files shelf.old) looks.old pairs.old places.old)
        (outside (K.written out.new) (F.files shelf.new) looks.new pairs.new places.new)) }

    // What was written is a prefix of the whole output.
    ensures out_fault { result ≡ Status.OutFault → HasIncreased (K.faults out.old) (K.faults out.new) × OfSent (C.left client.old)
        (λ sent. RunsPrefix Anywhere (lines_of sent) states
        (outside (K.written out.old) (F.files shelf.old) looks.old pairs.old places.old)
        (outside (K.written out.new) (F.files shelf.new) looks.new pairs.new places.new)) }
    ensures shelf_fault { result ≡ Status.ShelfFault → HasIncreased (F.faults shelf.old) (F.faults shelf.new) × OfSent (C.left client.old)
        (λ sent. RunsPrefix InFileLine (lines_of sent) states
        (outside (K.written out.old) (F.files shelf.old) looks.old pairs.old places.old)
        (outside (K.written out.new) (F.files shelf.new) looks.new pairs.new places.new)) }
    ensures want { result ≡ Status.NoMemory → OfSent (C.left client.old)
        (λ sent. RunsPrefix (UnlessList (K.wants out.old) (K.wants out.new)) (lines_of sent) states
        (outside (K.written out.old) (F.files shelf.old) looks.old pairs.old places.old)
        (outside (K.written out.new) (F.files shelf.new) looks.new pairs.new places.new)) }
    ensures no_words { result ≡ Status.Usage → ⊥ }

    // A conversation that came to its end had no failure: no failed call of the client, the sink or the file store was
    // retried.
    ensures sound { (result ≡ Status.Done) ⊎ (result ≡ Status.SomeRefused) → (C.faults client.new ≡ C.faults client.old)
        × (K.faults out.new ≡ K.faults out.old) × (K.wants out.new ≡ K.wants out.old) × (F.faults shelf.new ≡ F.faults shelf.old) }

    // If nothing was buffered before, nothing is buffered at the end, unless the sink or an allocation failed. Buffered
    // output is sent before the next line begins.
    ensures gone { K.kept out.old ≡ 0 → (result ≡ Status.OutFault) ⊎ (result ≡ Status.NoMemory) ⊎ (K.kept out.new ≡ 0) }

    // Each time the client was called, exactly the replies to all complete lines had been written, and it was passed
    // the number of the next line.
    ensures served { AreServed (C.left client.old) states
        (outside (K.written out.old) (F.files shelf.old) looks.old pairs.old places.old) (C.moments client.old)
        (C.moments client.new) }
{
    let lent = Lent { rt, workers, gate };
    let mut io = Io { out, shelf };
    let mut meters = Meters {
        pairs,
        places,
        looks,
    };
    match hear_script(lent, alloc, client, states, &mut io, &mut meters) {
        Ok(false) => Status::Done,
        Ok(true) => Status::SomeRefused,
        Err(End::Fault) => Status::ScriptFault,
        Err(End::TooLong) => Status::ScriptTooLong,
        Err(End::Stopped(Stop::OutFault)) => Status::OutFault,
        Err(End::Stopped(Stop::ShelfFault)) => Status::ShelfFault,
        Err(End::Stopped(Stop::NoMemory)) => Status::NoMemory,
    }
}
