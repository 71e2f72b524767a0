//! Writing to a sink until it has accepted all bytes.
ghost use Rattle.edge_io.specs.Causes.{HasIncreased};
ghost use Rattle.report_text.specs.Reply.{refusal_text};
ghost use Rattle.session_state.specs.Carried.{HasNoFault, outlet};
ghost use Rattle.session_state.specs.Written.{IsGone, WantsFor, Wrote};
ghost use Rattle.std.specs.Io.KnownBytes.{Keeps};
ghost use Rattle.std.specs.Prelude.{◌≡◌, ◌≤◌, IfOk, IfErr, Ok, OnOk};

use crate::replies::Answer;
use edge_io::{Sink, WriteRefusal};
use report_text::Refusal;
use span_language::{Stop, Told};
use std::alloc::Global;

/// Writes a whole piece. If the sink accepts only a part, the rest is written again.
pub fn offer<K: Sink>(out: &mut K, piece: &[u8]) -> Result<(), Stop>
    ensures wrote { Wrote result (outlet (K.written out.old) (K.faults out.old) (K.wants out.old)) piece.now
        (outlet (K.written out.new) (K.faults out.new) (K.wants out.new)) }
    ensures want { IfErr result (λ why. why ≡ Stop.NoMemory → HasIncreased (K.wants out.old) (K.wants out.new)) }
{
    let mut done = 0;
    while done < piece.len() {
        match out.write(&piece[done..]) {
            Ok(count) => done += count,
            Err(WriteRefusal::Failed) => return Err(Stop::OutFault),
            Err(WriteRefusal::NoMemory) => return Err(Stop::NoMemory),
        }
    }
    Ok(())
}

/// Writes the last piece of an accepted reply.
pub fn close<K: Sink>(out: &mut K, piece: &[u8]) -> Result<Told, Stop>
    ensures told { IfOk result (λ told. told ≡ Told.Accepted) }
    ensures wrote { Wrote result (outlet (K.written out.old) (K.faults out.old) (K.wants out.old)) piece.now
        (outlet (K.written out.new) (K.faults out.new) (K.wants out.new)) }
    ensures want { IfErr result (λ why. why ≡ Stop.NoMemory → HasIncreased (K.wants out.old) (K.wants out.new)) }
{
    offer(out, piece)?;
    Ok(Told::Accepted)
}

/// Writes a whole reply.
pub fn send<K: Sink>(answer: Answer, out: &mut K) -> Result<Told, Stop>
    ensures told { IfOk result (λ told. told ≡ answer.told) }
    ensures wrote { Wrote result (outlet (K.written out.old) (K.faults out.old) (K.wants out.old)) answer.line.items
        (outlet (K.written out.new) (K.faults out.new) (K.wants out.new)) }
    ensures want { IfErr result (λ why. why ≡ Stop.NoMemory → HasIncreased (K.wants out.old) (K.wants out.new)) }
{
    offer(out, &answer.line)?;
    Ok(answer.told)
}

/// Flushes the sink after a line's reply. If the line has no reply, the sink is not called.
pub fn send_out<K: Sink>(told: Told, out: &mut K) -> Result<Told, Stop>
    ensures told { IfOk result (λ same. same ≡ told) }
    ensures quiet { told ≡ Told.Quiet → (result ≡ Ok Told.Quiet) × (out.new ≡ out.old) }
    ensures written { Keeps (K.written out.old) (K.written out.new) }
    ensures sound { OnOk result (HasNoFault (outlet (K.written out.old) (K.faults out.old) (K.wants out.old))
        (outlet (K.written out.new) (K.faults out.new) (K.wants out.new))) }
    ensures gone { IsGone result (told ≡ Told.Quiet) (K.kept out.new) }
    ensures later { (K.faults out.old ≤ K.faults out.new) × (K.wants out.old ≤ K.wants out.new) }
    ensures fault { IfErr result (λ why. why ≡ Stop.OutFault → HasIncreased (K.faults out.old) (K.faults out.new)) }
    ensures want { IfErr result (λ why. why ≡ Stop.NoMemory → HasIncreased (K.wants out.old) (K.wants out.new)) }
    ensures no_shelf { IfErr result (λ why. why ≡ Stop.ShelfFault → ⊥) }
{
    if matches!(told, Told::Quiet) {
        return Ok(told);
    }
    match out.flush() {
        Ok(()) => Ok(told),
        Err(WriteRefusal::Failed) => Err(Stop::OutFault),
        Err(WriteRefusal::NoMemory) => Err(Stop::NoMemory),
    }
}

/// Writes the reply to a rejected line.
pub fn send_rejection<K: Sink>(
    alloc: Global,
    number: u64,
    why: &Refusal,
    out: &mut K,
) -> Result<Told, Stop>
    ensures told { IfOk result (λ told. told ≡ Told.Refused) }
    ensures wrote { Wrote result (outlet (K.written out.old) (K.faults out.old) (K.wants out.old)) (refusal_text number why.now)
        (outlet (K.written out.new) (K.faults out.new) (K.wants out.new)) }
    ensures want { WantsFor result (outlet (K.written out.old) (K.faults out.old) (K.wants out.old))
        (outlet (K.written out.new) (K.faults out.new) (K.wants out.new)) }
{
    let answer = Answer::refused(alloc, number, why)?;
    send(answer, out)
}
