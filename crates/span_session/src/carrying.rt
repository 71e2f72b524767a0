//! Execution of a line: its effect on the session and on the environment.
ghost use Rattle.edge_io.specs.Files.{Files};
ghost use Rattle.script_syntax.specs.declared.form.Command.TheVariants as form;
ghost use Rattle.session_state.specs.Answers.{IsAnswering, IsWellFormed};
ghost use Rattle.session_state.specs.Carried.{IsDone, IsStopped, outlet};
ghost use Rattle.session_state.specs.LineState.{seen};
ghost use Rattle.session_state.specs.SessionState.{IsConsistent, model_of};
ghost use Rattle.session_state.specs.Written.{Ends};
ghost use Rattle.span_language.specs.Step.{IsShort};
ghost use Rattle.span_session.specs.Lending.{IsSameIo, IsSameMeters, outlet_through, seen_through};
ghost use Rattle.std.specs.Prelude.{◌≡◌, ◌⊎◌, ℕ, Option, Some, IfOk, IfErr};

use crate::answering::answer;
use crate::lending::{Io, Meters};
use edge_io::{Shelf, Sink};
use query_commands::{Page, list, list_all};
use report_text::Refusal;
use script_syntax::{Command, LineRefusal, command};
use session_state::{Context, SessionState, send, send_out, send_rejection};
use span_language::{Stop, Told};
use std::sync::ledger::Ledger;
use std::thread::Threads;
use text_commands::write_names;
use work_gate::Gate;

/// Executes a command whose reply is one value, and writes the reply.
fn reply<R: Threads + Sync, K: Sink, F: Shelf, G: Gate, P: Ledger, T: Ledger, L: Ledger>(
    context: Context<'_, R, G>,
    session: &mut SessionState,
    command: Command,
    io: &mut Io<'_, '_, K, F>,
    meters: &mut Meters<'_, '_, '_, P, T, L>,
) -> Result<Told, Stop>
    requires session { IsConsistent session.old }
    requires answering { IsAnswering command }
    requires short { IsShort command }
    requires well_formed { IsWellFormed command }
    ensures session { IsConsistent session.new }
    ensures same_io { IsSameIo io.old io.new }
    ensures same_meters { IsSameMeters meters.old meters.new }
    ensures unsent { IfErr result (λ why. why ≡ Stop.ShelfFault → io.new.out.now ≡ io.old.out.now) }
    ensures ends { Ends context.entry.number (Some command)
        (seen_through F.files F.faults (model_of session.old) io.old meters.old)
        (outlet_through K.written K.faults K.wants io.old)
        (seen_through F.files F.faults (model_of session.new) io.new meters.new)
        (outlet_through K.written K.faults K.wants io.new) result }
{
    let answer = answer(context, session, command, io.shelf, meters)?;
    send(answer, io.out)
}

/// `names`: writes each document's line before the next one is made.
fn names<K: Sink>(session: &mut SessionState, out: &mut K) -> Result<Told, Stop>
    requires { IsConsistent session.old }
    ensures session { IsConsistent session.new }
    ensures ends { (number : ℕ) (files : Option Files) (faults looks pairs places : ℕ) → Ends number (Some form.Names)
        (seen (model_of session.old) files faults looks pairs places)
        (outlet (K.written out.old) (K.faults out.old) (K.wants out.old))
        (seen (model_of session.new) files faults looks pairs places)
        (outlet (K.written out.new) (K.faults out.new) (K.wants out.new)) result }
{
    write_names(session.alloc, &session.store, &session.docs, out)
}

/// Executes a command, and writes its reply.
fn carry<R: Threads + Sync, K: Sink, F: Shelf, G: Gate, P: Ledger, T: Ledger, L: Ledger>(
    context: Context<'_, R, G>,
    session: &mut SessionState,
    command: Command,
    io: &mut Io<'_, '_, K, F>,
    meters: &mut Meters<'_, '_, '_, P, T, L>,
) -> Result<Told, Stop>
    requires session { IsConsistent session.old }
    requires short { IsShort command }
    requires well_formed { IsWellFormed command }
    ensures session { IsConsistent session.new }
    ensures same_io { IsSameIo io.old io.new }
    ensures same_meters { IsSameMeters meters.old meters.new }
    ensures quiet { IfOk result (λ told. told ≡ Told.Quiet → io.new.out.now ≡ io.old.out.now) }
    ensures unsent { IfErr result (λ why. why ≡ Stop.ShelfFault → io.new.out.now ≡ io.old.out.now) }
    ensures ends { Ends context.entry.number (Some command)
        (seen_through F.files F.faults (model_of session.old) io.old meters.old)
        (outlet_through K.written K.faults K.wants io.old)
        (seen_through F.files F.faults (model_of session.new) io.new meters.new)
        (outlet_through K.written K.faults K.wants io.new) result }
{
    match command {
        Command::Nothing => Ok(Told::Quiet),
        Command::Names => {
            session.settle();
            names(session, io.out)
        }
        Command::List {
            query,
            name,
            start,
            limit,
        } => {
            let page = Page {
                query,
                name,
                start,
                limit,
            };
            list(context, session, page, io.out, meters.places, meters.looks)
        }
        Command::ListAll { query, limit } => {
            session.settle();
            list_all(context, session, query, limit, io.out, meters.places)
        }
        command => reply(context, session, command, io, meters),
    }
}

/// Executes a line, and writes its reply. The sink may buffer some of it.
fn write_line<R: Threads + Sync, K: Sink, F: Shelf, G: Gate, P: Ledger, T: Ledger, L: Ledger>(
    context: Context<'_, R, G>,
    session: &mut SessionState,
    line: &[u8],
    io: &mut Io<'_, '_, K, F>,
    meters: &mut Meters<'_, '_, '_, P, T, L>,
) -> Result<Told, Stop>
    requires { IsConsistent session.old }
    ensures session { IsConsistent session.new }
    ensures same_io { IsSameIo io.old io.new }
    ensures same_meters { IsSameMeters meters.old meters.new }
    ensures quiet { IfOk result (λ told. told ≡ Told.Quiet → io.new.out.now ≡ io.old.out.now) }
    ensures unsent { IfErr result (λ why. why ≡ Stop.ShelfFault → io.new.out.now ≡ io.old.out.now) }
    ensures done { IfOk result (IsDone line.now context.entry.number
        (seen_through F.files F.faults (model_of session.old) io.old meters.old)
        (outlet_through K.written K.faults K.wants io.old)
        (seen_through F.files F.faults (model_of session.new) io.new meters.new)
        (outlet_through K.written K.faults K.wants io.new)) }
    ensures stopped { IfErr result (IsStopped line.now context.entry.number
        (seen_through F.files F.faults (model_of session.old) io.old meters.old)
        (outlet_through K.written K.faults K.wants io.old)
        (seen_through F.files F.faults (model_of session.new) io.new meters.new)
        (outlet_through K.written K.faults K.wants io.new)) }
{
    match command(session.alloc, line) {
        Ok(command) => carry(context, session, command, io, meters),
        Err(LineRefusal::Syntax) => {
            send_rejection(session.alloc, context.number, &Refusal::Syntax, io.out)
        }
        Err(LineRefusal::NoMemory) => Err(Stop::NoMemory),
    }
}

/// Executes a line, writes its reply, and flushes the sink: everything written has then been sent.
pub fn carry_line<R: Threads + Sync, K: Sink, F: Shelf, G: Gate, P: Ledger, T: Ledger, L: Ledger>(
    context: Context<'_, R, G>,
    session: &mut SessionState,
    line: &[u8],
    io: &mut Io<'_, '_, K, F>,
    meters: &mut Meters<'_, '_, '_, P, T, L>,
) -> Result<Told, Stop>
    requires { IsConsistent session.old }
    ensures session { IsConsistent session.new }
    ensures same_io { IsSameIo io.old io.new }
    ensures same_meters { IsSameMeters meters.old meters.new }
    ensures gone { IfOk result (λ told. ((told ≡ Told.Quiet) × (io.new.out.now ≡ io.old.out.now)) ⊎ (K.kept io.new.out.now ≡ 0)) }
    ensures unsent { IfErr result (λ why. why ≡ Stop.ShelfFault → io.new.out.now ≡ io.old.out.now) }
    ensures done { IfOk result (IsDone line.now context.entry.number
        (seen_through F.files F.faults (model_of session.old) io.old meters.old)
        (outlet_through K.written K.faults K.wants io.old)
        (seen_through F.files F.faults (model_of session.new) io.new meters.new)
        (outlet_through K.written K.faults K.wants io.new)) }
    ensures stopped { IfErr result (IsStopped line.now context.entry.number
        (seen_through F.files F.faults (model_of session.old) io.old meters.old)
        (outlet_through K.written K.faults K.wants io.old)
        (seen_through F.files F.faults (model_of session.new) io.new meters.new)
        (outlet_through K.written K.faults K.wants io.new)) }
{
    let told = write_line(context, session, line, io, meters)?;
    send_out(told, io.out)
}
