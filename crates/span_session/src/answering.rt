//! Dispatch of the commands whose reply is one value.
ghost use Rattle.edge_io.specs.Files.{Files};
ghost use Rattle.session_state.specs.Answers.{Answers, IsAnswering, IsWellFormed, Stays};
ghost use Rattle.session_state.specs.CommandState.{at};
ghost use Rattle.session_state.specs.SessionState.{IsConsistent};
ghost use Rattle.span_language.specs.Step.{IsShort};
ghost use Rattle.span_session.specs.Kinds.{IsInMemory, IsOnQueries};
ghost use Rattle.span_session.specs.Lending.{IsSameMeters};
ghost use Rattle.std.specs.Prelude.{ℕ, IfOk, IfErr, Option};

use crate::lending::Meters;
use edge_io::Shelf;
use query_commands::{
    Question, Ranking, Recipe, Replacing, ask, count, rank, register, replace, unquery,
};
use script_syntax::Command;
use session_state::{Answer, Context, SessionState};
use span_language::Stop;
use std::sync::ledger::Ledger;
use std::thread::Threads;
use text_commands::{
    Loading, Method, back, compact, drop_document, let_document, load_file, mark, open_file,
    save_file, show, text, unmark, write_file,
};
use work_gate::Gate;

/// Executes a command that needs no sink, and returns its whole reply.
pub fn answer<R: Threads + Sync, F: Shelf, G: Gate, P: Ledger, T: Ledger, L: Ledger>(
    context: Context<'_, R, G>,
    session: &mut SessionState,
    command: Command,
    shelf: &mut F,
    meters: &mut Meters<'_, '_, '_, P, T, L>,
) -> Result<Answer, Stop>
    requires session { IsConsistent session.old }
    requires answering { IsAnswering command }
    requires short { IsShort command }
    requires well_formed { IsWellFormed command }
    ensures same_meters { IsSameMeters meters.old meters.new }
    ensures done { IfOk result (Answers
        (at session.old (F.files shelf.old) (F.faults shelf.old) meters.old.looks.now meters.old.pairs.now meters.old.places.now) context.entry.number command
        (at session.new (F.files shelf.new) (F.faults shelf.new) meters.new.looks.now meters.new.pairs.now meters.new.places.now)) }
    ensures stopped { IfErr result (Stays
        (at session.old (F.files shelf.old) (F.faults shelf.old) meters.old.looks.now meters.old.pairs.now meters.old.places.now) context.entry.number command
        (at session.new (F.files shelf.new) (F.faults shelf.new) meters.new.looks.now meters.new.pairs.now meters.new.places.now)) }
{
    let number = context.number;
    match command {
        Command::LoadFile { name, file } => {
            let method = Method::Load;
            load_file(
                session,
                number,
                Loading { name, file, method },
                shelf,
                meters.pairs,
            )
        }
        Command::ShareFile { name, file } => {
            let method = Method::Share;
            load_file(
                session,
                number,
                Loading { name, file, method },
                shelf,
                meters.pairs,
            )
        }
        Command::WriteFile { name, file } => write_file(session, number, name, file, shelf),
        Command::SaveFile { file } => {
            session.settle();
            save_file(session, number, file, shelf)
        }
        Command::OpenFile { file } => open_file(session, number, file, shelf, meters.pairs),
        command => answer_in_memory(context, session, command, meters),
    }
}

// Executes a command that needs neither a sink nor a file.
fn answer_in_memory<R: Threads + Sync, G: Gate, P: Ledger, T: Ledger, L: Ledger>(
    context: Context<'_, R, G>,
    session: &mut SessionState,
    command: Command,
    meters: &mut Meters<'_, '_, '_, P, T, L>,
) -> Result<Answer, Stop>
    requires session { IsConsistent session.old }
    requires in_memory { IsInMemory command }
    requires short { IsShort command }
    requires well_formed { IsWellFormed command }
    ensures same_meters { IsSameMeters meters.old meters.new }
    ensures done { (files : Option Files) (faults : ℕ) → IfOk result (Answers
        (at session.old files faults meters.old.looks.now meters.old.pairs.now meters.old.places.now) context.entry.number command
        (at session.new files faults meters.new.looks.now meters.new.pairs.now meters.new.places.now)) }
    ensures stopped { (files : Option Files) (faults : ℕ) → IfErr result (Stays
        (at session.old files faults meters.old.looks.now meters.old.pairs.now meters.old.places.now) context.entry.number command
        (at session.new files faults meters.new.looks.now meters.new.pairs.now meters.new.places.now)) }
{
    let number = context.number;
    match command {
        Command::Text { name, bytes } => text(session, number, name, bytes, meters.pairs),
        Command::QuotedText { name, bytes } => text(session, number, name, bytes, meters.pairs),
        Command::LetDoc { name, expr } => let_document(session, number, name, expr, meters.pairs),
        Command::DropDoc { name } => drop_document(session, number, name),
        Command::Show { name, from, to } => show(session, number, name, from, to),
        Command::ReplaceDoc {
            name,
            query,
            source,
            by,
            longest,
        } => replace(
            context,
            session,
            Replacing {
                name,
                query,
                source,
                by,
                longest,
            },
            meters.pairs,
            meters.places,
            meters.looks,
        ),
        Command::MarkDocs { name } => mark(session, number, name),
        Command::UnmarkDocs { name } => unmark(session, number, name),
        Command::BackDocs { name } => back(session, number, name),
        Command::Compact => {
            session.settle();
            compact(session, number)
        }
        command => answer_query(context, session, command, meters),
    }
}

// Executes a command that registers or removes a query, or asks for one value of its answers.
fn answer_query<R: Threads + Sync, G: Gate, P: Ledger, T: Ledger, L: Ledger>(
    context: Context<'_, R, G>,
    session: &mut SessionState,
    command: Command,
    meters: &mut Meters<'_, '_, '_, P, T, L>,
) -> Result<Answer, Stop>
    requires session { IsConsistent session.old }
    requires on_queries { IsOnQueries command }
    requires short { IsShort command }
    requires well_formed { IsWellFormed command }
    ensures same_meters { IsSameMeters meters.old meters.new }
    ensures done { (files : Option Files) (faults : ℕ) → IfOk result (Answers
        (at session.old files faults meters.old.looks.now meters.old.pairs.now meters.old.places.now) context.entry.number command
        (at session.new files faults meters.new.looks.now meters.new.pairs.now meters.new.places.now)) }
    ensures stopped { (files : Option Files) (faults : ℕ) → IfErr result (Stays
        (at session.old files faults meters.old.looks.now meters.old.pairs.now meters.old.places.now) context.entry.number command
        (at session.new files faults meters.new.looks.now meters.new.pairs.now meters.new.places.now)) }
{
    let number = context.number;
    match command {
        Command::Query { name, formula } => {
            register(session, number, name, Recipe::Formula { text: formula })
        }
        Command::Unquery { name } => unquery(session, number, name),
        Command::UnionQuery { name, left, right } => {
            register(session, number, name, Recipe::Union { left, right })
        }
        Command::JoinQuery { name, left, right } => {
            register(session, number, name, Recipe::Join { left, right })
        }
        Command::ProjectQuery { name, source, keep } => {
            register(session, number, name, Recipe::Project { source, keep })
        }
        Command::Count { query, doc } => count(context, session, query, doc, meters.places),
        Command::Rank {
            query,
            doc: name,
            tuple: word,
        } => {
            let ranking = Ranking { query, name, word };
            rank(context, session, ranking, meters.places, meters.looks)
        }
        Command::Nonempty { query, name } => {
            let word = None;
            let question = Question { query, name, word };
            ask(context, session, question, meters.places, meters.looks)
        }
        Command::Has { query, name, tuple } => {
            let word = Some(tuple);
            let question = Question { query, name, word };
            ask(context, session, question, meters.places, meters.looks)
        }
        // All other commands were taken before.
        _ => unreachable!(),
    }
}
