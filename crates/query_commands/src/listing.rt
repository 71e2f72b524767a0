//! The command `list`: writes each answer's line before the next answer is found.
ghost use Rattle.edge_io.specs.Causes.{HasIncreased};
ghost use Rattle.edge_io.specs.Files.{Files};
ghost use Rattle.query_book.specs.Book.{queries_of};
ghost use Rattle.query_book.specs.Named.{value_of};
ghost use Rattle.query_book.specs.Serving.{CoversQuery, HasCounts, Serves};
ghost use Rattle.query_commands.specs.Asking.{Sends};
ghost use Rattle.query_commands.specs.Listing.{Begins};
ghost use Rattle.query_commands.specs.Tables.{GrowsFor};
ghost use Rattle.script_syntax.specs.Syntax.{IsStart};
ghost use Rattle.script_syntax.specs.declared.form.Command.TheVariants as form;
ghost use Rattle.session_state.specs.Carried.{outlet};
ghost use Rattle.session_state.specs.LineState.{seen};
ghost use Rattle.session_state.specs.SessionState.{IsConsistent, model_of};
ghost use Rattle.session_state.specs.Written.{Ends, WantsFor, Wrote};
ghost use Rattle.slp_model.specs.Nodes.{IsLive, text_of};
ghost use Rattle.span_enum.specs.Members.{Tuple as ATuple, AreAnswersOf};
ghost use Rattle.span_language.specs.Allowance.{counters};
ghost use Rattle.span_language.specs.Counts.{IsNumbered};
ghost use Rattle.span_language.specs.Listed.{tuple_line, first_page_text};
ghost use Rattle.span_language.specs.State.{World};
ghost use Rattle.span_language.specs.Step.{IsAsked};
ghost use Rattle.span_types.specs.Answers.{IsAfter};
ghost use Rattle.span_types.specs.Fibonacci.{looks_limit};
ghost use Rattle.span_types.specs.Query.{query_of};
ghost use Rattle.std.specs.Prelude.{◌≡◌, ◌≤◌, ◌+◌, ◌*◌, ℕ, List, None, Option, Some, length, take, IfOk, IfErr, OnOk};

use crate::subject::Subject;
use crate::tables::{grow, grow_counts};
use crate::words::tuple_of;
use doc_book::Missing;
use edge_io::Sink;
use node_store::Store;
use query_book::QueryBook;
use report_text::Refusal;
use script_syntax::ListStart;
use session_state::{Context, Lent, SessionState, close, offer, send_rejection, write_rejection};
use span_cursor::print;
use span_enum::Answers;
use span_language::{Stop, Told};
use span_types::{Name, NoMemory, Steps, Tuple, Vars};
use std::alloc::Global;
use std::sync::ledger::Ledger;
use std::thread::Threads;
use work_gate::Gate;

/// The requested page of answers: the query, the document's name, where the listing starts, and its maximum number of
/// answers.
#[derive(Drop)]
pub struct Page {
    pub query: Name,
    pub name: Name,
    pub start: ListStart,
    pub limit: u16,
}

/// Writes a tuple's line.
pub fn write_tuple<K: Sink>(tuple: &Tuple, vars: &Vars, out: &mut K) -> Result<(), Stop>
    requires { length vars.now ≡ length tuple.now }
    ensures wrote { Wrote result (outlet (K.written out.old) (K.faults out.old) (K.wants out.old)) (tuple_line vars.now tuple.now)
        (outlet (K.written out.new) (K.faults out.new) (K.wants out.new)) }
    ensures want { IfErr result (λ why. why ≡ Stop.NoMemory → HasIncreased (K.wants out.old) (K.wants out.new)) }
{
    let mut line = [0u8; 800];
    let len = print(tuple, vars, &mut line);
    line[len] = b'\n';
    offer(out, &line[..len + 1])
}

/// Writes the lines of at most `limit` answers, and then whether there are more. It allocates nothing.
fn write_page<K: Sink, L: Ledger>(
    answers: &mut Answers<'_>,
    vars: &Vars,
    limit: u16,
    out: &mut K,
    looks: &mut Steps<L>,
) -> Result<Told, Stop>
    requires { length vars.now ≡ answers.old.automaton.variables }
    ensures told { IfOk result (λ told. told ≡ Told.Accepted) }
    ensures page { (all rest : List ATuple) → AreAnswersOf answers.old.automaton answers.old.text all → IsAfter all answers.old.after rest
        → Wrote result (outlet (K.written out.old) (K.faults out.old) (K.wants out.old)) (first_page_text vars.now limit rest)
        (outlet (K.written out.new) (K.faults out.new) (K.wants out.new))
        × (looks.new ≤ looks.old + (length (take limit rest) + 1) * looks_limit answers.old.automaton.variables (length answers.old.text)) }
    ensures want { IfErr result (λ why. why ≡ Stop.NoMemory → HasIncreased (K.wants out.old) (K.wants out.new)) }
{
    let mut left = limit;
    while let Some(tuple) = answers.next(looks) {
        if left == 0 {
            return close(out, b"more\n");
        }
        write_tuple(&tuple, vars, out)?;
        left -= 1;
    }
    close(out, b"end\n")
}

/// An iterator over a query's answers from a start on, or why the start is rejected.
fn answers_from<'a, L: Ledger>(
    subject: Subject<'_, 'a>,
    start: &ListStart,
    looks: &mut Steps<L>,
) -> Result<Result<Answers<'a>, Refusal>, NoMemory>
    requires live { IsLive subject.query.now.nodes subject.root }
    requires start { IsStart start.now }
    requires counts { IsNumbered start.now → subject.query.now.counted ≡ Some (length subject.query.now.nodes) }
    ensures { Begins (query_of subject.entry.query.now.tree) (text_of subject.entry.query.now.nodes subject.entry.root) start.now
        result looks.old looks.new }
{
    let Subject { alloc, query, root } = subject;
    match start {
        ListStart::First => {
            let answers = query.start(alloc, root, looks)?;
            Ok(Ok(answers))
        }
        ListStart::After(word) => match tuple_of(query.vars(), word) {
            Ok(tuple) => {
                let answers = query.seek(alloc, root, &tuple, looks)?;
                Ok(Ok(answers))
            }
            Err(why) => Ok(Err(why)),
        },
        ListStart::At(m) => {
            let answers = query.start_at(alloc, root, *m, looks)?;
            Ok(Ok(answers))
        }
    }
}

/// Writes a page of a query's answers on a root's text, or why its start is rejected.
fn list_page<K: Sink, L: Ledger>(
    subject: Subject<'_, '_>,
    number: u64,
    page: &Page,
    out: &mut K,
    looks: &mut Steps<L>,
) -> Result<Told, Stop>
    requires live { IsLive subject.query.now.nodes subject.root }
    requires start { IsStart page.now.start }
    requires counts { IsNumbered page.now.start → subject.query.now.counted ≡ Some (length subject.query.now.nodes) }
    ensures sends { (w : World) (query name : List ℕ) (pairs : ℕ)
        → IsAsked w query name (query_of subject.entry.query.now.tree) (text_of subject.entry.query.now.nodes subject.entry.root)
        → Sends w number (form.List query name page.now.start page.now.limit)
        (λ reply. Wrote result (outlet (K.written out.old) (K.faults out.old) (K.wants out.old)) reply
        (outlet (K.written out.new) (K.faults out.new) (K.wants out.new))) result (counters looks.old pairs) (counters looks.new pairs) }
    ensures want { WantsFor result (outlet (K.written out.old) (K.faults out.old) (K.wants out.old))
        (outlet (K.written out.new) (K.faults out.new) (K.wants out.new)) }
{
    match answers_from(subject, &page.start, looks) {
        Ok(Ok(answers)) => {
            let mut answers = answers;
            write_page(&mut answers, subject.query.vars(), page.limit, out, looks)
        }
        Ok(Err(why)) => send_rejection(subject.alloc, number, &why, out),
        Err(NoMemory) => Err(Stop::NoMemory),
    }
}

/// Computes the tables of a page's query, and its counting tables if the page starts at the answer with a number.
fn grow_for<R: Threads + Sync, G: Gate, T: Ledger>(
    lent: Lent<'_, R, G>,
    alloc: Global,
    page: &Page,
    store: &Store,
    book: &mut QueryBook,
    places: &mut Steps<T>,
) -> Result<(), NoMemory>
    requires serves { Serves store.now book.old }
    ensures all { OnOk result (CoversQuery store.now book.new page.now.query) }
    ensures counts { OnOk result (IsNumbered page.now.start → HasCounts (length store.now) book.new page.now.query) }
    ensures grown { GrowsFor page.now.start page.now.query store.now book.old book.new places.old places.new }
    ensures missing { value_of (queries_of book.old) page.now.query ≡ None → (book.new ≡ book.old) × (places.new ≡ places.old) }
{
    grow(lent, alloc, &page.query, store, book, places)?;
    match page.start {
        ListStart::At(_) => grow_counts(lent, alloc, &page.query, store, book, places),
        _ => Ok(()),
    }
}

/// `list Q NAME`, optionally with `after TUPLE` or `at NUM` and with `limit NUM`. Writes each answer's line before the
/// next answer is computed.
pub fn list<R: Threads + Sync, K: Sink, G: Gate, T: Ledger, L: Ledger>(
    context: Context<'_, R, G>,
    session: &mut SessionState,
    page: Page,
    out: &mut K,
    places: &mut Steps<T>,
    looks: &mut Steps<L>,
) -> Result<Told, Stop>
    requires session { IsConsistent session.old }
    requires start { IsStart page.start }
    ensures session { IsConsistent session.new }
    ensures ends { (files : Option Files) (faults pairs : ℕ) → Ends context.entry.number (Some (form.List page.query page.name page.start page.limit))
        (seen (model_of session.old) files faults looks.old pairs places.old)
        (outlet (K.written out.old) (K.faults out.old) (K.wants out.old))
        (seen (model_of session.new) files faults looks.new pairs places.new)
        (outlet (K.written out.new) (K.faults out.new) (K.wants out.new)) result }
{
    match session.root_of(&page.name) {
        Ok(root) => {
            let SessionState { store, book, .. } = session;
            grow_for(context.lent, session.alloc, &page, store, book, places)?;
            match session.book.ready(page.query.bytes(), &session.store) {
                Ok(ready) => {
                    let subject = Subject {
                        alloc: session.alloc,
                        query: &ready,
                        root,
                    };
                    list_page(subject, context.number, &page, out, looks)
                }
                Err(_) => {
                    let why = Refusal::NoSuchQuery { name: page.query };
                    write_rejection(session, context.number, &why, out)
                }
            }
        }
        Err(Missing::NoSuchDocument) => {
            let why = Refusal::NoSuchDocument { name: page.name };
            write_rejection(session, context.number, &why, out)
        }
    }
}
