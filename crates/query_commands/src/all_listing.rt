//! The command `listall`: lists the answers of a query on every document. Documents are processed in batches, and a
//! batch's lines are written before the next batch is computed.
ghost use Rattle.doc_book.specs.Texts.{AreLive, plain};
ghost use Rattle.edge_io.specs.Files.{Files};
ghost use Rattle.query_commands.specs.AllListing.{AreAnswered, IsAllListing, documents_text, rest_text};
ghost use Rattle.query_commands.specs.Asking.{Sends};
ghost use Rattle.script_syntax.specs.declared.form.Command.TheVariants as form;
ghost use Rattle.session_state.specs.Carried.{outlet};
ghost use Rattle.session_state.specs.LineState.{seen};
ghost use Rattle.session_state.specs.SessionState.{IsConsistent, model_of};
ghost use Rattle.session_state.specs.Written.{Ends, IsCut, IsUpTo, Wrote};
ghost use Rattle.span_enum.specs.Members.{Tuple as ATuple};
ghost use Rattle.span_language.specs.Allowance.{counters};
ghost use Rattle.span_language.specs.Listed.{doc_line, last_line, page_text, tuple_line};
ghost use Rattle.span_language.specs.State.{World, value_of};
ghost use Rattle.span_types.specs.Query.{query_of};
ghost use Rattle.std.specs.List.{flat_map};
ghost use Rattle.std.specs.Prelude.{◌≡◌, ◌≤◌, ◌+◌, ◌++◌, ℕ, List, Option, Some, length, slice_get, OnOk, IfOk, IfErr};

use crate::listing::write_tuple;
use crate::tables::grow;
use doc_book::Docs;
use edge_io::Sink;
use list_all::pages;
use marker_dfa::Dfa;
use query_book::Ready;
use report_text::Refusal;
use session_state::{Context, SessionState, close, offer, write_rejection};
use span_language::{Stop, Told};
use span_types::{Name, NoMemory, Steps, Tuple, Vars};
use state_tables::View;
use std::alloc::Global;
use std::sync::ledger::Ledger;
use std::thread::Threads;
use work_gate::Gate;

/// The number of documents in a batch.
const BATCH: usize = 64;

/// A document's line.
fn line_of(alloc: Global, name: &Name) -> Result<Vec<u8>, NoMemory>
    ensures { IfOk result (λ line. line.items ≡ doc_line name.now) }
{
    let mut line = b"doc ".to_vec(alloc)?;
    line.extend_from_slice(name.bytes())?;
    line.push(b'\n')?;
    Ok(line)
}

/// The last line of a page.
fn last_of(more: bool) -> &'static [u8]
    ensures { result.now ≡ last_line more }
{
    if more { b"more\n" } else { b"end\n" }
}

/// Writes the lines of a page's tuples.
fn write_tuples<K: Sink>(tuples: &[Tuple], vars: &Vars, out: &mut K) -> Result<(), Stop>
    requires { (index : ℕ) (t : ATuple) → slice_get tuples.now index ≡ Some t → length vars.now ≡ length t }
    ensures { Wrote result (outlet (K.written out.old) (K.faults out.old) (K.wants out.old)) (flat_map (tuple_line vars.now) tuples.now)
        (outlet (K.written out.new) (K.faults out.new) (K.wants out.new)) }
{
    for tuple in tuples {
        write_tuple(tuple, vars, out)?;
    }
    Ok(())
}

/// Writes a document's line and its page.
fn write_document<K: Sink>(
    alloc: Global,
    name: &Name,
    tuples: &[Tuple],
    more: bool,
    vars: &Vars,
    out: &mut K,
) -> Result<(), Stop>
    requires { (index : ℕ) (t : ATuple) → slice_get tuples.now index ≡ Some t → length vars.now ≡ length t }
    ensures { Wrote result (outlet (K.written out.old) (K.faults out.old) (K.wants out.old)) (doc_line name.now ++ page_text vars.now tuples.now more)
        (outlet (K.written out.new) (K.faults out.new) (K.wants out.new)) }
{
    let line = line_of(alloc, name)?;
    offer(out, &line)?;
    write_tuples(tuples, vars, out)?;
    offer(out, last_of(more))
}

/// The parameters of a listing on every document: the query's automaton with the tables of all nodes, its variables,
/// the documents, and the maximum number of answers for each document.
#[derive(Clone, Copy)]
struct AllListing<'a> {
    alloc: Global,
    view: View<'a>,
    dfa: &'a Dfa,
    docs: &'a Docs,
    vars: &'a Vars,
    limit: u16,
}

/// Finds the pages of `count` documents from index `first` on, and writes their lines.
fn list_batch<R: Threads + Sync, K: Sink, G: Gate>(
    context: Context<'_, R, G>,
    all_listing: AllListing<'_>,
    first: usize,
    count: usize,
    out: &mut K,
) -> Result<(), Stop>
    requires places { first + count ≤ length all_listing.docs.now }
    requires all_listing { IsAllListing all_listing.dfa.now all_listing.view.store.now all_listing.view.tables.now all_listing.docs.now all_listing.vars.now all_listing.limit }
    ensures done { OnOk result ((lists : List (List ATuple)) → AreAnswered all_listing.entry.dfa.now all_listing.entry.view.store.now all_listing.entry.docs.now lists
        → IsUpTo (outlet (K.written out.old) (K.faults out.old) (K.wants out.old)) (outlet (K.written out.new) (K.faults out.new) (K.wants out.new))
        (rest_text all_listing.entry.vars.now all_listing.entry.limit all_listing.entry.docs.now lists (first + count))
        (rest_text all_listing.entry.vars.now all_listing.entry.limit all_listing.entry.docs.now lists first)) }
    ensures stopped { IfErr result (λ why. (lists : List (List ATuple))
        → AreAnswered all_listing.entry.dfa.now all_listing.entry.view.store.now all_listing.entry.docs.now lists
        → IsCut (outlet (K.written out.old) (K.faults out.old) (K.wants out.old))
        (rest_text all_listing.entry.vars.now all_listing.entry.limit all_listing.entry.docs.now lists first)
        (outlet (K.written out.new) (K.faults out.new) (K.wants out.new)) why) }
{
    let _all = all_listing.docs.count();
    let found = pages(
        context.lent.rt,
        all_listing.alloc,
        all_listing.view,
        all_listing.dfa,
        all_listing.docs,
        first,
        count,
        all_listing.limit,
        context.lent.workers,
        context.lent.gate,
    )?;
    for index in 0..count {
        let (name, _) = all_listing.docs.at(first + index);
        write_document(
            all_listing.alloc,
            name,
            found.tuples(index),
            found.more(index),
            all_listing.vars,
            out,
        )?;
    }
    Ok(())
}

/// Writes each document's line and its page, and finally the line `done`.
fn list_documents<R: Threads + Sync, K: Sink, G: Gate>(
    context: Context<'_, R, G>,
    all_listing: AllListing<'_>,
    out: &mut K,
) -> Result<Told, Stop>
    requires all_listing { IsAllListing all_listing.dfa.now all_listing.view.store.now all_listing.view.tables.now all_listing.docs.now all_listing.vars.now all_listing.limit }
    ensures told { IfOk result (λ told. told ≡ Told.Accepted) }
    ensures wrote { (lists : List (List ATuple)) → AreAnswered all_listing.entry.dfa.now all_listing.entry.view.store.now all_listing.entry.docs.now lists
        → Wrote result (outlet (K.written out.old) (K.faults out.old) (K.wants out.old))
        (documents_text all_listing.entry.vars.now all_listing.entry.limit all_listing.entry.docs.now lists)
        (outlet (K.written out.new) (K.faults out.new) (K.wants out.new)) }
{
    let all = all_listing.docs.count();
    let mut first = 0;
    while first < all {
        let count = (all - first).min(BATCH);
        list_batch(context, all_listing, first, count, out)?;
        first += count;
    }
    close(out, b"done\n")
}

/// Writes the pages of a query's answers on every document.
fn list_query<R: Threads + Sync, K: Sink, G: Gate>(
    context: Context<'_, R, G>,
    alloc: Global,
    query: &Ready<'_>,
    docs: &Docs,
    limit: u16,
    out: &mut K,
) -> Result<Told, Stop>
    requires live { AreLive query.now.nodes docs.now }
    requires some { 1 ≤ limit }
    requires few { limit ≤ 10000 }
    ensures { (w : World) (number looks pairs : ℕ) (name : List ℕ) → value_of w.state.queries name ≡ Some (query_of query.now.tree)
        → w.state.documents ≡ plain query.now.nodes docs.now → Sends w number (form.ListAll name limit)
        (λ reply. Wrote result (outlet (K.written out.old) (K.faults out.old) (K.wants out.old)) reply
        (outlet (K.written out.new) (K.faults out.new) (K.wants out.new))) result (counters looks pairs) (counters looks pairs) }
{
    let all_listing = AllListing {
        alloc,
        view: query.view(),
        dfa: query.dfa(),
        docs,
        vars: query.vars(),
        limit,
    };
    list_documents(context, all_listing, out)
}

/// `listall Q`, optionally with `limit NUM`, which is 1 to 10,000. Its table lookups are not counted, but the tables
/// that it computes are.
pub fn list_all<R: Threads + Sync, K: Sink, G: Gate, T: Ledger>(
    context: Context<'_, R, G>,
    session: &mut SessionState,
    query: Name,
    limit: u16,
    out: &mut K,
    places: &mut Steps<T>,
) -> Result<Told, Stop>
    requires session { IsConsistent session.old }
    requires some { 1 ≤ limit }
    requires few { limit ≤ 10000 }
    ensures session { IsConsistent session.new }
    ensures ends { (files : Option Files) (faults looks pairs : ℕ) → Ends context.entry.number (Some (form.ListAll query limit))
        (seen (model_of session.old) files faults looks pairs places.old)
        (outlet (K.written out.old) (K.faults out.old) (K.wants out.old))
        (seen (model_of session.new) files faults looks pairs places.new)
        (outlet (K.written out.new) (K.faults out.new) (K.wants out.new)) result }
{
    let SessionState { store, book, .. } = session;
    grow(context.lent, session.alloc, &query, store, book, places)?;
    match session.book.ready(query.bytes(), &session.store) {
        Ok(ready) => list_query(context, session.alloc, &ready, &session.docs, limit, out),
        Err(_) => {
            let why = Refusal::NoSuchQuery { name: query };
            write_rejection(session, context.number, &why, out)
        }
    }
}
