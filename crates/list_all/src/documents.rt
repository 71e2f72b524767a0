//! The pages of many documents, found by several threads.
ghost use Rattle.list_all.specs.Pages.{ArePages, AreRoots};
ghost use Rattle.list_all.specs.Places.{HaveEach};
ghost use Rattle.slp_model.specs.Nodes.{IsLive};
ghost use Rattle.state_tables.specs.Dictionary.{AreTables};
ghost use Rattle.std.specs.List.{AllByRecursion};
ghost use Rattle.std.specs.Prelude.{◌≡◌, ◌+◌, ◌<◌, ◌≤◌, ◌^◌, All, length, take, IfOk};
ghost use Rattle.std.specs.Thread.{IsSync};

use crate::finder::{FindPage, Finder};
use crate::found::{OnePage, Pages};
use crate::shared::{Shared, joined, page_index};
use doc_book::Docs;
use indexmap::IndexSet;
use marker_dfa::Dfa;
use node_store::NodeId;
use span_types::NoMemory;
use state_tables::View;
use std::alloc::Global;
use std::thread::Threads;
use work_gate::{Gate, halves};

/// The roots of consecutive documents, and the index of the first.
#[derive(Clone, Copy)]
struct RootRange<'a> {
    roots: &'a [Option<NodeId>],
    first: usize,
}

/// The roots of `count` documents, from index `first` on.
fn roots_of(
    alloc: Global,
    docs: &Docs,
    first: usize,
    count: usize,
) -> Result<Vec<Option<NodeId>>, NoMemory>
    requires { first + count ≤ length docs.now }
    ensures { IfOk result (λ roots. AreRoots docs.now first count roots.items) }
{
    let _all = docs.count();
    let mut roots = Vec::with_capacity(alloc, count)?;
    for index in 0..count {
        let (_, root) = docs.at(first + index);
        roots.push(root)?;
    }
    Ok(roots)
}

/// Finds the pages of the documents in order, on this thread. Equal roots share one page.
fn one_piece<F: FindPage, G: Gate>(
    alloc: Global,
    finder: &F,
    documents: RootRange<'_>,
    gate: &G,
) -> Result<Shared, NoMemory>
    requires can { All (F.can_find finder.now) documents.roots.now }
    requires places { documents.first + length documents.roots.now < 2 ^ 64 }
    ensures { IfOk result (λ pages. HaveEach (F.is_page finder.now) pages.found.items documents.entry.roots.now pages.places.items) }
{
    let mut seen = IndexSet::new(alloc);
    let mut found = Vec::new(alloc);
    let mut places = Vec::with_capacity(alloc, documents.roots.len())?;
    for (index, root) in documents.roots.iter().enumerate() {
        gate.pass(documents.first + index);
        let page = page_index(alloc, finder, &mut seen, &mut found, *root)?;
        places.push(page)?;
    }
    Ok(Shared { found, places })
}

/// Finds the pages of the roots in order, in at most `workers` pieces that run at once.
fn in_pieces<R: Threads + Sync, F: FindPage, G: Gate>(
    rt: &R,
    alloc: Global,
    finder: &F,
    documents: RootRange<'_>,
    workers: u8,
    gate: &G,
) -> Result<Shared, NoMemory>
    requires can { All (F.can_find finder.now) documents.roots.now }
    requires places { documents.first + length documents.roots.now < 2 ^ 64 }
    ensures { IfOk result (λ pages. HaveEach (F.is_page finder.now) pages.found.items documents.entry.roots.now pages.places.items) }
{
    if workers <= 1 || documents.roots.len() <= 1 {
        return one_piece(alloc, finder, documents, gate);
    }
    let at = documents.first;
    let (left, right) = documents.roots.split_at(documents.roots.len() / 2);
    let middle = at + left.len();
    let (first, second) = halves(
        rt,
        || -> Result<Shared, NoMemory>
            requires sync { IsSync R.row × IsSync F.row × IsSync G.row }
            requires can { All (F.can_find finder.now) left.now }
            requires places { at + length left.now < 2 ^ 64 }
            ensures pages { IfOk result (λ pages. HaveEach (F.is_page finder.entry.now) pages.found.items left.entry.now pages.places.items) }
        {
            let first_half = RootRange {
                roots: left,
                first: at,
            };
            in_pieces(rt, alloc, finder, first_half, workers / 2, gate)
        },
        || -> Result<Shared, NoMemory>
            requires sync { IsSync R.row × IsSync F.row × IsSync G.row }
            requires can { All (F.can_find finder.now) right.now }
            requires places { middle + length right.now < 2 ^ 64 }
            ensures pages { IfOk result (λ pages. HaveEach (F.is_page finder.entry.now) pages.found.items right.entry.now pages.places.items) }
        {
            let second_half = RootRange {
                roots: right,
                first: middle,
            };
            in_pieces(rt, alloc, finder, second_half, workers - workers / 2, gate)
        },
    );
    joined(first?, second?)
}

/// The cost of a page apart from its answers. The unit is the cost of one answer.
const PAGE: usize = 2;

/// The minimum number of answers that are found in the time that it takes to start a thread.
const ANSWERS_OF_THREAD: usize = 256;

/// With two or more workers, lists of at most this many roots are always cut in two, so that a gate observes two
/// threads.
const FEWEST: usize = 2;

// The cost of the page that was found last. The unit is the cost of one answer.
fn last_cost(found: &[OnePage]) -> usize {
    match found.last() {
        Some(page) => page.tuples().len().saturating_add(PAGE),
        None => 0,
    }
}

/// Finds the pages of the first roots in order, on this thread, until they have cost as much as the start of a thread.
fn first_piece<F: FindPage, G: Gate>(
    alloc: Global,
    finder: &F,
    documents: RootRange<'_>,
    gate: &G,
) -> Result<Shared, NoMemory>
    requires can { All (F.can_find finder.now) documents.roots.now }
    requires places { documents.first + length documents.roots.now < 2 ^ 64 }
    ensures pages { IfOk result (λ pages. HaveEach (F.is_page finder.now) pages.found.items (take (length pages.places.items) documents.entry.roots.now) pages.places.items) }
    ensures few { IfOk result (λ pages. length pages.places.items ≤ length documents.entry.roots.now) }
{
    let mut seen = IndexSet::new(alloc);
    let mut found = Vec::new(alloc);
    let mut places = Vec::new(alloc);
    let mut cost: usize = 0;
    for (index, root) in documents.roots.iter().enumerate() {
        if cost >= ANSWERS_OF_THREAD {
            return Ok(Shared { found, places });
        }
        gate.pass(documents.first + index);
        let before = found.len();
        let page = page_index(alloc, finder, &mut seen, &mut found, *root)?;
        places.push(page)?;
        if found.len() > before {
            cost = cost.saturating_add(last_cost(&found));
        }
    }
    Ok(Shared { found, places })
}

// The maximum number of pieces for `rest` further roots, if each page costs as much as the last one found.
fn pieces_of(found: &[OnePage], rest: usize, workers: u8) -> u8 {
    let cost = rest.saturating_mul(last_cost(found));
    workers.min((cost / ANSWERS_OF_THREAD).min(64) as u8)
}

/// Finds the pages of the roots in order, in as many pieces as are worth the start of a thread, and at most `workers`.
fn in_worthy_pieces<R: Threads + Sync, F: FindPage, G: Gate>(
    rt: &R,
    alloc: Global,
    finder: &F,
    documents: RootRange<'_>,
    workers: u8,
    gate: &G,
) -> Result<Shared, NoMemory>
    requires can { All (F.can_find finder.now) documents.roots.now }
    requires places { documents.first + length documents.roots.now < 2 ^ 64 }
    ensures { IfOk result (λ pages. HaveEach (F.is_page finder.now) pages.found.items documents.entry.roots.now pages.places.items) }
{
    if workers <= 1 || documents.roots.len() <= FEWEST {
        return in_pieces(rt, alloc, finder, documents, workers, gate);
    }
    let first = first_piece(alloc, finder, documents, gate)?;
    let (prefix, roots) = documents.roots.split_at(first.places.len());
    let pieces = pieces_of(&first.found, roots.len(), workers);
    let rest = RootRange {
        roots,
        first: documents.first + prefix.len(),
    };
    let second = in_pieces(rt, alloc, finder, rest, pieces, gate)?;
    joined(first, second)
}

/// Finds the page of each of `count` documents from index `first` on: the first `limit` answers of the automaton on its
/// text, and whether there are more. The result doesn't depend on the number of workers. `limit` is 1 to 10,000, and
/// `workers` is 1 to 64.
///
/// The view's tables are those of the automaton, and each root is a node of the view or `None`. With one worker there
/// is one piece. Otherwise two documents are cut into two pieces, and for more one thread begins. When its pages have
/// cost as much as the start of a thread, the rest is cut into at most `workers` pieces, which run at once. There are
/// only as many pieces as are worth a thread each, if each page costs as much as the last one found. `gate.pass` is
/// called with the index of each document before its page is found. Within a piece, documents with equal roots share
/// one page, which is found and stored once.
///
/// # Errors
///
/// `NoMemory` if allocation fails in any piece.
pub fn pages<R: Threads + Sync, G: Gate>(
    rt: &R,
    alloc: Global,
    view: View<'_>,
    dfa: &Dfa,
    docs: &Docs,
    first: usize,
    count: usize,
    limit: u16,
    workers: u8,
    gate: &G,
) -> Result<Pages, NoMemory>
    requires places { first + count ≤ length docs.now }
    requires tables { AreTables dfa.now view.store.now view.tables.now }
    requires live { AllByRecursion (λ d. IsLive view.store.now d.root) docs.now }
    requires some { 1 ≤ limit }
    requires few { limit ≤ 10000 }
    requires least { 1 ≤ workers }
    requires most { workers ≤ 64 }
    ensures { IfOk result (ArePages dfa.now view.entry.store.now docs.now first count limit) }
{
    let _all = docs.count();
    let roots = roots_of(alloc, docs, first, count)?;
    let finder = Finder { view, dfa, limit };
    let documents = RootRange {
        roots: &roots,
        first,
    };
    let shared = in_worthy_pieces(rt, alloc, &finder, documents, workers, gate)?;
    Ok(Pages { shared })
}
