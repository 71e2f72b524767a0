//! The answers of a formula on a text, without the script language.
ghost use Rattle.query_book.specs.Serving.{Serves};
ghost use Rattle.slp_model.specs.declared.Node.{Node};
ghost use Rattle.std.specs.Prelude.{◌≡◌, ◌<◌, ◌≤◌, ◌^◌, List, length, IfOk};

use list_all::{OnePage, page};
use node_store::Store;
use pair_loader::load;
use query_book::{BookRefusal, QueryBook, QueryRefusal};
use span_types::{Name, NoMemory, Steps};
use std::alloc::Global;
use std::sync::ledger::{Blank, Ledger};
use std::thread::Threads;
use thiserror::Error;
use work_gate::OpenGate;

/// Why a listing failed.
#[derive(Debug, Drop, Error)]
pub enum Trouble {
    /// The formula was rejected.
    #[error("the formula is refused: {0}")]
    Formula(QueryRefusal),
    /// The registry has no such query.
    #[error("there is no such query")]
    Query(BookRefusal),
    /// Allocation failed.
    #[error("no memory")]
    NoMemory,
}

impl From<NoMemory> for Trouble {
    ghost use Rattle.library_example.specs.declared.listing.Trouble.TheVariants as trouble;

    ghost from_gives = { λ _ e. e ≡ trouble.NoMemory };

    fn from(_: NoMemory) -> Trouble {
        Trouble::NoMemory
    }
}

/// A registry with a formula as the query `q`.
fn book_of(alloc: Global, formula: &[u8]) -> Result<QueryBook, Trouble>
    ensures { IfOk result (λ book. (ns : List Node) → Serves ns book) }
{
    let name = Name::new(alloc, b"q").map_err(|_| NoMemory)?;
    let mut book = QueryBook::new(alloc);
    match book.add(alloc, name, formula) {
        Ok(()) => Ok(book),
        Err(why) => Err(Trouble::Formula(why)),
    }
}

/// Finds the first answers of a formula on a text, at most `limit` of them, and whether there are more.
///
/// # Errors
///
/// `Formula` if the formula is rejected, or `NoMemory` if allocation fails.
pub fn first_answers<R: Threads + Sync, L: Ledger>(
    rt: &R,
    alloc: Global,
    text: &[u8],
    formula: &[u8],
    limit: u16,
    blank: Blank,
) -> Result<OnePage, Trouble>
    requires short { length text.now ≤ 2 ^ 48 }
    requires blank { (blank.name ≡ L.name) × (blank.parts ≡ L.parts) × (0 < L.parts) }
{
    let mut steps = Steps::<L>::new(blank);
    let mut store = Store::new(alloc);
    let root = load(alloc, &mut store, text, &mut steps)?;
    let mut book = book_of(alloc, formula)?;
    book.grow_all(rt, alloc, &store, 1, &OpenGate, &mut steps)?;
    match book.parts(b"q", &store) {
        Ok((view, dfa)) => Ok(page(alloc, view, dfa, root, limit, &mut steps)?),
        Err(why) => Err(Trouble::Query(why)),
    }
}
