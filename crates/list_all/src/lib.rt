//! The first page of answers of an automaton on each of many documents, found by several threads.
//!
//! [`page`] returns the first answers on one text, and whether there are more. [`pages`] does so for consecutive
//! documents, which it cuts into pieces that run at once. The result depends neither on the number of workers nor on
//! the gate:
//!
//! ```text
//! let (view, dfa) = book.parts(b"q", &store)?;
//! let pages = pages(&rt, alloc, view, dfa, &docs, 0, docs.count(), 1000, workers, &gate)?;
//! for place in 0..pages.count() {
//!     show(docs.at(place), pages.tuples(place), pages.more(place));
//! }
//! ```
//!
//! A page of `a` answers of k variables on a text of n bytes takes at most (a+2)·B(k, n) table lookups. Here B(k, n) =
//! 4·(2k+1)·(H(n)+3), and H(n) is the greatest height of a balanced tree of n bytes. The answers are found in the
//! tables of the text's nodes (M. L. Schmid and N. Schweikardt, *Spanner Evaluation over SLP-Compressed Documents*,
//! PODS 2021).
//!
//! Proved: For each document the first answers, and whether more follow, for any workers and gate (`pages`). A page of
//! a answers takes (a+2)·B(k, n) lookups (`page`).
//!
//! Tested: Two workers run at once.
#![tactic(auto)]

mod documents;
mod finder;
mod found;
mod shared;
mod single;

pub use documents::pages;
pub use found::{OnePage, Pages};
pub use single::page;
