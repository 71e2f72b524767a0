//! The meaning of a script, defined on plain byte strings. A state consists of named texts, queries and versions.
//! `Step` defines the reply and the effect of a line, `IsAllowed` its maximum cost, and `Runs` the effect of a list of
//! lines.
//!
//! The top call is proved against these definitions, which mention no tree, no automaton and no table. The crate's code
//! is the types for the outcome of a line:
//!
//! ```text
//! match told {                                             // the result of `Session::line` of span_run
//!     Ok(Told::Refused) => ..                              // the line was rejected, and nothing changed
//!     Err(Stop::OutFault) => ..                            // the sink failed, and the run ends
//!     ..
//! }
//! ```
//!
//! The allowance of a line is its maximum number of table lookups and node constructions. A `text` of n bytes takes at
//! most n + 4·(H(n)+1) node constructions. A `list` that writes `a` answers takes at most (a+3)·B(k, n) table lookups, or
//! (a+4)·B(k, n) with `at`.
//! The crate's own code takes neither time nor memory.
//!
//! The answers of a query are defined as in R. Fagin, B. Kimelfeld, F. Reiss and S. Vansummeren, *Document Spanners*,
//! JACM 2015. Editing is defined as in M. L. Schmid and N. Schweikardt, *Query Evaluation over SLP-Represented Document
//! Databases with Complex Document Editing*, PODS 2022.
//!
//! Proved: The definitions that `run` cites, and their laws. A rejected line changes nothing (`law::refusals`). A line
//! has one reply, except for `save` (`law::replies`, `law::outputs`). `bytes` reads what `show` prints
//! (`law::shown_texts`).
#![tactic(auto)]

pub mod law;
mod told;

pub use told::{Stop, Told};
