//! The commands on queries and their answers.
//!
//! ```text
//! let answer = register(&mut session, number, name, Recipe::Formula { text })?;
//! let outcome = list(context, &mut session, page, &mut out, &mut places, &mut looks)?;
//! ```
//!
//! Each command is one function. A command that evaluates a query finds its document, computes the tables of all new nodes
//! (`places`), and searches the tables of its query (`looks`). It is rejected if the document or the query doesn't exist.
//! A listing writes each answer before it searches for the next one, and allocates nothing once it has
//! begun. Queries are evaluated as in M. L. Schmid and N. Schweikardt, *Spanner Evaluation over SLP-Compressed Documents*,
//! PODS 2021.
//!
//! Proved: What each of these commands replies, changes and costs.
#![tactic(auto)]

mod all_listing;
mod counting;
mod listing;
mod queries;
mod registering;
mod replacement;
mod subject;
mod tables;
mod words;

pub use all_listing::list_all;
pub use counting::{Ranking, count, rank};
pub use listing::{Page, list};
pub use queries::{Question, ask, unquery};
pub use registering::{Recipe, register};
pub use replacement::{Replacing, replace};
