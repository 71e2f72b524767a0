//! The types that all other crates use: names, spans and tuples, sets of bytes, formulas and queries, the error for
//! allocation failure, and step counters.
//!
//! ```text
//! let name = Name::new(alloc, b"log.1")?;                  // an error if the bytes aren't a name
//! let tuple = Tuple::none(2);                              // two variables, neither of which has a span
//! assert_eq!(mark_at(&tuple, 1), 0);                       // no span starts or ends at position 1
//! assert_eq!(compare(&tuple, &tuple), Ordering::Equal);    // mark order, in which answers come
//! assert_eq!(height_limit(281474976710656), 68);           // the greatest height of a tree of 2^48 bytes
//! assert_eq!(looks_limit(1, 11), 84);                      // table lookups for one answer of one variable on 11 bytes
//! ```
//!
//! A tuple has a fixed size and is compared in constant time, a set of bytes takes 32 bytes, and a name takes its own
//! bytes. `Steps` have no bytes at run time. Formulas and queries take memory linear in their parts.
//!
//! Spans, tuples and formulas with capture variables are those of R. Fagin, B. Kimelfeld, F. Reiss and S. Vansummeren,
//! *Document Spanners*, JACM 2015. Mark order of tuples is this project's own.
//!
//! Proved: A name is exactly a NAME (`Name::new`). Lists of at most eight names (`Vars`). The mark of a tuple at a
//! position (`mark_at`), mark order (`compare`), the numbers H and B (`height_limit`, `looks_limit`). Laws of marks,
//! order, answers and the stricter rule of formulas (`law`).
//!
//! Tested: Printed texts of its errors.
#![tactic(auto)]

mod bytes;
mod formula;
pub mod law;
mod limits;
mod name;
mod query;
mod refusal;
mod steps;
mod tuple;
mod vars;

pub use bytes::{ByteList, ByteSet};
pub use formula::Formula;
pub use limits::{height_limit, looks_limit};
pub use name::{Name, NameRefusal, is_well_named};
pub use query::QueryTree;
pub use refusal::NoMemory;
pub use steps::Steps;
pub use tuple::{Span, Tuple, compare, mark_at};
pub use vars::{Vars, VarsRefusal};
