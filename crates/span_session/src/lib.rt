//! A session of the script language: the execution of one line.
//!
//! ```text
//! let mut session = Session::new(alloc);
//! let told = session.line(
//!     &rt, 1, b"text d abc", workers, &mut out, &mut shelf, &gate, &mut pairs, &mut places, &mut looks,
//! )?;
//! ```
//!
//! A rejected line changes nothing. A failure of the sink or the file store, or an allocation failure, stops a line:
//! what was written is then a prefix of its reply.
//!
//! The maximum cost of a line is defined in `span_language`, in table lookups, node constructions and computed tables.
//! Memory is allocated for the nodes, the names, the queries with their tables, and the working memory of one line.
//!
//! Proved: What one line replies, changes and costs, and that `compact` leaves only reachable nodes (`Session::line`).
#![tactic(auto)]

mod answering;
mod carrying;
mod lending;
mod session;

pub use lending::{Io, Meters};
pub use session::Session;
pub use span_language::{Stop, Told};
