//! The state of a session, and what each command owes: its reply, its effect and its cost.
//!
//! ```text
//! let mut session = SessionState::new(alloc);              // no documents, queries, versions or nodes
//! let answer = set_document(alloc, &session.store, &mut session.docs, name, root)?;
//! let outcome = send(answer, &mut out)?;                   // the whole reply is written to the sink
//! ```
//!
//! The crates of commands use this one. A command takes the state and the counters that it uses, and returns an
//! `Answer`, or writes its reply line by line (`offer`, `close`). Its contract is `Answers` or `Ends`: the reply and the
//! new state are those of the language's definition, and the counters rise by at most its allowance.
//!
//! Proved: A reply is written completely, or a prefix of it if the sink failed (`send`, `offer`). A rejected command
//! changes nothing and costs nothing (`reject`, `write_rejection`).
#![tactic(auto)]

mod lending;
mod rejecting;
mod replies;
mod sending;
mod session;
mod texts;

pub use lending::{Context, Lent};
pub use rejecting::{reject, write_rejection};
pub use replies::{Answer, ok_line};
pub use sending::{close, offer, send, send_out, send_rejection};
pub use session::SessionState;
pub use texts::{bytes_between, head_of, set_document};
