//! A conversation in the script language: a client sends lines, and each reply is written before more is read.
//!
//! ```text
//! let mut client = Listener::new(source, None);            // a source of bytes, without prompts
//! let status = talk(
//!     &rt, alloc, &mut client, workers, &mut out, &mut shelf, &gate, &mut pairs, &mut places, &mut looks,
//! );
//! ```
//!
//! The bytes may come in pieces of any size: the lines are those of the whole script, and the output is what `run` of
//! span_run writes for it. Each time the client is called, exactly the replies to all complete lines so far have been
//! written. Contracts state this by the client's moments, if they are observable.
//!
//! A line takes the time that span_language allows for it, and reading takes time linear in the number of bytes. At
//! most 65,537 bytes of a line are stored, so the memory grows with the texts and queries, and not with the length of
//! the script. A script has at most 2^62 bytes.
//!
//! It is a read-eval-print loop (L. P. Deutsch and E. Berkeley, *The LISP Implementation for the PDP-1 Computer*,
//! 1964).
//!
//! Proved: The same as `run` for lines that arrive in pieces. Each reply is written before more is read (`talk`).
//!
//! Tested: The prompt.
#![tactic(auto)]

mod client;
mod conversation;
mod hearing;

pub use client::{Client, Listener};
pub use conversation::talk;
pub use span_run::Status;
