//! The lines of replies and rejections.
//!
//! ```text
//! doc_line(alloc, &name, 11, b"abracadabra", &mut out)?;               // ok d 11 "abracadabra"
//! refusal_line(alloc, 3, &Refusal::NoSuchDocument { name }, &mut out)?;  // line 3: NoSuchDocument d
//! ```
//!
//! Each call appends one whole line with its newline to `out`, or nothing if allocation fails: the line is built first
//! and then appended. Time and memory are linear in the line, in which a byte of a text takes at
//! most four. The texts are exactly those of the language, one equation for each.
//!
//! Proved: The bytes of each reply.
#![tactic(auto)]

mod pieces;
mod refusal;
mod reply;

pub use refusal::{Refusal, refusal_line};
pub use reply::{
    doc_line, name_line, number_line, opened_line, query_line, saved_line, shown_line, written_line,
};
