//! Lines of a script as commands: each of the stated forms and no other.
//!
//! ```text
//! match command(alloc, b"show d 1 4")? {                   // Syntax if the line has no form
//!     Command::Show { name, from, to } => show(&name, from, to),
//!     ..
//! }
//! ```
//!
//! A line is read as a command exactly if it has the command's form, so two programs that read lines by this crate
//! agree on every byte. Names and numbers are read here; expressions, formulas and tuples are any bytes here, and their
//! own crates (edit_expr, formula_syntax, span_cursor) read them later. A line has at most 65,536 bytes. It is read a few
//! times, so the time is linear in its length, and memory is taken for copies of the parts that the command keeps.
//!
//! Proved: A command comes exactly if the line has its form (`command`).
//!
//! Tested: Error texts.
#![tactic(auto)]

mod arguments;
mod form;
mod groups;
mod keyword;
pub mod law;
mod options;
mod parts;
mod quoted;
mod syntax;

pub use form::{Command, ListStart};
pub use syntax::{LineRefusal, command};
