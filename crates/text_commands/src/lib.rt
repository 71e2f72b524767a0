//! The commands on documents, files and versions.
//!
//! ```text
//! let answer = text(&mut session, number, name, bytes, &mut pairs)?;     // the whole reply to `text NAME BYTES`
//! let outcome = write_names(alloc, &session.store, &session.docs, &mut out)?;
//! ```
//!
//! Each command is one function. A file is read in pieces of 65,536 bytes, so the memory that a load takes grows with
//! the new nodes and not with the file. `write` writes such pieces, so its memory doesn't grow with the text.
//!
//! An expression costs the node constructions of its operations, as in M. L. Schmid and N. Schweikardt, *Query
//! Evaluation over SLP-Represented Document Databases with Complex Document Editing*, PODS 2022.
//!
//! Proved: What each of these commands replies, changes and costs. `compact` leaves only reachable nodes.
#![tactic(auto)]

mod compacting;
mod documents;
mod files;
mod loaders;
mod reading;
mod versions;
mod writing;

pub use compacting::compact;
pub use documents::{drop_document, let_document, show, text, write_names};
pub use files::{load_file, open_file, save_file};
pub use loaders::{Loading, Method};
pub use versions::{back, mark, unmark};
pub use writing::write_file;
