//! Tests of what is read and printed: arguments, names, spans and their marks, tuples, formulas, lines of a script and of
//! its replies, and bytes from sources and file stores.
//!
//! ```text
//! row    `($x{a})*`                  not functional in x
//! row    `list q d limit 0`          no form
//! ```
//!
//! The crate has tests alone, of `span_types`, `formula_syntax`, `script_syntax`, `span_cursor`, `report_text`, `span_words`
//! and `edge_io`. They are apart from these, so that each of them is proved once. They take little time and memory.
//!
//! Proved: Only safety and termination of its tests, which are about the crates that read and print texts.
#![tactic(auto)]

#[cfg(test)]
mod arguments;
#[cfg(test)]
mod cursors;
#[cfg(test)]
mod edges;
#[cfg(test)]
mod formulas;
#[cfg(test)]
mod lines;
#[cfg(test)]
mod replies;
#[cfg(test)]
mod types;
