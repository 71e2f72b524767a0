//! Tests of documents by name, concatenation, loaded texts, splitting, ranges, edits, images and compaction.
//!
//! ```text
//! row    copy(concat(d,d),1,3,5), where d is ab    ababab
//! row    an image whose magic has another byte     the first fault
//! ```
//!
//! The crate has only tests, of the crates between `name_map` and `slp_image`, such as `node_store`, `pair_loader`,
//! `edit_expr` and `doc_compact`. They are a crate of their own, so that these crates are not proved again when a test
//! changes. They take little time and memory.
//!
//! Proved: Only safety and termination of its tests, which are about the crates that concern stores and texts.
#![tactic(auto)]

#[cfg(test)]
mod tests;
