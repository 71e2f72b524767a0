//! Tests of the top call: example scripts and injected faults, over objects in memory.
//!
//! ```text
//! ran(&rt, alloc, plain(b"names\n"), b"end\n")            // the status, and how the written bytes compare with these
//! ```
//!
//! The crate has only tests:
//!
//! - whole scripts with their exact output, and the example of the language
//! - texts of 2^48 bytes
//! - a source, a sink and a file store that fail at each call in turn
//! - a sink that accepts half of each piece
//! - two workers that wait at a gate until both have come, and the nodes that `compact` leaves
//!
//! The output of a run that is stopped is compared with a prefix of the whole output. The tests are a crate of their
//! own, so that `span_run` is not proved again when a test changes.
//!
//! Proved: Only safety and termination of its tests, which are about span_run.
#![tactic(auto)]

#[cfg(test)]
mod gate;
#[cfg(test)]
mod halves;
#[cfg(test)]
mod long_texts;
#[cfg(test)]
mod running;
#[cfg(test)]
mod shelves;
#[cfg(test)]
mod tests;
