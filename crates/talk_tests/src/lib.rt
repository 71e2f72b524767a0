//! Tests of conversations over objects in memory.
//!
//! ```text
//! ran(&rt, alloc, b"names\n", 1, 0, 0)       // the status, and the bytes written
//! ```
//!
//! The crate has only tests, of `span_talk`: scripts in pieces of several sizes, failing reads and writes, and lines
//! that are too long. One client checks that each reply has come before it sends more. The tests are a crate of their
//! own, so that `span_talk` is not proved again when a test changes. They take little time and memory.
//!
//! Proved: Only safety and termination of its tests, which are about span_talk.
#![tactic(auto)]

#[cfg(test)]
mod tests;
