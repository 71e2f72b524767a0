//! Computes the tables of the nodes that have none yet.
//!
//! ```text
//! let mut memory = Memory::new(alloc, 4096)?;
//! grow(&rt, alloc, &mut tables, &store, &dfa, &mut memory, workers, &gate, &mut places)?;
//! ```
//!
//! The table of a node says, for its text, which states of an automaton are reached from which. That of a pair is
//! composed from those of its children and reads no text, so after an edit only the new nodes are processed, one step
//! each. Compositions are kept in a cache, so most nodes cost one lookup in it; a full cache is emptied. Nodes of the
//! same height don't depend on each other. If the cache is empty, or many of the nodes before have a table that no node
//! had, they are cut into at most `workers` pieces that run at once. Within a piece, equal compositions that aren't in
//! the cache are computed once. What all pieces computed is kept and cached before the next height. The result depends
//! neither on the cache nor on the workers.
//!
//! A composition takes at most as many steps as the square of the automaton's number of states, each over a word for every
//! 64 states. A cached one takes expected constant time. Besides the tables, memory is allocated for an entry for each new
//! node and for the cache.
//!
//! This is the preparation of M. L. Schmid and N. Schweikardt, *Spanner Evaluation over SLP-Compressed Documents*, PODS
//! 2021.
//!
//! Proved: After `grow` each node has the table of its text, for any cache size, workers and gate. So it has after any
//! order with children first (`fill`). One step per new node.
//!
//! Tested: Each new node passes the gate; two workers run at once; equal compositions are cached.
//!
//! Neither: Speed.
#![tactic(auto)]

pub mod filler;
mod filling;
pub mod found;
pub mod growth;
mod layers;
mod pieces;
mod place;
pub mod schedule;

pub use filler::Filler;
pub use growth::grow;
/// A cache of compositions: for two kept tables, by their numbers, the number of their composition.
pub use pair_memo::PairMemo as Memory;
pub use schedule::fill;
