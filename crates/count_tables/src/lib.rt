//! The counting tables of a query: for each node of a store, how many marked texts lead over its text from state to state.
//!
//! ```text
//! let mut counts = CountTables::new(alloc, &dfa)?;
//! counts.grow(&rt, alloc, &store, &dfa, workers, &gate, &mut places)?;        // the new nodes get their tables
//! counts.renumber(&moves);                                                    // after a compaction: the kept nodes keep their tables
//! let number = counts.number(&store, &dfa, root);                             // how many answers there are
//! let third = counts.nth(alloc, &store, &dfa, root, 3, &mut looks)?;
//! let earlier = counts.rank(alloc, &store, &dfa, root, &tuple, &mut looks)?;  // how many answers come before the tuple
//! ```
//!
//! Each distinct table is kept once under a number, and a node has the number of its table. The number of the composition of two
//! tables is remembered, so most new nodes take a lookup. A node takes 4 bytes beside its table. Where many compositions are missing,
//! those that don't depend on each other are computed in pieces that run at once.
//!
//! The tables are those of M. L. Schmid and N. Schweikardt, *Spanner evaluation over SLP-compressed documents*, PODS 2021, with
//! numbers in place of truth values.
//!
//! Proved: After `grow` each node has the counting table of its text, for any workers and gate, with one step per new node. Each
//! distinct table is kept once. After a compaction kept nodes have their tables, and tables that no node has are dropped (`renumber`). The
//! number of answers on a root's text, exactly below 2^64 - 1 (`number`). The answer at a position of the list of answers in mark
//! order, or that there are fewer, with at most B(k, n) table lookups (`nth`). How many answers come before a tuple, exactly below
//! 2^64 - 1, with as many lookups (`rank`).
//!
//! Tested: Each new node passes the gate; two workers run at once.
//!
//! Neither: Memory and time.
#![tactic(auto)]

mod ahead;
mod growth;
pub mod nth;
pub mod number;
mod part;
mod pieces;
pub mod rank;
pub mod tables;

pub use tables::CountTables;
