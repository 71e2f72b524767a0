//! How many marked texts lead from one state of a deterministic automaton to another over a text, and tables of these numbers
//! that are composed.
//!
//! ```text
//! let a = of_byte(alloc, &dfa, b'a')?;
//! let twice = compose(alloc, &a, &a)?;                     // the counting table of `aa`, and no text is read for it
//! let next = twice.unmarked(0);                            // the state that `aa` leads to from state 0 without marks
//! let counts = twice.counts(0);                            // the states that it leads to with some, each with its number
//! let ways = twice.marked(0, &after);                      // the marked texts from state 0, each as often as its end counts
//! ```
//!
//! An automaton over (mark, byte) is deterministic, so the answers on a text are the marked texts that it accepts, and their
//! number is found without listing them. The tables are those of M. L. Schmid and N. Schweikardt, *Spanner evaluation over
//! SLP-compressed documents*, PODS 2021, with numbers in place of truth values. Numbers stop at `u64::MAX`: it stands for
//! itself and for every greater number, so each smaller number is exact.
//!
//! A table takes 24 bytes a state and 16 bytes for each pair of states with a number, in two vectors: one for the rows of all
//! states, and one for their counts. A composition takes time linear in the states and in the pairs of a number of the left table
//! and one of the right table that meet.
//!
//! Proved: The counting table of a byte, and of two texts joined (`of_byte`, `compose`): how many marked texts with some
//! mark lead from state to state, exactly below 2^64 - 1.
//!
//! Neither: Memory and time.
#![tactic(auto)]

pub mod count;
mod digest;
mod row_list;
pub mod table;

pub use count::Count;
pub use table::{CountTable, compose, of_byte};
