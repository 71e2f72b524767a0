//! Which states of a deterministic automaton are reached over the text of each node, and a view through which these
//! tables are looked up.
//!
//! ```text
//! let a = of_byte(alloc, &dfa, b'a')?;
//! let twice = compose(alloc, &a, &a)?;                     // the table of `aa`, and no text is read for it
//! let next = twice.unmarked(0);                            // the state that `aa` leads to from state 0 without marks
//! let set = twice.marked(0);                               // the states that it leads to with some, as words of bits
//! let number = tables.keep(twice)?;                        // equal tables of many nodes are kept once
//! ```
//!
//! So an automaton runs over a text of 2^47 bytes by one table for each node. `table_grow` computes the tables of a
//! store's nodes. `view.look(id, &mut looks)` returns a node, its length and its table, in constant time. It is the
//! only way to a node, so a function that receives a view counts a step for each.
//!
//! Most states lead to the same few states after a few bytes. So the states of a table, at most 1,024, are in classes,
//! and each class has one row: the state reached without marks, and the index of a set, which has one word for each 64
//! states. Rows with equal sets have one set. Kept tables share their classes, and above 128 states their sets. So a
//! table takes some 250 bytes, 4 bytes more for each row, and 8 for each set, or 16 from 65 to 128 states. Each distinct
//! partition takes 2 bytes for each state, and 8 for each class if these are at most a quarter of the states. Each distinct
//! set that is shared takes 8 bytes for each word and some 130. A node takes 4 bytes for the number of its table.
//!
//! A composition computes what each set of the left table reaches in the right one: each row of the right table is added
//! to the result at most once, and no state is visited twice. The row of a class is then found by numbers: those of its
//! own set's image and of the set of the row that its unmarked state leads to. Unions of these two are computed once as
//! far as 64 slots have them. Equal rows are then one class again. It takes time linear in the classes, in the members of
//! the left sets, and in the words of the rows that are added: at most 1,024 sets times 1,024 rows of 16 words. Merged
//! classes take time linear in the states. A table has a digest of the rows of its states, so `keep` takes expected
//! constant time besides the comparison with an equal table. It never takes more than a search by the bits of a table,
//! however the tables are chosen.
//!
//! The tables are those of M. L. Schmid and N. Schweikardt, *Spanner evaluation over SLP-compressed documents*, PODS
//! 2021. Rows by classes of states are this project's own.
//!
//! Proved: The table of a byte, and of two texts joined (`of_byte`, `compose`). Each distinct table is kept once
//! (`Tables`). After a compaction kept nodes have their tables, and tables that no node has are dropped
//! (`Tables::renumber`). One lookup is one step (`View`).
//!
//! Neither: Memory per table.
#![tactic(auto)]

pub mod composition;
mod digest;
mod distinct_sets;
mod interner;
pub mod one_byte;
mod partition;
mod places;
mod reached;
pub mod renumbering;
mod row_set;
mod sets;
mod shared_set;
mod shared_sets;
mod slot;
pub mod state_set;
pub mod table;
mod table_rows;
mod table_sets;
pub mod tables;
mod unions;
pub mod view;

pub use composition::compose;
pub use one_byte::of_byte;
pub use table::Table;
pub use tables::Tables;
pub use view::{Look, View};
