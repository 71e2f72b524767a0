//! A registry of queries, in the order in which their names were added. Each query has its automaton, and its tables
//! for the nodes of a store. A query whose answers are counted also has counting tables.
//!
//! ```text
//! book.add(alloc, name, b".*$x{ab}.*")?;                   // `name` is called "q"
//! book.grow_one(&rt, alloc, b"q", &store, workers, &gate, &mut places)?;
//! let ready = book.ready(b"q", &store)?;                   // or Err(BookRefusal::NoSuchQuery)
//! let yes = ready.test(root, &mut looks);                  // whether q has an answer on the root's text
//! book.grow_counts(&rt, alloc, b"q", &store, workers, &gate, &mut places)?;
//! let number = book.count(b"q", &store, root)?;            // how many answers q has on the root's text
//! book.remove(b"q")?;                                      // or Err(BookRefusal::NoSuchQuery)
//! ```
//!
//! A query is compiled once, and its tables serve every text in the store. After nodes were added to the store,
//! `grow_one` computes the missing tables of one query, one for each new node, and `grow_all` those of all queries. `union`,
//! `join` and `project` copy their operands. `compile`, `union_of`, `join_of` and `projection_of` compile a query without
//! registering it.
//!
//! A registry limits the states of a query's automaton: `new` allows 128, and `with_states` from 128 to 1,024. Tables are
//! computed by a second automaton, which accepts the same with merged states. The more states it has, the more memory and
//! time each table takes.
//!
//! `ready` finds a query once for several evaluations on the texts of a store. It needs the tables of this query alone.
//! `start`, `seek`, `test`, `has` and `parts` find a query by its name each time, and need the tables of all queries.
//!
//! `count` returns the number of answers, `rank` the number of those before a tuple, and `start_at` the answers from a
//! position on. None of them lists answers. They need the counting tables of one query, which `grow_counts` computes,
//! one for each new node. Other queries have none.
//!
//! `test` and `has` of a query with k variables on a text of n bytes take at most B(k, n) table lookups. Here B(k, n) =
//! 4·(2k+1)·(H(n)+3), and H(n) is the greatest height of a balanced tree of n bytes. They allocate nothing. `rank` takes
//! at most B(k, n) lookups, `start_at` at most 3·B(k, n), and `count` none. A lookup by name takes time logarithmic in the
//! number of queries, and so does `remove`, amortised.
//!
//! The memory of a query is that of its two automata, its distinct tables, a number for each node, and a cache of up to
//! 65,536 compositions. Counting tables need a number for each node too, and have a cache of the same size.
//! `renumber` drops the tables that no node uses any more.
//!
//! Queries are the regex formulas and the algebra of R. Fagin, B. Kimelfeld, F. Reiss and S. Vansummeren, *Document
//! Spanners*, JACM 2015. They are evaluated as in M. L. Schmid and N. Schweikardt, *Spanner Evaluation over
//! SLP-Compressed Documents*, PODS 2021.
//!
//! Proved: An ordered list of names and queries, with the answers of each on the plain text and exact rejections.
//! Composed queries are registered over copies. Compaction keeps the tables and counting tables of kept nodes
//! (`QueryBook`). The number of answers and of those before a tuple, exactly below 2^64 - 1, and the answers from a
//! position on.
//!
//! Tested: Error texts.
#![tactic(auto)]

mod book;
mod combined;
mod combining;
mod compiled;
mod counting;
mod entry;
mod finding;
mod growing;
mod in_hand;
mod keeping;
pub mod law;
mod numbers;
mod parts;
mod questions;
mod refusal;
mod renumbering;

pub use book::QueryBook;
pub use compiled::{Compiled, compile};
pub use in_hand::Ready;
pub use refusal::{BookRefusal, CombineRefusal, QueryRefusal};
