//! The spanner algebra over deterministic automata (Fagin et al., *Document Spanners*, JACM 2015): a union, a natural
//! join or a projection of queries becomes one automaton, which then serves every text by itself.
//!
//! The occurrences of an operation are the states of its operands' automata, and its states are the reached sets of
//! occurrences (the subset construction of Rabin and Scott 1959). The variables are those of the left, then those of
//! the right that the left lacks. The answers are exactly those of the operation; an answer assigns a span or none to
//! each name. In a join two answers agree if each common name has the same span in both, or none in both. For automata
//! and the names of their variables:
//!
//! ```text
//! let (either, names) = union(alloc, &left, &left_names, &right, &right_names)?;
//! let (both, names) = join(alloc, &left, &left_names, &right, &right_names)?;
//! let kept = project(alloc, &both, &names, &keep)?;
//! ```
//!
//! Bytes that share a class in each operand share one, so bytes aren't processed one by one. A union or a projection
//! takes one step for each state, class and mark of its operands. A join takes one for each class and each pair of a
//! left and a right mark, for the pairs of states that it reaches and no other. Both sides are deterministic, so a mark
//! and a byte lead from a pair to at most one pair. A new pair is compared with all pairs found before it, and a known
//! one is found by its hint. A join ends when it reaches more pairs than the limit of states, and the subset
//! construction when it reaches more sets. The limit is 128. `union_within`, `join_within` and `project_within` take
//! another, up to 1,024. Steps that differ only in their sources are kept as one bundle of 64 bytes until the result is made,
//! with 10 bytes for each step.
//!
//! Proved: The automata of a union, join and projection: exactly the operation's answers, and exact rejections
//! (`union_within`, `join_within`, `project_within`). A query's automaton is unique up to the numbers of its states
//! (`law`).
//!
//! Tested: Error texts.
//!
//! Neither: Memory and time.
#![tactic(auto)]

mod classes;
mod copies;
mod determined;
mod exploring;
mod hints;
mod joins;
mod joints;
pub mod law;
mod marks;
mod names;
mod pairs;
mod product;
mod projections;
mod refusal;
mod unions;

pub use joins::{join, join_within};
pub use projections::{project, project_within};
pub use refusal::AlgebraRefusal;
pub use unions::{union, union_within};
