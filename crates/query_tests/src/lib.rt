//! Tests of queries: the automata of formulas, their algebra, their tables and answers on a text, replaced spans,
//! registries of queries, and pages of documents.
//!
//! ```text
//! row    $x{a*}                        2 states, of which the first one ends with the mark 3
//! row    the union of q and r, in a registry    the variables x, z and y
//! row    abracadabra, with 1, 4 and 64 workers    15 nodes, 15 tables, of which one is distinct
//! ```
//!
//! The crate has only tests, of `marker_nfa`, `marker_dfa`, `table_grow`, `pair_memo`, `path_counts`, `count_tables`,
//! `span_algebra`, `span_enum`, `span_replace`, `query_book` and `list_all`. They are a crate of their own, so that these crates are not proved again when a test
//! changes, and so that all tests share the formulas. They take little time and memory.
//!
//! Proved: Only safety and termination of its tests, which are about the crates that concern queries.
#![tactic(auto)]

#[cfg(test)]
mod algebra;
#[cfg(test)]
mod answers;
#[cfg(test)]
mod asking;
#[cfg(test)]
mod books;
#[cfg(test)]
mod combining;
#[cfg(test)]
mod counting;
#[cfg(test)]
mod counting_workers;
#[cfg(test)]
mod formulas;
#[cfg(test)]
mod listings;
#[cfg(test)]
mod meeting;
#[cfg(test)]
mod numbers;
#[cfg(test)]
mod one_letter;
#[cfg(test)]
mod positions;
#[cfg(test)]
mod replacing;
#[cfg(test)]
mod subsets;
#[cfg(test)]
mod tables;
#[cfg(test)]
mod workers;
