//! The law of position automata: the automaton over the occurrences of byte sets in a formula accepts exactly the texts
//! with the marks of the spans that the formula assigns.
//!
//! ```text
//! formula   .*$x{a}          occurrences   1: any byte, 2: the byte a
//! text      b a              marks         none before b, x starts before a, x ends at the end of the text
//! accepted  (none, b) (1, a) 2             a tuple x=[2,3) fits exactly if its marked text is accepted
//! ```
//!
//! The crate has definitions and proved laws and no code that runs, so it costs nothing at run time: `marker_nfa` makes
//! the automaton, and this crate says why its answers are those of the formula.
//!
//! A text with a set of markers before each letter is read as by the extended automata of F. Florenzano, C. Riveros, M.
//! Ugarte, S. Vansummeren and D. Vrgoč, *Constant Delay Algorithms for Regular Document Spanners*, PODS 2018. The
//! positions of a formula go back to V. Glushkov, *The abstract theory of automata*, 1961.
//!
//! Proved: The position automaton of a formula accepts exactly the marked texts of the tuples that fit
//! (`law::accepts_tuples`).
#![tactic(auto)]

pub mod law;
