//! Replacement of chosen spans: the parts of a text that a query of one variable matches are replaced by another text.
//!
//! `chosen` visits the answers of an automaton of one variable on a compressed text from the left, and takes each span
//! that starts at or past the end of the last one taken. `longest` takes the longest of those with the same start, and no
//! empty span at the end of the last one taken, as `sed` does. `replaced` replaces each of these spans by a text, by splits
//! and joins of the compressed text, so the parts between the spans stay shared. For `abracadabra`, the query
//! `.*$x{a}.*` and the text `X`:
//!
//! ```text
//! let spans = chosen(alloc, view, &dfa, root, &mut looks)?;            // [1,2) [4,5) [6,7) [8,9) [11,12)
//! let root = replaced(&mut store, root, &spans, by, &mut pairs)?;      // XbrXcXdXbrX
//! ```
//!
//! With c spans and a text of n bytes, choosing makes at most 3·(c+1)·B(1, n) table lookups, and `longest` at most 8·(c+1)·B(1, n), which is O(c·log n).
//! Replacing makes at most 1,770·(c+1) calls to `pair`.
//!
//! The answers are found as in M. L. Schmid and N. Schweikardt, Spanner evaluation over SLP-compressed documents (PODS 2021),
//! and the text is edited as in their Query evaluation over SLP-represented document databases with complex document editing
//! (PODS 2022).
//!
//! Proved: The chosen spans, or that they are too many (`chosen`, `longest`). The text in which they are replaced, or its length
//! if that is too long (`replaced`). The cost of both.
#![tactic(auto)]

mod choice;
mod choosing;
pub mod law;
mod refusal;
mod replacement;
mod spans;

pub use choosing::{chosen, longest};
pub use refusal::ReplaceRefusal;
pub use replacement::replaced;
pub use spans::Chosen;
