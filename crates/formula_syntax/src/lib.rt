//! Formula texts: their grammar, and a reader that returns the formula of a text or the first error.
//!
//! ```text
//! let (formula, vars) = read(alloc, b".*$x{[0-9]+}.*")?;
//! assert_eq!(vars.count(), 1);                             // one variable, x, with number 0
//! read(alloc, b"a)");                                      // Err(FormulaRefusal::BadText)
//! read(alloc, b"[]$x{a}$x{b}");                            // Err(FormulaRefusal::NotFunctional { name: x })
//! ```
//!
//! The rule on variables is syntactic: the parts of a concatenation share no variable, nothing under `*` or `+` has
//! one, and a capture doesn't contain its own variable again. So the last text is rejected, although `[]` is the empty
//! set and no text could assign two spans to `x`.
//!
//! The text is read once from left to right, with a stack of its open groups: time linear in its length (at most 2,048
//! bytes), and memory linear in the formula's parts. Formulas are the regex formulas of R. Fagin, B. Kimelfeld, F.
//! Reiss and S. Vansummeren, *Document Spanners*, JACM 2015.
//!
//! Proved: A formula text is read exactly by the grammar, or rejected by the first of six causes (`read`).
//!
//! Tested: Error texts.
#![tactic(auto)]

mod build;
mod fault;
pub mod law;
mod lexis;
mod outcome;
mod reader;
mod refusal;
mod set;

pub use outcome::read;
pub use refusal::FormulaRefusal;
