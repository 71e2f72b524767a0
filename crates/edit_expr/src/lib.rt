//! Editing expressions over documents: their syntax, and their evaluation to roots in a node store.
//!
//! ```text
//! let expr = read(alloc, b"insert(delete(a,2,5),b,1)")?;   // or Err(ExprRefusal::Syntax)
//! let root = eval(alloc, &expr, &docs, &mut store, &mut pairs)?;
//! ```
//!
//! If `a` is `abracadabra` and `b` is `X`, the value is `Xacadabra`: bytes 2 to 4 are deleted, and then `X` is inserted
//! at position 1.
//!
//! No text is decompressed. An operation splits and joins a few trees, so an edit of a text of n bytes takes O(log n)
//! node constructions, and the unchanged parts stay shared. An expression of m operations on texts of at most N bytes
//! takes at most 48·m·(H(N)+1) node constructions, where H(N) is the greatest height of a balanced tree of N bytes.
//! `read` takes time linear in the text.
//!
//! The operations are those of complex document editing: M. L. Schmid and N. Schweikardt, *Query Evaluation over
//! SLP-Represented Document Databases with Complex Document Editing*, PODS 2022.
//!
//! Proved: It reads exactly the expressions (`read`). Value, first rejection and cost (`eval`).
//!
//! Tested: Error texts.
#![tactic(auto)]

mod edits;
mod evaluation;
mod expr;
pub mod law;
mod operation;
mod reading;
mod refusal;
mod tokens;

pub use evaluation::eval;
pub use expr::Expr;
pub use reading::{ExprRefusal, read};
pub use refusal::EditRefusal;
