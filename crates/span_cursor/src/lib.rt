//! Tuples as text, read and printed without allocation.
//!
//! ```text
//! let tuple = read(b"x=[1,4),y=-", &vars)?;                // the variables x and y, of which y has no span
//! let len = print(&tuple, &vars, &mut into);               // the same bytes, at the front of `into`
//! ```
//!
//! The text of a tuple is a cursor: a tuple that `list` printed can be passed to it in the same run or a later one, and
//! it lists the answers after that tuple. Each tuple has one text for its variables, and each text is that of at most one
//! tuple. Reading takes at most two passes over the text, printing writes at most 791 bytes, and neither allocates. Spans are
//! those of R. Fagin et al., *Document Spanners*, JACM 2015, counted from 1 and open at their end.
//!
//! Proved: Tuple texts, read and printed (`read`, `print`).
//!
//! Tested: Error texts.
#![tactic(auto)]

mod entry;
pub mod law;
mod pieces;
mod printing;
mod reading;

pub use printing::print;
pub use reading::{TupleRefusal, read};
