//! Editing expressions.
use span_types::Name;

/// A document, or an operation whose operands are expressions.
///
/// Positions in a text of n bytes go from 1 to n + 1. Position i is before byte i, and position n + 1 is the end. The
/// range from i to j has the bytes i to j - 1.
#[derive(Debug, Drop)]
pub enum Expr {
    /// The text of the document with this name.
    Doc(Name),
    /// The first text followed by the second.
    Concat(Box<Expr>, Box<Expr>),
    /// The bytes of a range, from the first position to the second.
    Extract(Box<Expr>, u64, u64),
    /// The text without the bytes of a range, from the first position to the second.
    Delete(Box<Expr>, u64, u64),
    /// The first text with the second inserted at a position.
    Insert(Box<Expr>, Box<Expr>, u64),
    /// The text with a copy of the bytes of a range inserted at a position, which comes last.
    Copy(Box<Expr>, u64, u64, u64),
}
