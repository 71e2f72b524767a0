//! Formulas.
use crate::bytes::ByteSet;

/// A regex formula with capture variables (Fagin et al., *Document Spanners*, JACM 2015). Variables are numbers. A
/// formula matches a part of a text and assigns spans to variables. Chains of concatenations and of alternatives nest
/// to the right.
#[derive(Drop)]
pub enum Formula {
    /// One byte of the set.
    Set(ByteSet),

    /// The empty word.
    Empty,

    /// The first and then the second.
    Cat(Box<Formula>, Box<Formula>),

    /// The first or the second.
    Alt(Box<Formula>, Box<Formula>),

    /// Any number of parts in a row.
    Star(Box<Formula>),

    /// One or more parts in a row.
    Plus(Box<Formula>),

    /// A part, or the empty word, which assigns no span.
    Opt(Box<Formula>),

    /// A part, whose span is assigned to the variable.
    Capture(u8, Box<Formula>),
}

pub mod copies;
