//! Why a text has no formula.
use span_types::Name;
use thiserror::Error;

/// Why a text has no formula. Of the first six, the first that applies is returned.
#[derive(Debug, Drop, Error)]
pub enum FormulaRefusal {
    /// The text has this many bytes, more than 2,048.
    #[error("a formula of {len} bytes")]
    TooLong { len: u64 },

    /// The text isn't in the grammar.
    #[error("not a formula")]
    BadText,

    /// More than 64 groups and captures are open at some byte.
    #[error("more than 64 groups open at once")]
    TooDeep,

    /// More than 512 byte sets, each occurrence counted.
    #[error("more than 512 byte sets")]
    TooManyPositions,

    /// More than 8 different variable names.
    #[error("more than 8 variables")]
    TooManyVariables,

    /// The variable at which the formula first breaks the rule on variables. The rule is syntactic: the two parts of a
    /// concatenation share no variable, nothing under `*` or `+` has one, and a capture doesn't contain its variable
    /// again. So it also rejects a formula that fits no text, as `[]$x{a}$x{b}`. The parts of a formula are tested
    /// before the whole, from the left. Of two shared variables, the one that appears first is returned.
    #[error("not functional in {name}")]
    NotFunctional { name: Name },

    /// Allocation failed.
    #[error("no memory")]
    NoMemory,
}
