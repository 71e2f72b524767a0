//! Why a query was not registered, and why a call by name failed.
ghost use Rattle.std.specs.Prelude.{◌≡◌};

use formula_syntax::FormulaRefusal;
use span_algebra::AlgebraRefusal;
use span_types::{Name, NoMemory};
use thiserror::Error;

/// Why a text was not registered as a query.
#[derive(Debug, Drop, Error)]
pub enum QueryRefusal {
    /// The text is no formula, for one of the causes of `FormulaRefusal` other than allocation failure.
    #[error("{0}")]
    Formula(FormulaRefusal),

    /// The formula's automaton would have more states than allowed.
    #[error("too many states")]
    TooManyStates,

    /// Allocation failed.
    #[error("no memory")]
    NoMemory,
}

impl From<NoMemory> for QueryRefusal {
    ghost use Rattle.query_book.specs.declared.refusal.QueryRefusal.TheVariants.{NoMemory};

    ghost from_gives = { λ _ e. e ≡ NoMemory };

    fn from(_: NoMemory) -> Self {
        QueryRefusal::NoMemory
    }
}

/// Why a call by name failed.
#[derive(Clone, Copy, Debug, PartialEq, Eq, Drop, Error)]
pub enum BookRefusal {
    /// No query has the name.
    #[error("no query has this name")]
    NoSuchQuery,

    /// Allocation failed.
    #[error("no memory")]
    NoMemory,
}

impl From<NoMemory> for BookRefusal {
    ghost use Rattle.query_book.specs.declared.refusal.BookRefusal.TheVariants.{NoMemory};

    ghost from_gives = { λ _ e. e ≡ NoMemory };

    fn from(_: NoMemory) -> Self {
        BookRefusal::NoMemory
    }
}

/// Why an operation on queries failed.
#[derive(Debug, Drop, Error)]
pub enum CombineRefusal {
    /// No query has this name.
    #[error("no query is named {name}")]
    NoSuchQuery { name: Name },

    /// The tree would have `parts` leaves and operations, which is more than 128.
    #[error("a query of {parts} parts is too large")]
    QueryTooLarge { parts: u64 },

    /// A name to keep isn't a variable of the query, or it occurs twice.
    #[error("other variables")]
    OtherVariables,

    /// The operands together have more than eight variables.
    #[error("too many variables")]
    TooManyVariables,

    /// The query's automaton would have more states than the registry allows.
    #[error("too many states")]
    TooManyStates,

    /// Allocation failed.
    #[error("no memory")]
    NoMemory,
}

impl From<NoMemory> for CombineRefusal {
    ghost use Rattle.query_book.specs.declared.refusal.CombineRefusal.TheVariants.{NoMemory};

    ghost from_gives = { λ _ e. e ≡ NoMemory };

    fn from(_: NoMemory) -> Self {
        CombineRefusal::NoMemory
    }
}

impl From<AlgebraRefusal> for CombineRefusal {
    ghost use Rattle.query_book.specs.Combining.{refusal_of};

    ghost from_gives = { λ why e. e ≡ refusal_of why };

    fn from(why: AlgebraRefusal) -> Self {
        match why {
            AlgebraRefusal::TooManyVariables => CombineRefusal::TooManyVariables,
            AlgebraRefusal::TooManyStates => CombineRefusal::TooManyStates,
            AlgebraRefusal::NoMemory => CombineRefusal::NoMemory,
        }
    }
}
