//! Why an operation has no automaton.

ghost use Rattle.span_algebra.specs.declared.refusal.AlgebraRefusal.TheVariants.{NoMemory};
ghost use Rattle.std.specs.Prelude.{◌≡◌};

use span_types::NoMemory;
use thiserror::Error;

/// Why an operation has no automaton.
#[derive(Clone, Copy, Debug, PartialEq, Eq, Error)]
pub enum AlgebraRefusal {
    /// The operands have more than eight variables together.
    #[error("too many variables")]
    TooManyVariables,

    /// More states would be needed than the limit allows.
    #[error("too many states")]
    TooManyStates,

    /// Allocation failed.
    #[error("no memory")]
    NoMemory,
}

impl From<NoMemory> for AlgebraRefusal {
    ghost from_gives = { λ _ e. e ≡ NoMemory };

    fn from(_: NoMemory) -> Self {
        AlgebraRefusal::NoMemory
    }
}
