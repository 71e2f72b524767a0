//! Why an automaton wasn't made.

ghost use Rattle.marker_dfa.specs.declared.refusal.DfaRefusal.TheVariants.{NoMemory};
ghost use Rattle.std.specs.Prelude.{◌≡◌};

use span_types::NoMemory;
use std::alloc::{AllocError, AllocFailed};
use thiserror::Error;

/// Why an automaton wasn't made.
#[derive(Clone, Copy, Debug, PartialEq, Eq, Error)]
pub enum DfaRefusal {
    /// More states than allowed would be needed.
    #[error("too many states")]
    TooManyStates,

    /// Allocation failed.
    #[error("no memory")]
    NoMemory,
}

impl From<NoMemory> for DfaRefusal {
    ghost from_gives = { λ _ e. e ≡ NoMemory };

    fn from(_: NoMemory) -> Self {
        DfaRefusal::NoMemory
    }
}

impl From<AllocError> for DfaRefusal {
    ghost from_gives = { λ _ e. e ≡ NoMemory };

    fn from(_: AllocError) -> Self {
        DfaRefusal::NoMemory
    }
}

impl<T: Drop> From<AllocFailed<T>> for DfaRefusal {
    ghost from_gives = { λ _ e. e ≡ NoMemory };

    fn from(_: AllocFailed<T>) -> Self {
        DfaRefusal::NoMemory
    }
}
