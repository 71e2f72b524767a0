//! Why spans are not replaced.
ghost use Rattle.std.specs.Prelude.{◌≡◌};

use span_types::NoMemory as WantOfMemory;
use std::alloc::AllocFailed;
use thiserror::Error;

/// Why spans are not chosen, or not replaced.
#[derive(Clone, Copy, Debug, PartialEq, Eq, Error)]
pub enum ReplaceRefusal {
    /// More than 32,768 spans would be replaced.
    #[error("more than 32768 matches")]
    TooManyMatches,
    /// The result would have `len` bytes, which is over 2^48.
    #[error("a text of {len} bytes is too long")]
    TooLong { len: u64 },
    /// Allocation failed.
    #[error("no memory")]
    NoMemory,
}

impl From<WantOfMemory> for ReplaceRefusal {
    ghost use Rattle.span_replace.specs.declared.refusal.ReplaceRefusal.TheVariants.{NoMemory};

    ghost from_gives = { λ _ y. y ≡ NoMemory };

    fn from(_: WantOfMemory) -> Self {
        ReplaceRefusal::NoMemory
    }
}

impl<T: Drop> From<AllocFailed<T>> for ReplaceRefusal {
    ghost use Rattle.span_replace.specs.declared.refusal.ReplaceRefusal.TheVariants.{NoMemory};

    ghost from_gives = { λ _ y. y ≡ NoMemory };

    fn from(_: AllocFailed<T>) -> Self {
        ReplaceRefusal::NoMemory
    }
}
