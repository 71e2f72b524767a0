//! Why an expression has no value.
ghost use Rattle.std.specs.Prelude.{◌≡◌};

use span_types::{Name, NoMemory};
use thiserror::Error;

/// Why the evaluation of an expression failed. Lengths and positions are in bytes.
#[derive(Debug, PartialEq, Eq, Drop, Error)]
pub enum EditRefusal {
    /// No document has the name.
    #[error("no document is named {name}")]
    NoSuchDocument { name: Name },
    /// The range from `first` to `last` is not in a text of `len` bytes: it is not the case that 1 ≤ `first` ≤ `last` ≤
    /// `len` + 1.
    #[error("the range {first} to {last} is not within {len} bytes")]
    OutOfRange { first: u64, last: u64, len: u64 },
    /// The result would have `len` bytes, which is more than 2^48.
    #[error("a text of {len} bytes is too long")]
    TooLong { len: u64 },
    /// Allocation failed.
    #[error("no memory")]
    NoMemory,
}

impl From<NoMemory> for EditRefusal {
    ghost use Rattle.edit_expr.specs.declared.refusal.EditRefusal.TheVariants.{NoMemory};

    ghost from_gives = { λ _ y. y ≡ NoMemory };

    fn from(_: NoMemory) -> Self {
        EditRefusal::NoMemory
    }
}
