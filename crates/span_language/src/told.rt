//! The outcome of a line, and why a run stops in a line.
ghost use Rattle.std.specs.Prelude.{◌≡◌};

use span_types::NoMemory;

/// The outcome of a line.
#[derive(Clone, Copy, Debug, PartialEq, Eq)]
pub enum Told {
    /// The line has no command and no reply.
    Quiet,
    /// The command was executed.
    Accepted,
    /// The line was rejected: its reply is an error, and nothing changed.
    Refused,
}

/// Why a line, and the run with it, was stopped.
#[derive(Clone, Copy, Debug, PartialEq, Eq)]
pub enum Stop {
    /// Writing to the sink failed.
    OutFault,
    /// A call to the file store failed.
    ShelfFault,
    /// Allocation failed.
    NoMemory,
}

impl From<NoMemory> for Stop {
    ghost use Rattle.span_language.specs.declared.told.Stop.TheVariants as stop;

    ghost from_gives = { λ _ e. e ≡ stop.NoMemory };

    fn from(_: NoMemory) -> Self {
        Stop::NoMemory
    }
}
