//! Laws of the definitions.
ghost use Rattle.span_words.specs.Words.{OneReading, AcceptedHaveReading, Words};
ghost use Rattle.std.specs.Prelude.{[]};

/// Accepted arguments have one reading.
pub fn one_reading()
    ensures { OneReading }
{}

/// The empty list of arguments is accepted: one worker, at most 128 states, and no demo.
pub fn no_words()
    ensures { Words [] 1 128 None }
{}

/// What `clap` accepts has a reading, so arguments are rejected exactly if `clap` rejects them.
pub fn accepted_have_reading()
    ensures { AcceptedHaveReading }
{}
