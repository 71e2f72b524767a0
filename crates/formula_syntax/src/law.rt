//! Laws of the grammar.
ghost use Rattle.formula_syntax.specs.Laws.{OneReading, OneOutcome, Rows};

/// A text has at most one reading.
pub fn one_reading()
    ensures { OneReading }
{}

/// A text has exactly one outcome.
pub fn one_outcome()
    ensures { OneOutcome }
{}

/// Readings of some texts, and texts that have none.
pub fn rows()
    ensures { Rows }
{}
