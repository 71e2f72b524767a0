//! Laws of the definitions, each as the contract of a function that does nothing.
ghost use Rattle.span_replace.specs.Rows.{ReplaceRows};

/// The chosen spans of some lists of answers, and some texts in which spans are replaced.
pub fn rows()
    ensures { ReplaceRows }
{}
