//! Laws of the definitions.
ghost use Rattle.span_cursor.specs.Tuples.{OneTuple};

/// A text is the text of at most one list of names, with one list of spans.
pub fn one_tuple()
    ensures { OneTuple }
{}
