//! The law, for spans and for tuples.
ghost use Rattle.formula_law.specs.Law.{AcceptsAnswers, AcceptsTuples, FitsAccepted, MarkedWord};

use span_types::law::{marks_determine, pieces};

/// A formula's position automaton accepts exactly the texts with the marks of spans that fit.
pub fn accepts_answers()
    ensures { AcceptsAnswers }
{}

/// It accepts exactly the marked texts of the tuples that lie in the text and fit.
pub fn accepts_tuples()
    ensures { AcceptsTuples }
{}

/// A tuple fits exactly if it lies in the text and its marked text is accepted.
pub fn fits_accepted()
    ensures { FitsAccepted }
{
    marks_determine();
}

/// The word of a tuple over a text and its end is its marked text.
pub fn marked_word()
    ensures { MarkedWord }
{
    pieces();
}
