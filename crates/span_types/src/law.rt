//! Laws of the definitions.
ghost use Rattle.span_types.specs.Fibonacci.{height_limit, IsHeightLimit};
ghost use Rattle.span_types.specs.Laws.{MarksDetermine, IsOrder, WordsOrder, WritesBack, Pieces, OneList, OnePage, LeafAnswers, OneQueryList, StrictSame};
ghost use Rattle.span_types.specs.Rows.{MarkRows, LimitRows};
ghost use Rattle.std.specs.Prelude.{ℕ};

/// Marks determine the spans that they come from.
pub fn marks_determine()
    ensures { MarksDetermine }
{}

/// Mark order is a strict order of all tuples of the same variables.
pub fn is_order()
    ensures { IsOrder }
{}

/// The words of tuples are in the order of the tuples.
pub fn words_order()
    ensures { WordsOrder }
{}

/// A tuple is read back from its marks.
pub fn writes_back()
    ensures { WritesBack }
{}

/// A formula has one list of answers on a text.
pub fn one_list()
    ensures { OneList }
{}

/// Words and tuples are composed of those of the parts of a text.
pub fn pieces()
    ensures { Pieces }
{}

/// The answers of a `Leaf` are those of its formula.
pub fn leaf_answers()
    ensures { LeafAnswers }
{}

/// A query has one list of answers on a text.
pub fn one_query_list()
    ensures { OneQueryList }
{}

/// For a formula that meets the stricter rule, the answers are those of the stricter reading.
pub fn strict_same()
    ensures { StrictSame }
{}

/// A list of answers has one page.
pub fn one_page()
    ensures { OnePage }
{}

/// H is the greatest height that a number of bytes allows.
pub fn greatest_height()
    ensures { (n : ℕ) → IsHeightLimit n (height_limit n) }
{}

/// Marks, heights and bounds on table lookups for some values.
pub fn rows()
    ensures marks { MarkRows }
    ensures limits { LimitRows }
{}
