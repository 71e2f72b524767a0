// A text as a tuple.
ghost use Rattle.span_cursor.specs.Entries.{IsMore};
ghost use Rattle.span_cursor.specs.Tuples.{HasOtherNames, IsTupleText, TupleText};
ghost use Rattle.span_types.specs.declared.tuple.Span.{Span};
ghost use Rattle.std.specs.Prelude.{◌≡◌, ◌↔◌, List, Option, IsTrue, IfOk, MatchOption, Ok, Err};

use crate::entry::{entry_at, entry_of, next_entry_of};
use line_parts::is_same;
use span_types::{Tuple, Vars};
use thiserror::Error;

/// Why a text is not read as a tuple.
#[derive(Clone, Copy, Debug, PartialEq, Eq, Drop, Error)]
pub enum TupleRefusal {
    /// The text is not that of a tuple.
    #[error("not a tuple")]
    BadTuple,
    /// The names of the tuple are not those of the variables in number order.
    #[error("a tuple of other variables")]
    OtherVariables,
}

/// The tuple of these variables with this text.
fn read_for(text: &[u8], vars: &Vars) -> Option<Tuple>
    ensures { MatchOption result
        ((values : List (Option Span)) → TupleText text.now vars.now values → ⊥)
        (λ tuple. TupleText text.now vars.now tuple) }
{
    let count = vars.count();
    if count == 0 {
        return if is_same(text, b"()") {
            Some(Tuple::none(0))
        } else {
            None
        };
    }
    let (value, mut left) = entry_of(text, vars.name(0).bytes())?;
    let mut tuple = Tuple::none(count).with_span(0, value);
    for v in 1..count {
        let (value, rest) = next_entry_of(left, vars.name(v).bytes())?;
        tuple = tuple.with_span(v, value);
        left = rest;
    }
    if left.is_empty() { Some(tuple) } else { None }
}

/// Whether a text is entries with a comma before each.
fn are_more(text: &[u8]) -> bool
    ensures { IsTrue result ↔ IsMore text.now }
{
    let mut left = text;
    while let Some((first, behind)) = left.split_first() {
        if *first != b',' {
            return false;
        }
        let Some((_, _, rest)) = entry_at(behind) else {
            return false;
        };
        left = rest;
    }
    true
}

/// Whether a text is that of a tuple of any names.
fn is_tuple_text(text: &[u8]) -> bool
    ensures { IsTrue result ↔ IsTupleText text.now }
{
    if is_same(text, b"()") {
        return true;
    }
    let Some((_, _, rest)) = entry_at(text) else {
        return false;
    };
    are_more(rest)
}

/// The tuple of these variables with this text. The text is `()`, or one or more entries with a comma between each two,
/// where an entry is `NAME=[NUM,NUM)`, or `NAME=-` for a variable without a span. The first number is at least 1 and at
/// most the second, which is at most 2^48 + 1.
///
/// Takes at most two passes over the text, and allocates nothing.
///
/// # Errors
///
/// - `BadTuple` exactly if the text is not of this form, whatever the names.
/// - `OtherVariables` exactly if it is, and its names are not those of the variables in number order.
pub fn read(text: &[u8], vars: &Vars) -> Result<Tuple, TupleRefusal>
    ensures ok { IfOk result (λ tuple. TupleText text.now vars.now tuple) }
    ensures read_back { (tuple : List (Option Span)) → TupleText text.now vars.now tuple → result ≡ Ok tuple }
    ensures bad_tuple { (result ≡ Err TupleRefusal.BadTuple) ↔ (IsTupleText text.now → ⊥) }
    ensures other_variables { (result ≡ Err TupleRefusal.OtherVariables) ↔ HasOtherNames text.now vars.now }
{
    if let Some(tuple) = read_for(text, vars) {
        return Ok(tuple);
    }
    if is_tuple_text(text) {
        Err(TupleRefusal::OtherVariables)
    } else {
        Err(TupleRefusal::BadTuple)
    }
}
