//! Words as tuples of a query's variables.
ghost use Rattle.span_cursor.specs.Tuples.{TupleText};
ghost use Rattle.span_language.specs.Cursors.{IsTupleRefused};
ghost use Rattle.span_types.specs.Query.{Query};
ghost use Rattle.span_types.specs.Rel.{names_of};
ghost use Rattle.std.specs.Prelude.{◌≡◌, IfErr, IfOk};

use report_text::Refusal;
use span_cursor::{TupleRefusal, read};
use span_types::{ByteList, Tuple, Vars};

/// Parses a word as a tuple of a query's variables, or returns the rejection. Allocates nothing.
pub fn tuple_of(vars: &Vars, word: &ByteList) -> Result<Tuple, Refusal>
    ensures ok { IfOk result (λ tuple. TupleText word.now vars.now tuple) }
    ensures err { (q : Query) → names_of q ≡ vars.now → IfErr result (IsTupleRefused q word.now) }
{
    match read(word.bytes(), vars) {
        Ok(tuple) => Ok(tuple),
        Err(TupleRefusal::BadTuple) => Err(Refusal::BadTuple),
        Err(TupleRefusal::OtherVariables) => Err(Refusal::OtherVariables),
    }
}
