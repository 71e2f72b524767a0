// A tuple as text, in a buffer.
ghost use Rattle.span_cursor.specs.Tuples.{TupleText};
ghost use Rattle.std.specs.Prelude.{◌≡◌, ◌≤◌, length, take};

use crate::pieces::{put, put_entry};
use span_types::{Tuple, Vars};

/// Writes the text of a tuple at the start of `into`, and returns its length in bytes. The text is `()`, or
/// `NAME=[NUM,NUM)` for each variable in number order, `NAME=-` if it has no span, with a comma between each two. It is
/// read as the same tuple. Allocates nothing.
pub fn print(tuple: &Tuple, vars: &Vars, into: &mut [u8]) -> usize
    requires room { 800 ≤ length into.old }
    requires counts { length vars.now ≡ length tuple.now }
    ensures bound { result ≤ 791 }
    ensures written { TupleText (take result into.new) vars.now tuple.now }
{
    let count = tuple.count();
    if count == 0 {
        return put(into, 0, b"()");
    }
    let mut at = put_entry(into, 0, vars.name(0).bytes(), tuple.span(0));
    for v in 1..count {
        at = put(into, at, b",");
        at = put_entry(into, at, vars.name(v).bytes(), tuple.span(v));
    }
    at
}
