// Pieces of a tuple's text, written into a buffer.
ghost use Rattle.line_parts.specs.NameList.{IsName};
ghost use Rattle.span_cursor.specs.Tuples.{entry_text};
ghost use Rattle.span_types.specs.Places.{IsSpanOr};
ghost use Rattle.std.specs.Fmt.{decimal};
ghost use Rattle.std.specs.Prelude.{◌≡◌, ◌++◌, ◌+◌, ◌≤◌, ◌<◌, ◌^◌, length, take};

use itoa::Buffer;
use span_types::Span;

/// Writes a piece at an index, and returns the index after it.
pub fn put(into: &mut [u8], at: usize, piece: &[u8]) -> usize
    requires { at + length piece.now ≤ length into.old }
    ensures end { result ≡ at + length piece.now }
    ensures written { take result into.new ≡ take at into.old ++ piece.now }
{
    let end = at + piece.len();
    into[at..end].copy_from_slice(piece);
    end
}

/// Writes a number, which has at most 15 digits.
fn put_number(into: &mut [u8], at: usize, number: u64) -> usize
    requires small { number < 10 ^ 15 }
    requires room { at + 15 ≤ length into.old }
    ensures end { result ≤ at + 15 }
    ensures written { take result into.new ≡ take at into.old ++ decimal number }
{
    put(into, at, Buffer::new().format(number).as_bytes())
}

/// Writes `NAME=-` or `NAME=[NUM,NUM)`, which has at most 64 + 2 + 15 + 1 + 15 + 1 bytes.
pub fn put_entry(into: &mut [u8], at: usize, name: &[u8], value: Option<Span>) -> usize
    requires name { IsName name.now }
    requires value { IsSpanOr value }
    requires room { at + 98 ≤ length into.old }
    ensures end { result ≤ at + 98 }
    ensures written { take result into.new ≡ take at into.old ++ entry_text name.now value }
{
    let at = put(into, at, name);
    let Some(span) = value else {
        return put(into, at, b"=-");
    };
    let at = put(into, at, b"=[");
    let at = put_number(into, at, span.start);
    let at = put(into, at, b",");
    let at = put_number(into, at, span.end);
    put(into, at, b")")
}
