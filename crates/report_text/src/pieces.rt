// Pieces of lines, appended to a line that has begun.
ghost use Rattle.report_text.specs.Reply.{hex_digit, quoted, shown_byte};
ghost use Rattle.std.specs.Fmt.{decimal};
ghost use Rattle.std.specs.Prelude.{◌≡◌, ◌++◌, ◌∷◌, ◌<◌, [], OnOk, OnErr};

use itoa::Buffer;
use span_types::NoMemory;
use std::alloc::AllocError;

/// A number in decimal digits without a leading zero.
pub fn push_number(number: u64, into: &mut Vec<u8>) -> Result<(), AllocError>
    ensures { OnOk result (into.new.items ≡ into.old.items ++ decimal number) }
{
    into.extend_from_slice(Buffer::new().format(number).as_bytes())
}

/// A word and a number.
pub fn push_counted(word: &[u8], number: u64, into: &mut Vec<u8>) -> Result<(), AllocError>
    ensures { OnOk result (into.new.items ≡ into.old.items ++ (word.now ++ decimal number)) }
{
    into.extend_from_slice(word)?;
    push_number(number, into)
}

/// A byte between quotes.
fn push_shown(b: u8, into: &mut Vec<u8>) -> Result<(), AllocError>
    ensures { OnOk result (into.new.items ≡ into.old.items ++ shown_byte b) }
{
    match b {
        b'"' => into.extend_from_slice(b"\\\""),
        b'\\' => into.extend_from_slice(b"\\\\"),
        b' '..=b'~' => Ok(into.push(b)?),
        _ => into.extend_from_slice(&[b'\\', b'x', hex_digit_of(b / 16), hex_digit_of(b % 16)]),
    }
}

/// A lower-case hexadecimal digit.
fn hex_digit_of(d: u8) -> u8
    requires { d < 16 }
    ensures { result ≡ hex_digit d }
{
    if d < 10 { b'0' + d } else { b'a' - 10 + d }
}

/// Bytes in quotes.
pub fn push_quoted(bytes: &[u8], into: &mut Vec<u8>) -> Result<(), AllocError>
    ensures { OnOk result (into.new.items ≡ into.old.items ++ quoted bytes.now) }
{
    into.push(b'"')?;
    for b in bytes {
        push_shown(*b, into)?;
    }
    into.push(b'"')?;
    Ok(())
}

/// Appends a whole line and its newline, or nothing of it.
pub fn push_line(line: Vec<u8>, into: &mut Vec<u8>) -> Result<(), NoMemory>
    ensures ok { OnOk result (into.new.items ≡ into.old.items ++ (line.items ++ 10 ∷ [])) }
    ensures unchanged { OnErr result (into.new.items ≡ into.old.items) }
{
    let mut line = line;
    line.push(b'\n')?;
    match into.extend_from_slice(&line) {
        Ok(()) => Ok(()),
        Err(_) => Err(NoMemory),
    }
}
