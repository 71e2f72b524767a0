// Bytes between quotes.
ghost use Rattle.script_syntax.specs.Quoted.{AreItems, IsQuoted, StartsWith, escaped, hex_value, is_plain};
ghost use Rattle.std.specs.Prelude.{◌≡◌, ◌<◌, ◌∷◌, ◌++◌, ◌*◌, ◌+◌, ℕ, [], List, Some, None, true, IfOk, IfErr, MatchOption};

use crate::LineRefusal;
use span_types::{ByteList, NoMemory};
use std::alloc::Global;

fn is_plain(b: u8) -> bool
    ensures { result ≡ is_plain b }
{
    matches!(b, b' '..=b'~') && b != b'"' && b != b'\\'
}

/// The byte that a sign after a backslash stands for.
fn escaped(sign: u8) -> Option<u8>
    ensures { MatchOption result (escaped sign ≡ None) (λ b. escaped sign ≡ Some b) }
{
    match sign {
        b'"' | b'\\' => Some(sign),
        b'n' => Some(b'\n'),
        b'r' => Some(b'\r'),
        b't' => Some(b'\t'),
        _ => None,
    }
}

/// The value of a hexadecimal digit.
#[derive(Clone, Copy)]
struct HexDigit {
    value: u8,
    ghost small: { value < 16 },
}

/// A lower-case hexadecimal digit.
fn hex_digit(b: u8) -> Option<HexDigit>
    ensures { MatchOption result (hex_value b ≡ None) (λ digit. hex_value b ≡ Some digit.value) }
{
    match b {
        b'0'..=b'9' => Some(HexDigit { value: b - b'0' }),
        b'a'..=b'f' => Some(HexDigit {
            value: b - b'a' + 10,
        }),
        _ => None,
    }
}

/// The byte that two hexadecimal digits denote, and the bytes after them.
fn hex_byte(text: &[u8]) -> Option<(u8, &[u8])>
    ensures { MatchOption result ((high low h l : ℕ) (rest : List ℕ) → hex_value high ≡ Some h → hex_value low ≡ Some l → text.now ≡ high ∷ low ∷ rest → ⊥)
        (λ p. (high low h l : ℕ) × (hex_value high ≡ Some h) × (hex_value low ≡ Some l) × (p.0 ≡ 16 * h + l) × (text.now ≡ high ∷ low ∷ p.1.now)) }
{
    let (high, text) = text.split_first()?;
    let (low, rest) = text.split_first()?;
    let high = hex_digit(*high)?;
    let low = hex_digit(*low)?;
    Some((16 * high.value + low.value, rest))
}

/// The byte that the item at the start of the text denotes, and the bytes after the item.
fn item(text: &[u8]) -> Option<(u8, &[u8])>
    ensures { MatchOption result ((b : ℕ) (rest : List ℕ) → StartsWith text.now b rest → ⊥) (λ p. StartsWith text.now p.0 p.1.now) }
{
    let (first, rest) = text.split_first()?;
    if *first != b'\\' {
        return if is_plain(*first) {
            Some((*first, rest))
        } else {
            None
        };
    }
    let (sign, more) = rest.split_first()?;
    if *sign == b'x' {
        let (byte, more) = hex_byte(more)?;
        return Some((byte, more));
    }
    let byte = escaped(*sign)?;
    Some((byte, more))
}

/// The bytes that the items of a text denote.
fn items_of(alloc: Global, text: &[u8]) -> Result<Option<Vec<u8>>, NoMemory>
    ensures { IfOk result (λ found. MatchOption found ((bytes : List ℕ) → AreItems text.now bytes → ⊥) (λ bytes. AreItems text.now bytes.items)) }
{
    let mut bytes = Vec::new(alloc);
    let mut rest = text;
    while !rest.is_empty() {
        let Some((byte, more)) = item(rest) else {
            return Ok(None);
        };
        bytes.push(byte)?;
        rest = more;
    }
    Ok(Some(bytes))
}

/// A QUOTED: the bytes that it denotes.
pub fn quoted_of(alloc: Global, text: &[u8]) -> Result<ByteList, LineRefusal>
    ensures ok { IfOk result (λ bytes. IsQuoted text.now bytes) }
    ensures syntax { IfErr result (λ why. why ≡ LineRefusal.Syntax → (bytes : List ℕ) → IsQuoted text.now bytes → ⊥) }
{
    let Some((b'"', text)) = text.split_first() else {
        return Err(LineRefusal::Syntax);
    };
    let Some((b'"', items)) = text.split_last() else {
        return Err(LineRefusal::Syntax);
    };
    let Some(bytes) = items_of(alloc, items)? else {
        return Err(LineRefusal::Syntax);
    };
    Ok(ByteList::new(alloc, &bytes)?)
}
