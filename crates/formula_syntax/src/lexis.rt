//! The bytes of a formula text: which are special, and what an escape or a member of a set stands for.
ghost use Rattle.formula_syntax.specs.Lexis.{is_special, can_escape, hex_value, is_plain_member};
ghost use Rattle.std.specs.Prelude.{◌≡◌, ◌<◌, Some, None, MatchOption};

/// Whether a byte stands for itself only after a backslash.
pub fn is_special(b: u8) -> bool
    ensures { result ≡ is_special b }
{
    matches!(
        b,
        b'.' | b'[' | b']' | b'(' | b')' | b'{' | b'}' | b'|' | b'*' | b'+' | b'?' | b'$' | b'\\'
    )
}

/// Whether a byte after a backslash stands for itself.
pub fn can_escape(b: u8) -> bool
    ensures { result ≡ can_escape b }
{
    is_special(b) || b == b'-' || b == b'^'
}

/// Whether a byte of a set stands for itself.
pub fn is_plain_member(b: u8) -> bool
    ensures { result ≡ is_plain_member b }
{
    !matches!(b, b']' | b'\\' | b'-' | b'^')
}

/// The value of a hexadecimal digit.
#[derive(Clone, Copy)]
pub struct HexDigit {
    pub value: u8,
    ghost small: { value < 16 },
}

/// A hexadecimal digit of either case.
pub fn hex_digit(b: u8) -> Option<HexDigit>
    ensures { MatchOption result (hex_value b ≡ None) (λ digit. hex_value b ≡ Some digit.value) }
{
    match b {
        b'0'..=b'9' => Some(HexDigit { value: b - b'0' }),
        b'a'..=b'f' => Some(HexDigit {
            value: b - b'a' + 10,
        }),
        b'A'..=b'F' => Some(HexDigit {
            value: b - b'A' + 10,
        }),
        _ => None,
    }
}
