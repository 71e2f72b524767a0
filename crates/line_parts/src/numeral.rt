// Numbers as lines write them.
ghost use Rattle.line_parts.specs.Numbers.{IsNum};
ghost use Rattle.std.specs.Prelude.{◌≡◌, MatchOption};

use crate::is_same;
use itoa::Buffer;
use std::str;

/// The number that a text writes: decimal digits without a sign or a leading zero, with a value below 2^64. Any other
/// text is `None`. Allocates nothing.
pub fn number(text: &[u8]) -> Option<u64>
    ensures { MatchOption result ((n : _) → IsNum text.now n → ⊥) (λ n. IsNum text.now n) }
{
    let Ok(digits) = str::from_utf8(text) else {
        return None;
    };
    let Ok(value) = digits.parse::<u64>() else {
        return None;
    };
    // Each number has one text: the one that printing returns.
    if is_same(Buffer::new().format(value).as_bytes(), text) {
        Some(value)
    } else {
        None
    }
}
