//! Cutting the incoming pieces into lines.
ghost use Rattle.std.specs.Prelude.{◌≡◌, ◌≢◌, ◌≤◌, ◌∷◌, ◌++◌, All, MatchOption, OnOk, length, take};

use span_types::NoMemory;

/// The maximum number of bytes that are stored of a line: one more than a line may have.
const MAX_STORED_BYTES: usize = 65_537;

/// The bytes before the first newline and the bytes after it, or `None` without a newline.
pub fn cut_line(text: &[u8]) -> Option<(&[u8], &[u8])>
    ensures { MatchOption result (All (λ b. b ≢ 10) text.now)
        (λ p. (text.now ≡ p.0.now ++ 10 ∷ p.1.now) × All (λ b. b ≢ 10) p.0.now) }
{
    let end = text.iter().position(|b| *b == b'\n')?;
    Some((&text[..end], &text[end + 1..]))
}

/// Appends bytes of a line to the stored ones, up to 65,537 in total. The rest is dropped.
pub fn keep(kept: &mut Vec<u8>, part: &[u8]) -> Result<(), NoMemory>
    requires { length kept.old.items ≤ 65537 }
    ensures kept { OnOk result (kept.new.items ≡ take 65537 (kept.old.items ++ part.now)) }
    ensures few { length kept.new.items ≤ 65537 }
{
    let room = (MAX_STORED_BYTES - kept.len()).min(part.len());
    kept.extend_from_slice(&part[..room])?;
    Ok(())
}
