//! Tokens at the start of a text, after spaces.
ghost use Rattle.edit_expr.specs.Expressions.{AreTokens, trimmed};
ghost use Rattle.edit_expr.specs.Operations.{Begins, IsClosing, IsWordEnd};
ghost use Rattle.span_types.specs.Names.{is_later_byte};
ghost use Rattle.std.specs.Fmt.{decimal};
ghost use Rattle.std.specs.Prelude.{◌≡◌, ◌<◌, ◌^◌, ◌∷◌, ◌++◌, All, List, ℕ, IfSome, MatchOption, codes, length, true};

use line_parts::number;

/// The text without its leading spaces.
pub(crate) fn trim(text: &[u8]) -> &[u8]
    ensures { result.now ≡ trimmed text.now }
{
    let mut left = text;
    while let Some((b' ', more)) = left.split_first() {
        left = more;
    }
    left
}

/// The text after the sign, if the sign is the next token.
pub(crate) fn sign_at(text: &[u8], sign: u8) -> Option<&[u8]>
    ensures { MatchOption result ((rest : List ℕ) → trimmed text.now ≡ sign ∷ rest → ⊥) (λ rest. trimmed text.now ≡ sign ∷ rest.now) }
{
    let (first, rest) = trim(text).split_first()?;
    if *first != sign {
        return None;
    }
    Some(rest)
}

// Whether the byte may be in a word, after its first byte.
fn is_in_word(b: u8) -> bool
    ensures { result ≡ is_later_byte b }
{
    matches!(b, b'A'..=b'Z' | b'a'..=b'z' | b'_' | b'0'..=b'9' | b'.' | b'-')
}

/// The longest word that comes next, which may be empty, and the text after it.
pub(crate) fn word_at(text: &[u8]) -> (&[u8], &[u8])
    ensures cut { trimmed text.now ≡ result.0.now ++ result.1.now }
    ensures letters { All (λ b. is_later_byte b ≡ true) result.0.now }
    ensures whole { IsWordEnd result.1.now }
{
    let text = trim(text);
    match text.iter().position(|b| !is_in_word(*b)) {
        Some(end) => text.split_at(end),
        None => text.split_at(text.len()),
    }
}

/// The number after a comma, if these tokens come next, and the text after it.
pub(crate) fn number_at(text: &[u8]) -> Option<(u64, &[u8])>
    ensures number { IfSome result (λ p. (p.0 < 2 ^ 64) × Begins (λ others. codes "," ∷ decimal p.0 ∷ others) text.now p.1.now) }
    ensures exact { (n : ℕ) (others : List (List ℕ)) → n < 2 ^ 64 → IsClosing others
        → AreTokens (codes "," ∷ decimal n ∷ others) text.now → MatchOption result ⊥ (λ p. AreTokens others p.1.now) }
{
    let (word, rest) = word_at(sign_at(text, b',')?);
    Some((number(word)?, rest))
}
