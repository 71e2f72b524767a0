// Words, and the byte that ends one.
ghost use Rattle.std.specs.Prelude.{◌≡◌, ◌≢◌, ◌∷◌, ◌++◌, ◌↔◌, IsTrue, All, MatchOption};

/// The bytes before the first `mark` and those after it, or `None` if there is no `mark`. Takes one pass over the bytes
/// up to the mark.
pub fn cut_at(text: &[u8], mark: u8) -> Option<(&[u8], &[u8])>
    ensures { MatchOption result (All (λ b. b ≢ mark) text.now)
        (λ p. (text.now ≡ p.0.now ++ mark ∷ p.1.now) × All (λ b. b ≢ mark) p.0.now) }
{
    let index = text.iter().position(|b| *b == mark)?;
    Some((&text[..index], &text[index + 1..]))
}

/// The bytes before the first space and those after it, or `None` if there is no space.
pub fn cut_word(text: &[u8]) -> Option<(&[u8], &[u8])>
    ensures { MatchOption result (All (λ b. b ≢ 32) text.now)
        (λ p. (text.now ≡ p.0.now ++ 32 ∷ p.1.now) × All (λ b. b ≢ 32) p.0.now) }
{
    cut_at(text, b' ')
}

/// Whether two texts have the same bytes.
pub fn is_same(left: &[u8], right: &[u8]) -> bool
    ensures { IsTrue result ↔ (left.now ≡ right.now) }
{
    left == right
}
