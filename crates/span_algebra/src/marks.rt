//! Marks of some variables, as marks of others.

ghost use Rattle.span_algebra.specs.Making.{AreIndices, digit_at, mark_by};
ghost use Rattle.std.specs.Prelude.{◌≡◌, ℕ, ◌<◌, ◌≤◌, ◌^◌, length, Some};

/// The digit of a mark at an index.
fn digit(index: Option<u8>, mark: u16) -> u16
    requires { (v : ℕ) → index ≡ Some v → v < 8 }
    ensures value { result ≡ digit_at index mark }
    ensures small { result < 4 }
{
    match index {
        Some(v) => mark / 4u16.pow(u32::from(v)) % 4,
        None => 0,
    }
}

/// The mark with the digits of another from these indices.
pub fn mark_at(places: &[Option<u8>], mark: u16) -> u16
    requires few { length places.now ≤ 8 }
    requires within { AreIndices places.now }
    ensures value { result ≡ mark_by places.now mark }
    ensures small { result < 4 ^ length places.now }
{
    match places {
        [] => 0,
        [first, rest @ ..] => digit(*first, mark) + 4 * mark_at(rest, mark),
    }
}
