//! Digests of tables.

ghost use Rattle.path_counts.specs.Digest.{code_of, mixed, with_counts};
ghost use Rattle.std.specs.Prelude.{◌≡◌, ◌+◌};

use crate::count::Count;

// An odd number without a pattern.
const FACTOR: u64 = 0x9E37_79B9_7F4A_7C15;

// Keeps the state of a count apart from the number of an unmarked state, which is smaller.
const COUNTED: u64 = 1 << 17;

/// The digest with a further number, by multiplicative hashing (D. E. Knuth, The Art of Computer Programming, volume 3, section
/// 6.4).
pub(crate) fn mixed(digest: u64, number: u64) -> u64
    ensures { result ≡ mixed digest number }
{
    let product = (digest ^ number).wrapping_mul(FACTOR);
    product ^ (product >> 32)
}

/// The digest with some counts.
pub(crate) fn with_counts(digest: u64, counts: &[Count]) -> u64
    ensures { result ≡ with_counts digest counts.now }
{
    let mut all = digest;
    for count in counts {
        all = mixed(mixed(all, u64::from(count.state) + COUNTED), count.number);
    }
    all
}

/// A state, if any, as a number.
pub(crate) fn coded(state: Option<u16>) -> u64
    ensures { result ≡ code_of state }
{
    match state {
        Some(q) => u64::from(q) + 1,
        None => 0,
    }
}
