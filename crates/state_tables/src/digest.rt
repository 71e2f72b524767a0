//! Numbers by which equal rows, sets and tables are found.

ghost use Rattle.state_tables.specs.Digest.{digest_with, high_of, low_of, set_digest, word_number};
ghost use Rattle.std.specs.Prelude.{◌≡◌, ℕ, ◌<◌, ◌*◌, ◌^◌};

// The digest of nothing.
const START: u128 = 0x1319_8A2E_0370_7344_243F_6A88_85A3_08D3;

// Odd numbers without a pattern.
const ACROSS: u64 = 0x9E37_79B9_7F4A_7C15;

const BACK: u64 = 0xD6E8_FEB8_6659_FD93;

/// The weight of index p in a sum is this to the power of p. It is 5 modulo 8, so its powers differ in their low bits as
/// well.
pub(crate) const WEIGHT: u64 = 0xD134_2543_DE82_EF95;

// The lower 64 bits.
fn low_half(number: u128) -> u64
    ensures { result ≡ low_of number }
{
    (number & 0xFFFF_FFFF_FFFF_FFFF) as u64
}

fn high_half(number: u128) -> u64
    ensures { result ≡ high_of number }
{
    (number >> 64) as u64
}

// All 128 bits of a product.
fn product(a: u64, b: u64) -> u128
    ensures { result ≡ a * b }
{
    a as u128 * b as u128
}

// The digest of some numbers and then one more. It takes two multiplications, one after the other. No factor depends on
// the numbers before alone, and each step is a bijection of the digest, so no number can erase what the digest says of
// those before it.
fn with_number(digest: u128, number: u128) -> u128
    ensures value { result ≡ digest_with digest number }
    ensures digests { (other : ℕ) → other < 2 ^ 128 → digest_with other number ≡ result → other ≡ digest }
    ensures numbers { (other : ℕ) → other < 2 ^ 128 → digest_with digest other ≡ result → other ≡ number }
{
    let across = product(low_half(digest) ^ low_half(number), ACROSS);
    let second = high_half(digest).wrapping_add(high_half(across)) ^ high_half(number);
    let back = product(second, BACK);
    let first = low_half(across).wrapping_add(high_half(back));
    low_half(back) as u128 * 0x1_0000_0000_0000_0000 + first as u128
}

// The number of a word, in which each bit of the word has a part in many bits.
fn word_number(word: u64) -> u64
    ensures { result ≡ word_number word }
{
    let across = product(word, ACROSS);
    low_half(across).wrapping_add(high_half(across))
}

/// The digest of a set, from its words.
pub(crate) fn set_digest(words: &[u64]) -> u128
    ensures { result ≡ set_digest words.now }
{
    let mut sum: u64 = 0;
    let mut weight: u64 = 1;
    for word in words {
        sum = sum.wrapping_add(weight.wrapping_mul(word_number(*word)));
        weight = weight.wrapping_mul(WEIGHT);
    }
    sum_digest(sum)
}

/// The number of a row, from the code of its unmarked state and the digest of its marked set.
pub(crate) fn row_number(code: u16, set: u128) -> u64
    ensures { result ≡ low_of (digest_with set code) }
{
    low_half(with_number(set, code as u128))
}

/// The digest of a sum modulo 2^64.
pub(crate) fn sum_digest(sum: u64) -> u128
    ensures { result ≡ digest_with 0x1319_8a2e_0370_7344_243f_6a88_85a3_08d3 sum }
{
    with_number(START, sum as u128)
}
