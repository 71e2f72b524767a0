//! Hashes of words and of symbols. They decide where groups and blocks end, and nothing that is proved depends on them.

const LOW_HALF: u128 = (1 << 64) - 1;

// The bits of a `u32` but the lowest.
const HASH_BITS: u64 = 0xFFFF_FFFE;

// One multiplication: the low half of the product is mixed with its high half, so that each bit of the result depends on
// all bits of the number.
fn folded(bits: u64) -> u64 {
    let product = u128::from(bits) * 0xD6E8_FEB8_6659_FD93;
    (product >> 64) as u64 ^ (product & LOW_HALF) as u64
}

fn hash_of(first: u32, second: u32) -> u64 {
    folded((u64::from(first) << 32 | u64::from(second)) ^ 0x9E37_79B9_7F4A_7C15)
}

/// The hash of a word of `len` bytes, which are one number here.
pub(crate) fn word_hash(bytes: u64, len: u8) -> u64 {
    let first = (bytes >> 32) as u32 ^ u32::from(len) << 8;
    hash_of(first, (bytes & 0xFFFF_FFFF) as u32)
}

/// The bits of a word's hash that its symbol has.
pub(crate) fn symbol_hash(word_hash: u64) -> u32 {
    (word_hash & HASH_BITS) as u32
}

/// The hash of a pair of symbols with these hashes.
pub(crate) fn pair_hash(left: u32, right: u32) -> u32 {
    (hash_of(left, right) & HASH_BITS) as u32
}

/// The hash of a window of words after one more word: a word is shifted out after 64 others.
pub(crate) fn window_hash(window: u64, word_hash: u64) -> u64 {
    (window << 1).wrapping_add(word_hash)
}
