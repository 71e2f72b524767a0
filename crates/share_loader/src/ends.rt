//! Where words end.
ghost use Rattle.std.specs.Prelude.{◌≡◌, ◌+◌, ◌<◌, ◌≤◌, ◌⊎◌, length};

/// The minimum length of a word in bytes, unless the text is shorter.
pub(crate) const MIN_WORD_BYTES: usize = 3;

/// The maximum length of a word in bytes.
pub(crate) const MAX_WORD_BYTES: usize = 8;

/// From this number of bytes on the end of the first word is the same whatever follows, and the next word has at least three
/// bytes.
pub(crate) const ENOUGH: usize = MIN_WORD_BYTES + MAX_WORD_BYTES;

// The kind of each byte: 0 is a space, 1 a sign, and 2 a letter, a digit, `_` or a byte from 128 on.
#[rattlefmt::skip]
const KINDS: [u8; 256] = [
    1, 1, 1, 1, 1, 1, 1, 1, 1, 0, 0, 1, 0, 0, 1, 1, 1, 1, 1, 1, 1, 1, 1, 1, 1, 1, 1, 1, 1, 1, 1, 1,
    0, 1, 1, 1, 1, 1, 1, 1, 1, 1, 1, 1, 1, 1, 1, 1, 2, 2, 2, 2, 2, 2, 2, 2, 2, 2, 1, 1, 1, 1, 1, 1,
    1, 2, 2, 2, 2, 2, 2, 2, 2, 2, 2, 2, 2, 2, 2, 2, 2, 2, 2, 2, 2, 2, 2, 2, 2, 2, 2, 1, 1, 1, 1, 2,
    1, 2, 2, 2, 2, 2, 2, 2, 2, 2, 2, 2, 2, 2, 2, 2, 2, 2, 2, 2, 2, 2, 2, 2, 2, 2, 2, 1, 1, 1, 1, 1,
    2, 2, 2, 2, 2, 2, 2, 2, 2, 2, 2, 2, 2, 2, 2, 2, 2, 2, 2, 2, 2, 2, 2, 2, 2, 2, 2, 2, 2, 2, 2, 2,
    2, 2, 2, 2, 2, 2, 2, 2, 2, 2, 2, 2, 2, 2, 2, 2, 2, 2, 2, 2, 2, 2, 2, 2, 2, 2, 2, 2, 2, 2, 2, 2,
    2, 2, 2, 2, 2, 2, 2, 2, 2, 2, 2, 2, 2, 2, 2, 2, 2, 2, 2, 2, 2, 2, 2, 2, 2, 2, 2, 2, 2, 2, 2, 2,
    2, 2, 2, 2, 2, 2, 2, 2, 2, 2, 2, 2, 2, 2, 2, 2, 2, 2, 2, 2, 2, 2, 2, 2, 2, 2, 2, 2, 2, 2, 2, 2,
];

// How badly a word ends between bytes of two kinds: four numbers for each kind of the byte before, one for each kind of the byte
// after. The fourth isn't used. A word ends best behind a space.
const KIND_RANKS: [u32; 16] = [3, 0, 0, 0, 3, 2, 1, 0, 2, 2, 3, 0, 0, 0, 0, 0];

// How badly a word ends between two equal bytes, so that a run isn't cut by chance.
const EQUAL_RANK: u32 = 4;

// How badly a word ends between two bytes, by their kinds. The lower bits are a hash of both bytes.
#[inline(always)]
fn rank(before: u8, after: u8) -> u32 {
    let row = KINDS[before as usize] % 4 * 4;
    let by_kind = KIND_RANKS[(row + KINDS[after as usize] % 4) as usize];
    let by_kind = if before == after { EQUAL_RANK } else { by_kind };
    let both = u32::from(after) << 8 | u32::from(before);
    by_kind << 29 | both.wrapping_mul(0x9E37_79B1) >> 6
}

// The end of the first word, which is at most `last`: where the rank of the two bytes beside it is least, and the last of several
// such positions.
#[inline(always)]
fn best_end(text: &[u8], last: usize) -> usize
    requires least { 3 ≤ last }
    requires within { last < length text.now }
    ensures least { 3 ≤ result }
    ensures most { result ≤ last }
{
    let mut len = MIN_WORD_BYTES;
    let mut least = rank(text[MIN_WORD_BYTES - 1], text[MIN_WORD_BYTES]);
    for end in MIN_WORD_BYTES + 1..last + 1 {
        let rank = rank(text[end - 1], text[end]);
        if rank <= least {
            (len, least) = (end, rank);
        }
    }
    len
}

/// How many bytes the first word of a text has: a word ends where the rank of the two bytes beside its end is least, and at
/// the last of several such positions. At most eight bytes are one word, and nine or more leave at least three to the next
/// one.
#[inline(always)]
pub(crate) fn word_len(text: &[u8]) -> usize
    requires { 3 ≤ length text.now }
    ensures least { 3 ≤ result }
    ensures most { result ≤ 8 }
    ensures within { result ≤ length text.now }
    ensures left { (result ≡ length text.now) ⊎ (result + 3 ≤ length text.now) }
{
    if text.len() >= ENOUGH {
        return best_end(text, MAX_WORD_BYTES);
    }
    if text.len() <= MAX_WORD_BYTES {
        return text.len();
    }
    best_end(text, text.len() - MIN_WORD_BYTES)
}
