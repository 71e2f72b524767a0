// The copy that every read in memory ends with.
ghost use Rattle.std.specs.Prelude.{◌≡◌, min, length, take};

/// Copies the first bytes of `from` to the start of `into`, as many as both have, and returns their number.
pub fn copy_prefix(from: &[u8], into: &mut [u8]) -> usize
    ensures count { result ≡ min (length from.now) (length into.new) }
    ensures bytes { take result into.new ≡ take result from.now }
{
    let count = from.len().min(into.len());
    into[..count].copy_from_slice(&from[..count]);
    count
}
