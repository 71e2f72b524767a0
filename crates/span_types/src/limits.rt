//! The greatest height of a balanced tree, and how many table lookups an answer may take.
ghost use Rattle.span_types.specs.Fibonacci.{height_limit as greatest_height, looks_limit as most_looks, IsHeightLimit};
ghost use Rattle.std.specs.Prelude.{◌≡◌, ◌+◌, ◌*◌, ◌≤◌, ◌^◌};

/// The greatest height of a balanced tree over `n` bytes: the greatest h with F(h+2) ≤ n, and 0 for no bytes. Here F(1)
/// = F(2) = 1 are the first Fibonacci numbers.
pub fn height_limit(n: u64) -> u8
    requires { n ≤ 2 ^ 48 }
    ensures value { result ≡ greatest_height n }
    ensures greatest { IsHeightLimit n result }
    ensures low { result ≤ 68 }
{
    let mut a = 2;
    let mut b = 3;
    for height in 0..68u8 {
        if n < a {
            return height;
        }
        let next = a + b;
        a = b;
        b = next;
    }
    68
}

/// The bound on table lookups for one answer of `k` variables on a text of `n` bytes: 4·(2k+1)·(H+3), where H is the
/// greatest height over n bytes.
pub fn looks_limit(k: u8, n: u64) -> u64
    requires k { k ≤ 8 }
    requires n { n ≤ 2 ^ 48 }
    ensures { result ≡ most_looks k n }
{
    4 * (2 * k as u64 + 1) * (height_limit(n) as u64 + 3)
}
