// Comparing amounts of the form m * 10 ^ k, exactly: by division, so that nothing overflows.
#![tactic(auto)]

ghost use Rattle.std.specs.Prelude.{◌≡◌, ◌*◌, ◌^◌, leb};

// Whether m * 10 ^ power is at most n.
pub fn scaled_at_most(m: u64, power: u8, n: u64) -> bool
    ensures { result ≡ leb (m * 10 ^ power) n }
{
    let mut bound = n;
    for _ in 0..power {
        bound /= 10;
    }
    m <= bound
}

// Whether m * 10 ^ k is at most n * 10 ^ l.
pub fn at_most(m: u64, k: u8, n: u64, l: u8) -> bool
    ensures { result ≡ leb (m * 10 ^ k) (n * 10 ^ l) }
{
    if l <= k {
        return scaled_at_most(m, k - l, n);
    }
    m == 0 || !scaled_at_most(n, l - k, m - 1)
}
