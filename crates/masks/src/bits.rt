// The bits of a mask.
ghost use Rattle.std.specs.Prelude.{◌≡◌, not, ◌<◌, ◌^◌};
ghost use Rattle.token.specs.Find.{find};
ghost use Rattle.masks.specs.Bits.{has, single};
ghost use Rattle.masks.specs.Marks.{has_power};

// The bits of a mask.
pub const BITS: usize = 64;

// Whether a mask is a single bit.
pub fn is_single(m: u64) -> bool
    ensures { result ≡ single m }
{
    m.is_power_of_two()
}

// The lowest bit that is not set, or 64.
pub fn lowest_zero(m: u64) -> usize
    ensures { result ≡ find (λ k. not (has m k)) 64 0 }
{
    m.trailing_ones() as usize
}

// The mask of a single bit.
pub fn power(k: usize) -> u64
    requires { k < 64 }
    ensures { result ≡ 2 ^ k }
{
    1u64 << k
}

// Whether a mask has the bit of p, a power of two.
pub fn has_power(p: u64, m: u64) -> bool
    requires { 0 < p }
    ensures { result ≡ has_power p m }
{
    m / p % 2 == 1
}
