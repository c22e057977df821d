// Numbers as cells.
ghost use Rattle.std.specs.Prelude.{◌≡◌};
ghost use Rattle.token.specs.Find.{bit};
ghost use Rattle.scopes.specs.Items.{num, real};
ghost use Rattle.amounts.specs.Keys.{signed_code, num_has_key, key};
ghost use Rattle.amounts.specs.Known.{float_in};

use layout::word_codes;
use scopes::{Float, Num};

// 1 for a negative number.
#[tactic(auto, unfolding(token::specs::Find::bit))]
pub fn sign_of(n: Num) -> usize
    ensures { result ≡ bit n.negative }
{
    usize::from(n.negative)
}

// Whether the integer type with the code has a sign.
#[tactic(auto, unfolding(crate::specs::Keys::signed_code))]
pub fn is_signed(code: usize) -> bool
    ensures { result ≡ signed_code code }
{
    code == word_codes::INT32 || code == word_codes::INT64
}

// Whether a number has a cell of its own, in a type with a sign or without.
#[tactic(auto, unfolding(crate::specs::Keys::num_has_key))]
pub fn has_key(sign: bool, n: Num) -> bool
    ensures { result ≡ num_has_key sign (num n) }
{
    match (sign, n.negative) {
        (false, _) => !n.negative,
        (true, true) => 1 <= n.amount && n.amount <= 9223372036854775808,
        (true, false) => n.amount < 9223372036854775808,
    }
}

// A number as one cell.
#[tactic(auto, unfolding(crate::specs::Keys::key))]
pub fn key(n: Num) -> usize
    ensures { result ≡ key (num n) }
{
    if n.negative {
        return (u64::MAX - n.amount.saturating_sub(1)) as usize;
    }
    n.amount as usize
}

// The second cell of a float, whose first are its digits: twice its scale, and 1 more for a negative one.
#[tactic(auto, using(crate::proofs::Keyings::scale_negative, crate::proofs::Keyings::scale_other))]
pub fn scale_of(f: Float) -> usize
    ensures { float_in f.digits result ≡ real f }
{
    if f.negative {
        return f.scale as usize * 2 + 1;
    }
    f.scale as usize * 2
}

// The float in two cells.
#[tactic(auto, unfolding(crate::specs::Known::float_in))]
pub fn float_in(digits: usize, scale: usize) -> Float
    ensures { real result ≡ float_in digits scale }
{
    Float {
        negative: scale % 2 != 0,
        digits: digits as u64,
        scale: (scale / 2 % 256) as u8,
    }
}
