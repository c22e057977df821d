// Floats: the digits around the dot, and the exponent.
ghost use Rattle.std.specs.Prelude.{◌≡◌, ◌≤◌, ◌<◌, length};
ghost use Rattle.token.specs.Floats.{some_digits, mantissa_of, power_of, power_at, scale_of};

use super::{Power, numbers, scan};

// The value of one or more digits, after those whose value is first, if it is at most max.
#[tactic(auto, unfolding(crate::specs::Floats::some_digits))]
fn some_digits(word: &[u8], max: u64, first: u64) -> Option<u64>
    requires { first ≤ max }
    ensures { result ≡ some_digits max first word.now }
{
    if word.len() == 0 {
        return None;
    }
    numbers::digits(word, 10, max, first)
}

// The digits before the dot and after it as one whole number, where they are at most eighteen.
#[tactic(auto, using(crate::proofs::Decimals::some_limit), unfolding(crate::specs::Floats::mantissa_of, crate::specs::Floats::digits_behind))]
pub fn mantissa(front: &[u8], fraction: &[u8]) -> Option<u64>
    ensures { result ≡ mantissa_of front.now fraction.now }
{
    if 18 < front.len() || 18 - front.len() < fraction.len() {
        return None;
    }
    let a = some_digits(front, 999999999999999999, 0)?;
    some_digits(fraction, 999999999999999999, a)
}

// An exponent of an amount, where it is one.
#[tactic(auto, unfolding(crate::specs::Floats::power_of))]
fn power_of(below: bool, word: &[u8], end: usize) -> Option<Power>
    ensures { result ≡ power_of below (some_digits 64 0 word.now) end }
{
    let amount = some_digits(word, 64, 0)?;
    Some(Power { below, amount, end })
}

// The exponent of a float whose run after the dot ends at end, with its first `e` or `E` at mark.
#[tactic(auto, using(crate::proofs::Bytes::word_low, crate::proofs::Bytes::word_high, crate::proofs::Decimals::signed_inside), unfolding(crate::specs::Floats::power_at))]
pub fn power_at(text: &[u8], mark: usize, end: usize) -> Option<Power>
    requires { (mark ≤ end) × (end ≤ length text.now) }
    ensures { result ≡ power_at text.now mark end }
{
    if mark == end {
        return Some(Power {
            below: false,
            amount: 0,
            end,
        });
    }
    if scan::signed(text, mark, end) {
        let from = end + 1;
        let last = scan::word_end(text, from);
        let below = text[end] == b'-';
        return power_of(below, &text[from..last], last);
    }
    let from = mark + 1;
    power_of(false, &text[from..end], end)
}

// The power of ten by which the digits of a float count, plus 82, with so many digits after its dot.
#[tactic(auto, unfolding(crate::specs::Floats::scale_of))]
pub fn scale(below: bool, amount: u64, places: usize) -> u8
    requires { (amount ≤ 64) × (places ≤ 18) }
    ensures { result ≡ scale_of below amount places }
{
    let left = 82 - places;
    let power = amount as usize;
    if below {
        (left - power) as u8
    } else {
        (left + power) as u8
    }
}
