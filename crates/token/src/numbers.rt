// Numbers: a value is none where the digits are none, or it is too large.
ghost use Rattle.std.specs.Prelude.{◌≡◌, ◌+◌, ◌*◌, ◌<◌, ◌≤◌};
ghost use Rattle.token.specs.Numbers.{digit_of, at_most, digits_after, numeral};

// The value of a byte as a digit, 16 where it is none.
#[tactic(auto, unfolding(crate::specs::Numbers::digit_of))]
fn digit(b: u8) -> u8
    ensures { result ≡ digit_of b }
{
    match b {
        b'0'..=b'9' => b - b'0',
        b'A'..=b'F' => b - 55,
        b'a'..=b'f' => b - 87,
        _ => 16,
    }
}

// A number with one digit more, if that is at most max.
#[tactic(auto, unfolding(crate::specs::Numbers::at_most))]
fn push(a: u64, base: u64, d: u64, max: u64) -> Option<u64>
    ensures { result ≡ at_most max (a * base + d) }
{
    let n = a.checked_mul(base)?.checked_add(d)?;
    if n <= max { Some(n) } else { None }
}

// The value of digits, after those whose value is first, if it is at most max.
#[tactic(auto, using(crate::proofs::Values::digits_end, crate::proofs::Values::digits_stop, crate::proofs::Values::digits_over, crate::proofs::Values::digits_next, crate::proofs::Values::was_is, crate::proofs::Values::was_not))]
pub fn digits(word: &[u8], base: u64, max: u64, first: u64) -> Option<u64>
    requires { (0 < base) × (first ≤ max) }
    ensures { result ≡ digits_after base max first word.now }
{
    let mut a = first;
    for b in word {
        let d = u64::from(digit(*b));
        if base <= d {
            return None;
        }
        a = push(a, base, d, max)?;
    }
    Some(a)
}

// The value of a numeral, if it is at most max.
#[tactic(auto, unfolding(crate::specs::Numbers::numeral))]
pub fn numeral(word: &[u8], signed: bool, max: u64) -> Option<u64>
    ensures { result ≡ numeral signed max word.now }
{
    if word.len() == 0 {
        return None;
    }
    if word[0] != b'0' {
        return digits(word, 10, max, 0);
    }
    if word.len() == 1 {
        return Some(0);
    }
    if signed || word.len() == 2 || word[1] != b'x' {
        return None;
    }
    digits(&word[2..], 16, max, 0)
}
