// The token at a place where no blank and no comment stands.
ghost use Rattle.std.specs.Prelude.{◌≡◌, ◌≤◌, ◌<◌, ◌+◌, length};
ghost use Rattle.token.specs.Bytes.{word_end};
ghost use Rattle.token.specs.Tokens.{found, limit_of, is_negative, word_at, whole_at, float_at, number_at, string_at, dots_at, token_at};

use super::scan::Class;
use super::{Cursor, Sort, Step, Token, floats, numbers, scan, words};

// The token from at to end.
#[tactic(auto, unfolding(crate::specs::Tokens::found))]
fn found(sort: Sort, at: usize, end: usize) -> Step
    requires { at ≤ end }
    ensures { result ≡ found sort at end }
{
    Step::Found(
        Token {
            sort,
            at,
            len: end - at,
        },
        Cursor { at: end },
    )
}

// The word at a place.
#[tactic(auto, using(crate::proofs::Bytes::word_low, crate::proofs::Bytes::word_high), unfolding(crate::specs::Tokens::word_at))]
fn word_at(text: &[u8], at: usize) -> Step
    requires { at ≤ length text.now }
    ensures { result ≡ word_at text.now at }
{
    let end = scan::word_end(text, at);
    let code = words::code(&text[at..end]);
    found(Sort::Word(code), at, end)
}

// The largest amount after a minus, and after none.
#[tactic(auto, unfolding(crate::specs::Tokens::limit_of))]
fn limit(minus: bool) -> u64
    ensures { result ≡ limit_of minus }
{
    if minus {
        9223372036854775808
    } else {
        18446744073709551615
    }
}

// Whether a number is negative: 0 is not, whatever its sign.
#[tactic(auto, unfolding(crate::specs::Tokens::is_negative))]
fn is_negative(minus: bool, m: u64) -> bool
    ensures { result ≡ is_negative minus m }
{
    minus && 0 < m
}

// The whole number at a place, whose run begins at from and ends at end.
#[tactic(auto, using(crate::proofs::Bytes::word_low, crate::proofs::Bytes::word_high), unfolding(crate::specs::Tokens::whole_at))]
fn whole_at(text: &[u8], at: usize, from: usize, end: usize) -> Step
    requires { (at < length text.now) × ((at ≤ from) × ((from ≤ length text.now) × (end ≡ word_end text.now from))) }
    ensures { result ≡ whole_at text.now at from }
{
    let minus = text[at] == b'-';
    let max = limit(minus);
    match numbers::numeral(&text[from..end], at < from, max) {
        Some(m) => {
            let negative = is_negative(minus, m);
            found(Sort::Number(negative, m), at, end)
        }
        None => Step::Refused(at),
    }
}

// The float at a place, whose first run begins at from and ends at its dot, with a digit after it.
#[tactic(auto, using(crate::proofs::Bytes::word_low, crate::proofs::Bytes::word_high, crate::proofs::Decimals::mark_low, crate::proofs::Decimals::mark_high, crate::proofs::Decimals::power_fits, crate::proofs::Decimals::fraction_short), unfolding(crate::specs::Tokens::float_at, crate::specs::Tokens::float_by))]
fn float_at(text: &[u8], at: usize, from: usize, dot: usize) -> Step
    requires { (at ≤ from) × ((from ≤ dot) × (dot + 1 < length text.now)) }
    ensures { result ≡ float_at text.now at from dot }
{
    let start = dot + 1;
    let end = scan::word_end(text, start);
    let mark = scan::find_mark(text, end, start);
    let minus = text[at] == b'-';
    let digits = floats::mantissa(&text[from..dot], &text[start..mark]);
    let power = floats::power_at(text, mark, end);
    match (digits, power) {
        (Some(m), Some(x)) => {
            let negative = is_negative(minus, m);
            let scale = floats::scale(x.below, x.amount, mark - start);
            found(Sort::Float(negative, m, scale), at, x.end)
        }
        _ => Step::Refused(at),
    }
}

// The number or float at a place, whose run begins at from.
#[tactic(auto, using(crate::proofs::Decimals::dotted_inside, crate::proofs::Bytes::word_low), unfolding(crate::specs::Tokens::number_at, crate::specs::Tokens::number_by))]
fn number_at(text: &[u8], at: usize, from: usize) -> Step
    requires { (at < length text.now) × ((at ≤ from) × (from ≤ length text.now)) }
    ensures { result ≡ number_at text.now at from }
{
    let end = scan::word_end(text, from);
    if scan::dotted(text, end) {
        float_at(text, at, from, end)
    } else {
        whole_at(text, at, from, end)
    }
}

// The string at a place.
#[tactic(auto, using(crate::proofs::Bytes::byte_low), unfolding(crate::specs::Tokens::string_at))]
fn string_at(text: &[u8], at: usize) -> Step
    requires { at < length text.now }
    ensures { result ≡ string_at text.now at }
{
    let close = scan::find_byte(text, at + 1, b'"');
    if close < text.len() {
        found(Sort::String, at, close + 1)
    } else {
        Step::Refused(at)
    }
}

// `..` at a place.
#[tactic(auto, using(crate::proofs::Bytes::pair_inside), unfolding(crate::specs::Tokens::dots_at))]
fn dots_at(text: &[u8], at: usize) -> Step
    ensures { result ≡ dots_at text.now at }
{
    if scan::pair(text, at, b'.', b'.') {
        found(Sort::Punctuator(b'.'), at, at + 2)
    } else {
        Step::Refused(at)
    }
}

// The token at a place.
#[tactic(auto, unfolding(crate::specs::Tokens::token_at, crate::specs::Tokens::token_of))]
pub fn token_at(text: &[u8], at: usize) -> Step
    ensures { result ≡ token_at text.now at }
{
    if text.len() <= at {
        return Step::End(text.len());
    }
    let b = text[at];
    match scan::class_of(b) {
        Class::Letter => word_at(text, at),
        Class::Digit => number_at(text, at, at),
        Class::Sign => number_at(text, at, at + 1),
        Class::Quote => string_at(text, at),
        Class::Punctuator => found(Sort::Punctuator(b), at, at + 1),
        Class::Dot => dots_at(text, at),
        Class::Blank | Class::Slash | Class::Other => Step::Refused(at),
    }
}
