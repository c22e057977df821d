// Numbers, and those that an integer type has.
ghost use Rattle.std.specs.Prelude.{◌≡◌, ◌≤◌, ◌<◌, ◌^◌, false};
ghost use Rattle.token.specs.Tokens.{step_at};
ghost use Rattle.meaning.specs.Actions.{num_of_step};
ghost use Rattle.meaning.specs.Words.{num_at_most, equal, least_of, greatest_of, signed, width, in_type};
ghost use Rattle.scopes.specs.Items.{num, item_of, item_at, integer_coded};

use super::{Item, Num, ZERO};
use layout::word_codes;
use token::{Cursor, Sort, Step};

// A token of a sort, at a place, with the place after it.
#[tactic(auto, unfolding(crate::specs::Items::item_of))]
fn item_of(sort: Sort, at: usize, next: usize) -> Item
    ensures { result ≡ item_of sort at next }
{
    match sort {
        Sort::Number(negative, amount) => Item {
            number: Num { negative, amount },
            sign: 0,
            at,
            next,
        },
        Sort::Punctuator(sign) => Item {
            number: ZERO,
            sign,
            at,
            next,
        },
        _ => Item {
            number: ZERO,
            sign: 0,
            at,
            next,
        },
    }
}

// No number and no sign, at a place.
fn nothing_at(at: usize) -> Item
    ensures { result ≡ record { number = record { negative = false; amount = 0 }; sign = 0; at = at; next = at } }
{
    Item {
        number: ZERO,
        sign: 0,
        at,
        next: at,
    }
}

// What a step from a place finds.
#[tactic(auto, unfolding(crate::specs::Items::item_at, crate::specs::Items::item_of_step))]
pub fn item_at(text: &[u8], at: usize) -> Item
    ensures { result ≡ item_at text.now at }
{
    let cursor = Cursor { at };
    match cursor.step(text) {
        Step::Found(t, c) => item_of(t.sort, t.at, c.at),
        Step::Refused(p) => nothing_at(p),
        Step::End(n) => nothing_at(n),
    }
}

// The same; a comma that stands right at the place is told from its byte.
#[tactic(auto, using(crate::proofs::Commas::comma_item))]
pub fn comma_at(text: &[u8], at: usize) -> Item
    ensures { result ≡ item_at text.now at }
{
    if text.len() <= at || text[at] != b',' {
        return item_at(text, at);
    }
    Item {
        number: ZERO,
        sign: b',',
        at,
        next: at + 1,
    }
}

// The number at a place; 0 where none stands.
pub fn number_at(text: &[u8], at: usize) -> Num
    ensures { num result ≡ num_of_step (step_at text.now at) }
{
    item_at(text, at).number
}

// Whether a number is at most another. No derived order: of two negative numbers the one with the greater amount is the less.
#[tactic(auto, unfolding(meaning::specs::Words::num_at_most))]
pub fn at_most(a: Num, b: Num) -> bool
    ensures { result ≡ num_at_most (num a) (num b) }
{
    match (a.negative, b.negative) {
        (true, true) => b.amount <= a.amount,
        (true, false) => true,
        (false, true) => false,
        (false, false) => a.amount <= b.amount,
    }
}

// Whether each of two numbers is at most the other.
#[tactic(auto, unfolding(meaning::specs::Words::equal))]
pub fn equal(a: Num, b: Num) -> bool
    ensures { result ≡ equal (num a) (num b) }
{
    at_most(a, b) && at_most(b, a)
}

// 2 to the power k.
fn power(k: usize) -> u64
    requires { k < 64 }
    ensures { result ≡ 2 ^ k }
{
    1 << k
}

// The least number of so many bits, with a sign or without.
pub fn least_of(negatives: bool, bits: usize) -> Num
    requires { (1 ≤ bits) × (bits ≤ 64) }
    ensures { num result ≡ least_of negatives bits }
{
    if negatives {
        return Num {
            negative: true,
            amount: power(bits - 1),
        };
    }
    ZERO
}

// The greatest number of so many bits, with a sign or without.
pub fn greatest_of(negatives: bool, bits: usize) -> Num
    requires { (1 ≤ bits) × (bits ≤ 64) }
    ensures { num result ≡ greatest_of negatives bits }
{
    let half = power(bits - 1);
    if negatives {
        return Num {
            negative: false,
            amount: half - 1,
        };
    }
    Num {
        negative: false,
        amount: half - 1 + half,
    }
}

// Whether the integer type with the code has a sign: 35 is UINT32, 36 INT32, 37 UINT64, 38 INT64.
fn is_signed(code: usize) -> bool
    ensures { result ≡ signed (integer_coded code) }
{
    if code == word_codes::UINT32 {
        return false;
    }
    code != word_codes::UINT64
}

fn width_of(code: usize) -> usize
    ensures { result ≡ width (integer_coded code) }
{
    if code == word_codes::UINT32 {
        return 32;
    }
    if code == word_codes::INT32 {
        return 32;
    }
    64
}

// Whether the integer type with the code has the number, by the type's least and greatest.
#[tactic(auto, using(crate::proofs::Deciding::width_fits), unfolding(meaning::specs::Words::in_type))]
fn is_between(code: usize, n: Num) -> bool
    ensures { result ≡ in_type (integer_coded code) (num n) }
{
    let s = is_signed(code);
    let w = width_of(code);
    at_most(least_of(s, w), n) && at_most(n, greatest_of(s, w))
}

// Whether the integer type with the code has the number. Each of the four has those from 0 to the greatest of INT32.
#[tactic(auto, using(crate::proofs::Deciding::small_in_type))]
pub fn in_type(code: usize, n: Num) -> bool
    ensures { result ≡ in_type (integer_coded code) (num n) }
{
    !n.negative && n.amount <= 2147483647 || is_between(code, n)
}
