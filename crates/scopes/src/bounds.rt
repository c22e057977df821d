// The ranges of integer attributes, read from the text.
ghost use Rattle.std.specs.Prelude.{◌≡◌};
ghost use Rattle.scopes.specs.Items.{num, integer_coded};
ghost use Rattle.scopes.specs.Promises.{IsListed, InRange, ListFault, BoundFault};

use super::{Num, numbers};
use rows::{Fault, refusals};

// Whether a number is among those that stand from a place on, a comma before each.
fn is_listed(text: &[u8], from: usize, n: Num) -> bool
    ensures { IsListed text.now from (num n) result }
{
    let mut at = from;
    // A `while`: the next comma stands behind the number that was read.
    while at < text.len() {
        let s = numbers::comma_at(text, at);
        if s.sign != b',' {
            return false;
        }
        let x = numbers::item_at(text, s.next);
        if numbers::equal(n, x.number) {
            return true;
        }
        at = x.next;
    }
    false
}

// Whether a number is in the range whose `[` stands at a place; 0 for no range.
pub fn in_range(text: &[u8], range: usize, n: Num) -> bool
    ensures { InRange text.now range (num n) result }
{
    if range == 0 {
        return true;
    }
    let o = numbers::item_at(text, range);
    let a = numbers::item_at(text, o.next);
    let s = numbers::item_at(text, a.next);
    if s.sign == b'.' {
        let b = numbers::item_at(text, s.next);
        if numbers::at_most(a.number, n) {
            return numbers::at_most(n, b.number);
        }
        return false;
    }
    if numbers::equal(n, a.number) {
        return true;
    }
    is_listed(text, a.next, n)
}

// The fault of a bound, a listed number or a low, at its place.
pub fn wrong_bound(at: usize) -> Fault
    ensures { result ≡ record { number = 21; place = at } }
{
    Fault {
        number: refusals::WRONG_BOUND,
        place: at,
    }
}

// 21 at the first number outside the type of those that stand from a place on, a comma before each.
fn list_fault(text: &[u8], code: usize, from: usize) -> Option<Fault>
    ensures { ListFault text.now (integer_coded code) from result }
{
    let mut at = from;
    // A `while`: the next comma stands behind the number that was read.
    while at < text.len() {
        let s = numbers::comma_at(text, at);
        if s.sign != b',' {
            return None;
        }
        let x = numbers::item_at(text, s.next);
        if !numbers::in_type(code, x.number) {
            return Some(wrong_bound(x.at));
        }
        at = x.next;
    }
    None
}

// 21 at the bounds of the range whose `[` stands at a place.
pub fn bound_fault(text: &[u8], code: usize, range: usize) -> Option<Fault>
    ensures { BoundFault text.now (integer_coded code) range result }
{
    if range == 0 {
        return None;
    }
    let o = numbers::item_at(text, range);
    let a = numbers::item_at(text, o.next);
    let s = numbers::item_at(text, a.next);
    if s.sign == b'.' {
        let b = numbers::item_at(text, s.next);
        if !numbers::at_most(a.number, b.number) {
            return Some(wrong_bound(a.at));
        }
        if !numbers::in_type(code, a.number) {
            return Some(wrong_bound(a.at));
        }
        if !numbers::in_type(code, b.number) {
            return Some(wrong_bound(b.at));
        }
        return None;
    }
    if !numbers::in_type(code, a.number) {
        return Some(wrong_bound(a.at));
    }
    list_fault(text, code, a.next)
}
