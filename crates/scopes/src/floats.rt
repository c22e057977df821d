// Floats, and the ranges of float attributes, read from the text.
ghost use Rattle.std.specs.Prelude.{◌≡◌};
ghost use Rattle.token.specs.Tokens.{step_at};
ghost use Rattle.meaning.specs.Actions.{float_of_sort, float_of_step};
ghost use Rattle.meaning.specs.Words.{num_at_most};
ghost use Rattle.scopes.specs.Items.{real};
ghost use Rattle.scopes.specs.Promises.{InFloats, LowFault};

use super::{Float, bounds, numbers};
use rows::Fault;
use token::{Cursor, Sort, Step};

const ZERO: Float = Float {
    negative: false,
    digits: 0,
    scale: 0,
};

// The float that a token of a sort is; 0 for any other.
#[tactic(auto, unfolding(meaning::specs::Actions::float_of_sort, meaning::specs::Actions::zero_num))]
fn float_of(sort: Sort) -> Float
    ensures { real result ≡ float_of_sort sort }
{
    match sort {
        Sort::Float(negative, digits, scale) => Float {
            negative,
            digits,
            scale,
        },
        _ => ZERO,
    }
}

// The float at a place; 0 where none stands.
#[tactic(auto, unfolding(meaning::specs::Actions::float_of_step, meaning::specs::Actions::zero_num))]
pub fn float_at(text: &[u8], at: usize) -> Float
    ensures { real result ≡ float_of_step (step_at text.now at) }
{
    let cursor = Cursor { at };
    match cursor.step(text) {
        Step::Found(t, _) => float_of(t.sort),
        _ => ZERO,
    }
}

// Whether a float is at most another, exactly.
#[tactic(auto, unfolding(meaning::specs::Words::num_at_most))]
pub fn at_most(a: Float, b: Float) -> bool
    ensures { result ≡ num_at_most (real a) (real b) }
{
    match (a.negative, b.negative) {
        (true, true) => decimals::at_most(b.digits, b.scale, a.digits, a.scale),
        (true, false) => true,
        (false, true) => false,
        (false, false) => decimals::at_most(a.digits, a.scale, b.digits, b.scale),
    }
}

// Whether a float is in the range whose `[` stands at a place; 0 for no range.
pub fn in_range(text: &[u8], range: usize, f: Float) -> bool
    ensures { InFloats text.now range (real f) result }
{
    if range == 0 {
        return true;
    }
    let o = numbers::item_at(text, range);
    let a = numbers::item_at(text, o.next);
    let s = numbers::item_at(text, a.next);
    let low = float_at(text, o.next);
    if at_most(low, f) {
        let high = float_at(text, s.next);
        return at_most(f, high);
    }
    false
}

// 21 at the low of the range whose `[` stands at a place, where it is above the high.
pub fn low_fault(text: &[u8], range: usize) -> Option<Fault>
    ensures { LowFault text.now range result }
{
    if range == 0 {
        return None;
    }
    let o = numbers::item_at(text, range);
    let a = numbers::item_at(text, o.next);
    let s = numbers::item_at(text, a.next);
    let low = float_at(text, o.next);
    let high = float_at(text, s.next);
    if !at_most(low, high) {
        return Some(bounds::wrong_bound(a.at));
    }
    None
}
