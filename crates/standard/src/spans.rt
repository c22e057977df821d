// A range of the implementation, compared with the numbers 1 and 2.
ghost use Rattle.std.specs.Prelude.{◌≡◌};
ghost use Rattle.scopes.specs.Items.{num};
ghost use Rattle.standard.specs.Spans.{one_or_two, AllListed, WithinOneTwo};

use scopes::{Num, numbers};

fn is_one_or_two(n: Num) -> bool
    ensures { result ≡ one_or_two (num n) }
{
    let one = Num {
        negative: false,
        amount: 1,
    };
    if numbers::equal(n, one) {
        return true;
    }
    let two = Num {
        negative: false,
        amount: 2,
    };
    numbers::equal(n, two)
}

// Whether all numbers are 1 or 2 that stand from a place on, a comma before each.
fn all_listed(text: &[u8], from: usize) -> bool
    ensures { AllListed text.now from result }
{
    let mut at = from;
    // A `while`: the next number stands where the item before it ends, so no range counts it.
    while at < text.len() {
        let s = numbers::item_at(text, at);
        if s.sign != b',' {
            return true;
        }
        let x = numbers::item_at(text, s.next);
        if !is_one_or_two(x.number) {
            return false;
        }
        at = x.next;
    }
    true
}

// Whether the range whose `[` stands at a place has no other numbers than 1 and 2; no range, at 0, has.
pub fn within_one_two(text: &[u8], range: usize) -> bool
    ensures { WithinOneTwo text.now range result }
{
    if range == 0 {
        return false;
    }
    let o = numbers::item_at(text, range);
    let a = numbers::item_at(text, o.next);
    let s = numbers::item_at(text, a.next);
    if s.sign == b'.' {
        let b = numbers::item_at(text, s.next);
        let two = Num {
            negative: false,
            amount: 2,
        };
        if !numbers::at_most(b.number, two) {
            return false;
        }
        return is_one_or_two(a.number);
    }
    if !is_one_or_two(a.number) {
        return false;
    }
    all_listed(text, a.next)
}
