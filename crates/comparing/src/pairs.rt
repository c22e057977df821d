// The differences of the values of two objects, as records.
ghost use Rattle.std.specs.Prelude.{◌≡◌, ◌-◌, ◌<◌, ◌≤◌, ◌+◌, length};
ghost use Rattle.comparing.specs.Gathered.{ToldAlso, first_record, first_records, second_record, second_records};

use super::{Difference, Found, Object, gathering, values};
use rows::cells;

// Row r of the first text, which has the partner p, one more than its row, or 0.
fn one_first(found: Found, a: Object, r: usize, b: Object, p: usize) -> Found
    requires { r < 18446744073709551615 }
    ensures { ToldAlso found (first_record a.entry.side.text.now a.entry.side.definitions.now a.entry.side.values.now b.entry.side.text.now b.entry.side.definitions.now b.entry.side.values.now a.entry.number b.entry.number p r) result }
{
    if p == 0 {
        let alone = Difference {
            first_object: a.number,
            second_object: b.number,
            first_value: r + 1,
            second_value: 0,
        };
        return gathering::and_one(found, alone);
    }
    if values::same_value(a.side, r, b.side, p - 1) {
        return found;
    }
    let both = Difference {
        first_object: a.number,
        second_object: b.number,
        first_value: r + 1,
        second_value: p,
    };
    gathering::and_one(found, both)
}

// The rows of the first object, as many as there are partners in back.
pub fn first_values(found: Found, a: Object, b: Object, back: &[usize]) -> Found
    requires { a.from + length back.now ≤ 65536 }
    ensures { ToldAlso found (first_records a.entry.side.text.now a.entry.side.definitions.now a.entry.side.values.now b.entry.side.text.now b.entry.side.definitions.now b.entry.side.values.now back.now a.entry.number b.entry.number (length back.now) a.entry.from 0) result }
{
    let mut all = found;
    for (k, p) in back.iter().enumerate() {
        all = one_first(all, a, a.from + k, b, *p);
    }
    all
}

// Row r of the second text, which has the partner p, or none where p is 0; x and y are one more than the objects' rows.
fn one_second(found: Found, p: usize, r: usize, x: usize, y: usize) -> Found
    requires { r < 18446744073709551615 }
    ensures { ToldAlso found (second_record x y p r) result }
{
    if p == 0 {
        let alone = Difference {
            first_object: x,
            second_object: y,
            first_value: 0,
            second_value: r + 1,
        };
        return gathering::and_one(found, alone);
    }
    found
}

// The rows of the second text from row r on, whose partners are ps.
pub fn second_values(found: Found, r: usize, ps: &[usize], x: usize, y: usize) -> Found
    requires { r + length ps.now ≤ 65536 }
    ensures { ToldAlso found (second_records x y ps.now r) result }
{
    let mut all = found;
    for (k, p) in ps.iter().enumerate() {
        all = one_second(all, *p, r + k, x, y);
    }
    all
}
