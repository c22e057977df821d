// Whether an attribute takes a value; of a number or a float by the table of ranges.
ghost use Rattle.scopes.specs.Items.{num, real};
ghost use Rattle.scopes.specs.Promises.{TakesNumber, TakesFloat, TakesUnder};
ghost use Rattle.amounts.specs.Known.{Known};
ghost use Rattle.amounts.specs.Promises.{InRangeOf, InFloatsOf};

use super::{keys, ranges};
use layout::{definition, word_codes};
use rows::cells;
use scopes::{Float, Num, bounds, floats, lookups, numbers};

// Whether a number is in the range of the definition of row j.
fn in_range(text: &[u8], d: &[usize], known: &[usize], j: usize, n: Num) -> bool
    requires { Known text.now d.now known.now }
    ensures { InRangeOf text.now d.now j (num n) result }
{
    let range = cells::cell_of(d, definition::WIDTH, j, definition::RANGE);
    if definition::MOST <= j {
        return bounds::in_range(text, range, n);
    }
    let row = ranges::FIRST + j * ranges::WIDTH;
    let sort = cells::cell(known, row, ranges::SORT);
    if sort == ranges::BOUNDS {
        let low = Num {
            negative: cells::cell(known, row, ranges::LOW_NEGATIVE) != 0,
            amount: cells::cell(known, row, ranges::LOW) as u64,
        };
        if !numbers::at_most(low, n) {
            return false;
        }
        let high = Num {
            negative: cells::cell(known, row, ranges::HIGH_NEGATIVE) != 0,
            amount: cells::cell(known, row, ranges::HIGH) as u64,
        };
        return numbers::at_most(n, high);
    }
    if sort != ranges::LIST {
        return bounds::in_range(text, range, n);
    }
    let sign = keys::is_signed(cells::cell_of(d, definition::WIDTH, j, definition::CODE));
    if !keys::has_key(sign, n) {
        return bounds::in_range(text, range, n);
    }
    let from = cells::cell(known, row, ranges::FROM);
    let end = cells::cell(known, row, ranges::END);
    if end < from {
        return bounds::in_range(text, range, n);
    }
    if known.len() < end {
        return bounds::in_range(text, range, n);
    }
    sorting::has(&known[from..end], keys::key(n))
}

// Whether the attribute of row j takes the number at a place.
fn takes_number(text: &[u8], d: &[usize], known: &[usize], j: usize, at: usize) -> bool
    requires { Known text.now d.now known.now }
    ensures { TakesNumber text.now d.now j at result }
{
    let code = cells::cell_of(d, definition::WIDTH, j, definition::CODE);
    if code < word_codes::UINT32 {
        return false;
    }
    if word_codes::INT64 < code {
        return false;
    }
    let n = numbers::number_at(text, at);
    if numbers::in_type(code, n) {
        return in_range(text, d, known, j, n);
    }
    false
}

// Whether a float is in the range of the definition of row j.
fn in_floats(text: &[u8], d: &[usize], known: &[usize], j: usize, f: Float) -> bool
    requires { Known text.now d.now known.now }
    ensures { InFloatsOf text.now d.now j (real f) result }
{
    let range = cells::cell_of(d, definition::WIDTH, j, definition::RANGE);
    if definition::MOST <= j {
        return floats::in_range(text, range, f);
    }
    let row = ranges::FIRST + j * ranges::WIDTH;
    if cells::cell(known, row, ranges::SORT) != ranges::FLOATS {
        return floats::in_range(text, range, f);
    }
    let low = keys::float_in(
        cells::cell(known, row, ranges::LOW_DIGITS),
        cells::cell(known, row, ranges::LOW_SCALE),
    );
    if !floats::at_most(low, f) {
        return false;
    }
    let high = keys::float_in(
        cells::cell(known, row, ranges::HIGH_DIGITS),
        cells::cell(known, row, ranges::HIGH_SCALE),
    );
    floats::at_most(f, high)
}

// Whether the attribute of row j takes the float at a place.
fn takes_float(text: &[u8], d: &[usize], known: &[usize], j: usize, at: usize) -> bool
    requires { Known text.now d.now known.now }
    ensures { TakesFloat text.now d.now j at result }
{
    if cells::cell_of(d, definition::WIDTH, j, definition::CODE) != word_codes::FLOAT {
        return false;
    }
    let f = floats::float_at(text, at);
    in_floats(text, d, known, j, f)
}

// Whether the attribute of row j takes the word at a place, with a code; `under` is the place of the value word that it is, 0 for none.
pub fn takes(
    text: &[u8],
    d: &[usize],
    known: &[usize],
    j: usize,
    at: usize,
    code: usize,
    under: usize,
) -> bool
    requires { Known text.now d.now known.now }
    ensures { TakesUnder text.now d.now j at code under result }
{
    if code == word_codes::NUMERAL {
        return takes_number(text, d, known, j, at);
    }
    if code == word_codes::FLOATING {
        return takes_float(text, d, known, j, at);
    }
    lookups::takes_word(d, j, code, under)
}
