// What the row of a definition tells: the words of a BOOLEAN's list, the values that an attribute takes, the bounds of its range.
ghost use Rattle.scopes.specs.Promises.{TakesWord, TakesUnder, TakesNumber, TakesFloat, FindsTruth, RangeFault};

use super::{Num, bounds, floats, numbers};
use layout::{definition, word_codes};
use rows::{Fault, cells, parts};

// The word TRUE or FALSE of the list of the BOOLEAN of row j that a word is; 0 for none.
pub fn truth_under(text: &[u8], d: &[usize], j: usize, at: usize, len: usize) -> usize
    ensures { FindsTruth text.now d.now j at len result }
{
    let first = cells::cell_of(d, definition::WIDTH, j, definition::KEY);
    let size = cells::cell_of(d, definition::WIDTH, j, definition::TRUE_LENGTH);
    if parts::same_part(text, first, size, at, len) {
        return first;
    }
    let second = cells::cell_of(d, definition::WIDTH, j, definition::FALSE);
    let size2 = cells::cell_of(d, definition::WIDTH, j, definition::FALSE_LENGTH);
    if parts::same_part(text, second, size2, at, len) {
        return second;
    }
    0
}

// Whether the attribute of row j takes the number at a place.
fn takes_number(text: &[u8], d: &[usize], j: usize, at: usize) -> bool
    ensures { TakesNumber text.now d.now j at result }
{
    let code = cells::cell_of(d, definition::WIDTH, j, definition::CODE);
    if code < word_codes::UINT32 {
        return false;
    }
    if word_codes::INT64 < code {
        return false;
    }
    let n = numbers::number_at(text, at);
    if numbers::in_type(code, n) {
        return bounds::in_range(
            text,
            cells::cell_of(d, definition::WIDTH, j, definition::RANGE),
            n,
        );
    }
    false
}

// Whether the attribute of row j takes the float at a place.
pub fn takes_float(text: &[u8], d: &[usize], j: usize, at: usize) -> bool
    ensures { TakesFloat text.now d.now j at result }
{
    let code = cells::cell_of(d, definition::WIDTH, j, definition::CODE);
    if code != word_codes::FLOAT {
        return false;
    }
    let f = floats::float_at(text, at);
    floats::in_range(
        text,
        cells::cell_of(d, definition::WIDTH, j, definition::RANGE),
        f,
    )
}

// Whether the attribute of row j takes a word that is no number and no float; `under` is the place of the value word that it is, 0 for none. The
// codes of words are 43 for a number, 44 for a string, 54 for a float, 1 and 2 for TRUE and FALSE, 3 for AUTO, 4 for NO_DEFAULT.
pub fn takes_word(d: &[usize], j: usize, code: usize, under: usize) -> bool
    ensures { TakesWord d.now j code under result }
{
    if code == word_codes::AUTO {
        return cells::cell_of(d, definition::WIDTH, j, definition::AUTO) == 1;
    }
    if code == word_codes::NO_DEFAULT {
        return false;
    }
    let t = cells::cell_of(d, definition::WIDTH, j, definition::CODE);
    if code == word_codes::QUOTED {
        return t == word_codes::STRING;
    }
    if code == word_codes::TRUE {
        return t == word_codes::BOOLEAN;
    }
    if code == word_codes::FALSE {
        return t == word_codes::BOOLEAN;
    }
    if t != word_codes::ENUM {
        return false;
    }
    under != 0
}

// Whether the attribute of row j takes the word at a place, with a code; `under` is the place of the value word that it is, 0 for none.
pub fn takes(text: &[u8], d: &[usize], j: usize, at: usize, code: usize, under: usize) -> bool
    ensures { TakesUnder text.now d.now j at code under result }
{
    if code == word_codes::NUMERAL {
        return takes_number(text, d, j, at);
    }
    if code == word_codes::FLOATING {
        return takes_float(text, d, j, at);
    }
    takes_word(d, j, code, under)
}

// 21 at the bounds of the range of the attribute of row j.
pub fn range_fault(text: &[u8], d: &[usize], j: usize) -> Option<Fault>
    ensures { RangeFault text.now d.now j result }
{
    let code = cells::cell_of(d, definition::WIDTH, j, definition::CODE);
    if code < word_codes::UINT32 {
        return None;
    }
    if word_codes::INT64 < code {
        if code == word_codes::FLOAT {
            return floats::low_fault(
                text,
                cells::cell_of(d, definition::WIDTH, j, definition::RANGE),
            );
        }
        return None;
    }
    bounds::bound_fault(
        text,
        code,
        cells::cell_of(d, definition::WIDTH, j, definition::RANGE),
    )
}
