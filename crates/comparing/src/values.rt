// Whether two values count as the same, by their rows.
ghost use Rattle.std.specs.Prelude.{◌≡◌, ◌-◌, eqb};
ghost use Rattle.token.specs.Find.{both};
ghost use Rattle.token.specs.Words.{same};
ghost use Rattle.rows.specs.Table.{cell_of};
ghost use Rattle.rows.specs.Search.{row_name};
ghost use Rattle.comparing.specs.Keys.{row_kind, row_float, row_key};
ghost use Rattle.meaning.specs.Words.{equal};

use super::Side;
use layout::{definition, sorts, value, word_codes};
use rows::{cells, parts};
use scopes::floats;

// Whether a column of two rows is the same.
fn same_cell(v: &[usize], i: usize, v2: &[usize], k: usize, column: usize) -> bool
    ensures { result ≡ eqb (cell_of v.now 9 i column) (cell_of v2.now 9 k column) }
{
    cells::cell_of(v, value::WIDTH, i, column) == cells::cell_of(v2, value::WIDTH, k, column)
}

// Whether their words have the same bytes.
fn same_word(a: Side, i: usize, b: Side, k: usize) -> bool
    ensures { result ≡ same (row_name a.entry.text.now a.entry.values.now 9 7 i) (row_name b.entry.text.now b.entry.values.now 9 7 k) }
{
    let p = cells::cell_of(a.values, value::WIDTH, i, value::WORD);
    let n = cells::cell_of(a.values, value::WIDTH, i, value::WORD_LENGTH);
    let p2 = cells::cell_of(b.values, value::WIDTH, k, value::WORD);
    let n2 = cells::cell_of(b.values, value::WIDTH, k, value::WORD_LENGTH);
    parts::same_bytes(token::part(a.text, p, n), token::part(b.text, p2, n2))
}

// The kind of a reference.
fn kind_of(a: Side, i: usize) -> usize
    ensures { result ≡ row_kind a.entry.definitions.now a.entry.values.now i }
{
    let j = cells::cell_of(a.values, value::WIDTH, i, value::DEFINITION);
    let code = cells::cell_of(a.definitions, definition::LENT_WIDTH, j, definition::CODE);
    code.saturating_sub(word_codes::FIRST_TYPE)
}

// Whether both references are of one kind and one name.
fn same_reference(a: Side, i: usize, b: Side, k: usize) -> bool
    ensures { result ≡ both (eqb (row_kind a.entry.definitions.now a.entry.values.now i) (row_kind b.entry.definitions.now b.entry.values.now k)) (same (row_name a.entry.text.now a.entry.values.now 9 7 i) (row_name b.entry.text.now b.entry.values.now 9 7 k)) }
{
    kind_of(a, i) == kind_of(b, k) && same_word(a, i, b, k)
}

// Whether both floats are the same amount.
fn same_float(a: Side, i: usize, b: Side, k: usize) -> bool
    ensures { result ≡ equal (row_float a.entry.text.now a.entry.values.now i) (row_float b.entry.text.now b.entry.values.now k) }
{
    let x = floats::float_at(
        a.text,
        cells::cell_of(a.values, value::WIDTH, i, value::WORD),
    );
    let y = floats::float_at(
        b.text,
        cells::cell_of(b.values, value::WIDTH, k, value::WORD),
    );
    if !floats::at_most(x, y) {
        return false;
    }
    floats::at_most(y, x)
}

// Whether the values of row i of the first and row k of the second count as the same.
pub fn same_value(a: Side, i: usize, b: Side, k: usize) -> bool
    ensures { result ≡ same (row_key a.entry.text.now a.entry.definitions.now a.entry.values.now i) (row_key b.entry.text.now b.entry.definitions.now b.entry.values.now k) }
{
    if !same_cell(a.values, i, b.values, k, value::SORT) {
        return false;
    }
    let sort = cells::cell_of(a.values, value::WIDTH, i, value::SORT);
    if sort == sorts::NUMBER {
        if !same_cell(a.values, i, b.values, k, value::NEGATIVE) {
            return false;
        }
        return same_cell(a.values, i, b.values, k, value::AMOUNT);
    }
    if sort == sorts::TRUTH {
        return same_cell(a.values, i, b.values, k, value::AMOUNT);
    }
    if sort == sorts::AUTO {
        return true;
    }
    if sort == sorts::OBJECT {
        return same_reference(a, i, b, k);
    }
    if sort == sorts::FLOAT {
        return same_float(a, i, b, k);
    }
    same_word(a, i, b, k)
}
