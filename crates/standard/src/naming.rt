// Attributes looked up in the kept rows by names that stand in another text.
ghost use Rattle.std.specs.Prelude.{◌≡◌};
ghost use Rattle.rows.specs.Search.{find_from};
ghost use Rattle.standard.specs.Naming.{is_named_under, FindsAttribute, find_choice, truth_named, FindsValue};
ghost use Rattle.standard.specs.Descending.{StepsInto};

use layout::{definition, enumerator, word_codes};
use rows::{cells, parts};

// How wide the rows of a table are, and which of their cells have the place of the word that a row stands under, and the place and the length of its
// name.
#[derive(Clone, Copy)]
pub struct Columns {
    pub width: usize,
    pub under: usize,
    pub name: usize,
    pub length: usize,
}

// Whether row i stands under the word at key and has this name.
fn is_named(
    text: &[u8],
    table: &[usize],
    columns: Columns,
    key: usize,
    i: usize,
    name: &[u8],
) -> bool
    ensures { result ≡ is_named_under text.now table.now columns key i name.now }
{
    if cells::cell_of(table, columns.width, i, columns.under) != key {
        return false;
    }
    let at = cells::cell_of(table, columns.width, i, columns.name);
    let len = cells::cell_of(table, columns.width, i, columns.length);
    parts::same_bytes(token::part(text, at, len), name)
}

// The first row, below `rows`, that is so.
fn find_named(
    text: &[u8],
    table: &[usize],
    columns: Columns,
    rows: usize,
    key: usize,
    name: &[u8],
) -> Option<usize>
    ensures { result ≡ find_from (λ i. is_named_under text.now table.now columns key i name.now) rows 0 }
{
    for i in 0..rows {
        if is_named(text, table, columns, key, i, name) {
            return Some(i);
        }
    }
    None
}

// The row, below `rows`, of the attribute of this name in the scope of the word at key.
pub fn find_attribute(
    text: &[u8],
    d: &[usize],
    rows: usize,
    key: usize,
    name: &[u8],
) -> Option<usize>
    ensures { FindsAttribute text.now d.now rows key name.now result }
{
    let columns = Columns {
        width: definition::WIDTH,
        under: definition::UNDER,
        name: definition::NAME,
        length: definition::NAME_LENGTH,
    };
    find_named(text, d, columns, rows, key, name)
}

// The row, below `rows`, of the enumerator of this name in the list with the key.
fn find_choice(text: &[u8], e: &[usize], rows: usize, key: usize, name: &[u8]) -> Option<usize>
    ensures { result ≡ find_choice text.now e.now rows key name.now 0 }
{
    let columns = Columns {
        width: enumerator::WIDTH,
        under: enumerator::LIST,
        name: enumerator::NAME,
        length: enumerator::NAME_LENGTH,
    };
    find_named(text, e, columns, rows, key, name)
}

// The place of the word of the list of the BOOLEAN of row j that has this name; 0 for none.
fn truth_named(text: &[u8], d: &[usize], j: usize, name: &[u8]) -> usize
    ensures { result ≡ truth_named text.now d.now j name.now }
{
    let first = cells::cell_of(d, definition::WIDTH, j, definition::KEY);
    let size = cells::cell_of(d, definition::WIDTH, j, definition::TRUE_LENGTH);
    if parts::same_bytes(token::part(text, first, size), name) {
        return first;
    }
    let second = cells::cell_of(d, definition::WIDTH, j, definition::FALSE);
    let size2 = cells::cell_of(d, definition::WIDTH, j, definition::FALSE_LENGTH);
    if parts::same_bytes(token::part(text, second, size2), name) {
        return second;
    }
    0
}

// The place of the value word of the list of the attribute of row j that has this name; 0 for none. `rows` is how many enumerators there are.
pub fn find_value(
    text: &[u8],
    d: &[usize],
    e: &[usize],
    rows: usize,
    j: usize,
    name: &[u8],
) -> usize
    ensures { FindsValue text.now d.now e.now rows j name.now result }
{
    let code = cells::cell_of(d, definition::WIDTH, j, definition::CODE);
    if code == word_codes::BOOLEAN {
        return truth_named(text, d, j, name);
    }
    if code != word_codes::ENUM {
        return 0;
    }
    let key = cells::cell_of(d, definition::WIDTH, j, definition::KEY);
    let Some(i) = find_choice(text, e, rows, key, name) else {
        return 0;
    };
    cells::cell_of(e, enumerator::WIDTH, i, enumerator::NAME)
}

// The place of the value word into whose scope an attribute and a value lead, from the scope of the word at key; 0 where one of them is not
// there. The first numbers are how many definitions and enumerators there are.
pub fn step_into(
    text: &[u8],
    d: &[usize],
    e: &[usize],
    definitions: usize,
    enumerators: usize,
    key: usize,
    attribute: &[u8],
    value: &[u8],
) -> usize
    ensures { StepsInto text.now d.now e.now definitions enumerators key attribute.now value.now result }
{
    let Some(j) = find_attribute(text, d, definitions, key, attribute) else {
        return 0;
    };
    find_value(text, d, e, enumerators, j, value)
}
