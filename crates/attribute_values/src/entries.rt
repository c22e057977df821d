// The values that the steps of a path lead to, over the rows of the values: a row stands before the rows that it owns.
ghost use Rattle.std.specs.Prelude.{◌≡◌, ◌-◌};
ghost use Rattle.attribute_values.specs.Paths.{steps};
ghost use Rattle.attribute_values.specs.Rows.{named_at, picked_at, seek, entry_at, by_steps_at};

use super::paths;
use layout::{definition, value};
use rows::{cells, parts};

// Whether row k has this owner, and its attribute this name.
fn is_named(
    text: &[u8],
    d: &[usize],
    v: &[usize],
    sort: usize,
    row: usize,
    name: &[u8],
    k: usize,
) -> bool
    ensures { result ≡ named_at text.now d.now v.now sort row name.now k }
{
    if cells::cell_of(v, value::WIDTH, k, value::OWNER_SORT) != sort {
        return false;
    }
    if cells::cell_of(v, value::WIDTH, k, value::OWNER) != row {
        return false;
    }
    let j = cells::cell_of(v, value::WIDTH, k, value::DEFINITION);
    let place = cells::cell_of(d, definition::LENT_WIDTH, j, definition::NAME);
    let length = cells::cell_of(d, definition::LENT_WIDTH, j, definition::NAME_LENGTH);
    parts::same_bytes(token::part(text, place, length), name)
}

// Whether the mark picks row k, as entry n of its attribute.
fn is_picked(d: &[usize], v: &[usize], mark: &[u8], k: usize, n: usize) -> bool
    ensures { result ≡ picked_at d.now v.now mark.now k n }
{
    if mark.len() == 0 {
        return n == 0;
    }
    let j = cells::cell_of(v, value::WIDTH, k, value::DEFINITION);
    if cells::cell_of(d, definition::LENT_WIDTH, j, definition::LIST) != 1 {
        return false;
    }
    paths::is_mark(mark, n)
}

// The row, of those from row i on and before row e, that a name and a mark pick among the rows of an owner.
fn find_named(
    text: &[u8],
    d: &[usize],
    v: &[usize],
    e: usize,
    i: usize,
    sort: usize,
    row: usize,
    name: &[u8],
    mark: &[u8],
) -> Option<usize>
    ensures { result ≡ seek (named_at text.now d.now v.now sort row name.now) (picked_at d.now v.now mark.now) (e - i) i 0 }
{
    let mut n = 0;
    for k in i..e {
        if !is_named(text, d, v, sort, row, name, k) {
            continue;
        }
        if is_picked(d, v, mark, k, n) {
            return Some(k);
        }
        n += 1;
    }
    None
}

// The same for a step, which is a name and its mark.
fn find_entry(
    text: &[u8],
    d: &[usize],
    v: &[usize],
    e: usize,
    i: usize,
    sort: usize,
    row: usize,
    step: &[u8],
) -> Option<usize>
    ensures { result ≡ entry_at text.now d.now v.now e i sort row step.now }
{
    let q = paths::find_byte(step, 0, b'[');
    find_named(text, d, v, e, i, sort, row, &step[..q], &step[q..])
}

// The row that a path leads to from the object of a row; there are e values.
pub fn find_value(
    text: &[u8],
    d: &[usize],
    v: &[usize],
    e: usize,
    object: usize,
    path: &[u8],
) -> Option<usize>
    ensures { result ≡ by_steps_at text.now d.now v.now e (steps path.now) 0 0 object }
{
    let mut at = 0;
    let mut from = 0;
    let mut sort = 0;
    let mut row = object;
    // A `loop`: each step begins after the dot that ends the step before it, and looks among the rows of the row that was found.
    loop {
        let dot = paths::find_byte(path, at, b'.');
        let Some(k) = find_entry(text, d, v, e, from, sort, row, &path[at..dot]) else {
            return None;
        };
        if path.len() <= dot {
            return Some(k);
        }
        at = dot + 1;
        from = k + 1;
        sort = 1;
        row = k;
    }
}
