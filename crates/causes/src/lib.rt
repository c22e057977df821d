// Why a text is refused: of an attribute that is defined again in its scope (8), and of a name that an object of another kind has used before (24),
// where it stands first.
#![tactic(auto)]

ghost use Rattle.std.specs.Prelude.{◌≡◌, ◌+◌, ◌*◌};
ghost use Rattle.rows.specs.Search.{is_named, find_named};
ghost use Rattle.causes.specs.Firsts.{first_like};
ghost use Rattle.causes.specs.Causes.{TellsDefined, TellsNamed};

use layout::{definition, enumerator, object, part, statement};
use rows::{cells, finding, parts};

// Whether the cell of row i in a column is the key, and its name the same bytes as the part of the text.
fn is_named(
    text: &[u8],
    t: &[usize],
    width: usize,
    i: usize,
    column: usize,
    key: usize,
    name: usize,
    at: usize,
    len: usize,
) -> bool
    ensures { result ≡ is_named text.now t.now (i * width) column key name (name + 1) at len }
{
    if cells::cell_of(t, width, i, column) != key {
        return false;
    }
    let second = cells::place_after(t.len(), name, 1);
    let place = cells::cell_of(t, width, i, name);
    let size = cells::cell_of(t, width, i, second);
    parts::same_part(text, place, size, at, len)
}

// The first of so many rows for which that is so.
fn find_named(
    text: &[u8],
    t: &[usize],
    width: usize,
    rows: usize,
    column: usize,
    key: usize,
    name: usize,
    at: usize,
    len: usize,
) -> Option<usize>
    ensures { result ≡ find_named text.now t.now width rows column key name at len 0 }
{
    for i in 0..rows {
        if is_named(text, t, width, i, column, key, name, at, len) {
            return Some(i);
        }
    }
    None
}

// The place of the name of the first row that has the key and the name of the row whose name stands at a place, and is before it; 0 where there is none.
fn first_like(
    text: &[u8],
    t: &[usize],
    width: usize,
    rows: usize,
    column: usize,
    name: usize,
    place: usize,
) -> usize
    ensures { result ≡ first_like text.now t.now width rows column name place }
{
    let Some(j) = finding::find_row(t, width, rows, name, place, 0) else {
        return 0;
    };
    let key = cells::cell_of(t, width, j, column);
    let second = cells::place_after(t.len(), name, 1);
    let len = cells::cell_of(t, width, j, second);
    let Some(i) = find_named(text, t, width, j, column, key, name, place, len) else {
        return 0;
    };
    cells::cell_of(t, width, i, name)
}

// Of a text that is refused with 24 at a place: where the name there stands first.
pub fn first_named(text: &[u8], place: usize) -> usize
    ensures { TellsNamed text.now place result }
{
    let mut d = [0; definition::KEPT];
    let mut e = [0; enumerator::KEPT];
    let mut p = [0; part::KEPT];
    let mut q = [0; statement::KEPT];
    let w = walk::walk(text, &mut d, &mut e, &mut p, &mut q);
    let n = cells::least_of(w.parts, part::ROWS);
    first_like(text, &p, object::WIDTH, n, part::KEPT, object::NAME, place)
}

// Of a text that is refused with 8 at a place: where the attribute of the name there is defined first in its scope; 0 where no attribute's name stands
// there.
pub fn first_defined(text: &[u8], place: usize) -> usize
    ensures { TellsDefined text.now place result }
{
    let mut d = [0; definition::KEPT];
    let mut e = [0; enumerator::KEPT];
    let mut p = [0; part::KEPT];
    let mut q = [0; statement::KEPT];
    let w = walk::walk(text, &mut d, &mut e, &mut p, &mut q);
    let n = cells::least_of(w.definitions, definition::ROWS);
    first_like(
        text,
        &d,
        definition::WIDTH,
        n,
        definition::UNDER,
        definition::NAME,
        place,
    )
}
