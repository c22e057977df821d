// The rows of the events, and of each one's MASK.
ghost use Rattle.std.specs.Prelude.{◌≡◌, ◌<◌};
ghost use Rattle.rows.specs.Search.{find_from};
ghost use Rattle.masks.specs.Members.{event_rows_at, PutEvent, PutEvents, is_mask_at};

use layout::{definition, object, value};
use rows::{cells, parts};

// Row i at a place, if it is an event's; returns the place after.
fn put_event(o: &[usize], i: usize, rows: &mut [usize], e: usize) -> usize
    requires { e < 18446744073709551615 }
    ensures { PutEvent o.now i rows.old e rows.new result }
{
    if cells::cell_of(o, object::LENT_WIDTH, i, object::KIND) != object::EVENT {
        return e;
    }
    let cell = [i];
    cells::put_cells(rows, e, &cell);
    e + 1
}

// The rows of the events, of the first m objects, from the front on; returns how many they are.
pub fn event_rows(o: &[usize], m: usize, rows: &mut [usize]) -> usize
    ensures { PutEvents rows.old (event_rows_at o.now m 0) rows.new result }
{
    let mut e = 0;
    for i in 0..m {
        e = put_event(o, i, rows, e);
    }
    e
}

// Whether row k is the MASK of the object of a row.
fn is_mask(text: &[u8], d: &[usize], v: &[usize], row: usize, k: usize) -> bool
    ensures { result ≡ is_mask_at text.now d.now v.now row k }
{
    if cells::cell_of(v, value::WIDTH, k, value::OWNER_SORT) != value::OF_OBJECT {
        return false;
    }
    if cells::cell_of(v, value::WIDTH, k, value::OWNER) != row {
        return false;
    }
    let j = cells::cell_of(v, value::WIDTH, k, value::DEFINITION);
    let place = cells::cell_of(d, definition::LENT_WIDTH, j, definition::NAME);
    let length = cells::cell_of(d, definition::LENT_WIDTH, j, definition::NAME_LENGTH);
    parts::same_bytes(token::part(text, place, length), b"MASK")
}

// The row of the MASK of the object of a row, of the first n values.
pub fn find_mask(text: &[u8], d: &[usize], v: &[usize], n: usize, row: usize) -> Option<usize>
    ensures { result ≡ find_from (is_mask_at text.now d.now v.now row) n 0 }
{
    for k in 0..n {
        if is_mask(text, d, v, row, k) {
            return Some(k);
        }
    }
    None
}
