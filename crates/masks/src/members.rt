// Marks for the references of tasks, the masks of the events and the definition of MASK, from the rows of the tables.
ghost use Rattle.std.specs.Prelude.{◌≡◌, ◌+◌, ◌*◌, ◌<◌, ◌≤◌, length};
ghost use Rattle.masks.specs.Members.{object_at, hits, refers_at, Marked, sort_found, amount_found, PutGiven, Filled, mask_row, defines_mask};

use super::events;
use layout::{definition, object, sorts, value, word_codes};
use rows::{cells, parts};

// The object of row k: its owner, or that of the row before.
fn object_of(v: &[usize], k: usize, last: usize) -> usize
    ensures { result ≡ object_at v.now k last }
{
    if cells::cell_of(v, value::WIDTH, k, value::OWNER_SORT) == value::OF_OBJECT {
        return cells::cell_of(v, value::WIDTH, k, value::OWNER);
    }
    last
}

// The mark of row k, which is the object `last`'s, where it is a reference of a task.
fn mark_one(o: &[usize], v: &[usize], k: usize, last: usize, marks: &mut [u8])
    requires { length marks.old ≡ 65536 }
    ensures { Marked marks.old (hits o.now v.now k last) marks.new }
{
    if cells::cell_of(o, object::LENT_WIDTH, last, object::KIND) != object::TASK {
        return;
    }
    if cells::cell_of(v, value::WIDTH, k, value::SORT) != sorts::OBJECT {
        return;
    }
    let x = cells::cell_of(v, value::WIDTH, k, value::AMOUNT);
    if object::MOST <= last {
        return;
    }
    if object::MOST <= x {
        return;
    }
    marks[last * object::MOST + x] = 1;
}

// The marks of the references of all tasks; the values are the first n rows.
pub fn mark_all(o: &[usize], v: &[usize], n: usize, marks: &mut [u8])
    requires { length marks.old ≡ 65536 }
    ensures { Marked marks.old (refers_at o.now v.now n 0 0) marks.new }
{
    let mut last = 0;
    for k in 0..n {
        last = object_of(v, k, last);
        mark_one(o, v, k, last, marks);
    }
}

// The sort of the value that was found.
fn sort_of(v: &[usize], found: Option<usize>) -> usize
    ensures { result ≡ sort_found v.now found }
{
    match found {
        Some(k) => cells::cell_of(v, value::WIDTH, k, value::SORT),
        None => sorts::AUTO,
    }
}

// The amount of the value that was found.
fn amount_of(v: &[usize], found: Option<usize>) -> usize
    ensures { result ≡ amount_found v.now found }
{
    match found {
        Some(k) => cells::cell_of(v, value::WIDTH, k, value::AMOUNT),
        None => 0,
    }
}

// The mask of the event j.
fn put_given(v: &[usize], found: Option<usize>, j: usize, given: &mut [usize])
    requires { j * 2 + 1 < length given.old }
    ensures { PutGiven v.now found j given.old given.new }
{
    let a = sort_of(v, found);
    let b = amount_of(v, found);
    given[j * super::GIVEN_WIDTH] = a;
    given[j * super::GIVEN_WIDTH + 1] = b;
}

// The masks of the first e events.
pub fn fill_given(
    text: &[u8],
    d: &[usize],
    v: &[usize],
    n: usize,
    rows: &[usize],
    e: usize,
    given: &mut [usize],
)
    requires { e * 2 ≤ length given.old }
    ensures { Filled text.now d.now v.now n rows.now e given.old given.new }
{
    for j in 0..e {
        let found = events::find_mask(text, d, v, n, cells::get(rows, j));
        put_given(v, found, j, given);
    }
}

// Whether row j of the definitions is a single UINT64 attribute MASK under the word at a place.
fn is_mask_row(text: &[u8], d: &[usize], place: usize, j: usize) -> bool
    ensures { result ≡ mask_row text.now d.now place j }
{
    if cells::cell_of(d, definition::LENT_WIDTH, j, definition::UNDER) != place {
        return false;
    }
    if cells::cell_of(d, definition::LENT_WIDTH, j, definition::CODE) != word_codes::UINT64 {
        return false;
    }
    if cells::cell_of(d, definition::LENT_WIDTH, j, definition::LIST) != 0 {
        return false;
    }
    let at = cells::cell_of(d, definition::LENT_WIDTH, j, definition::NAME);
    let length = cells::cell_of(d, definition::LENT_WIDTH, j, definition::NAME_LENGTH);
    parts::same_bytes(token::part(text, at, length), b"MASK")
}

// Whether the scope of the word at a place, none where that is 0, has a single UINT64 attribute MASK; there are n definitions.
pub fn defines_mask(text: &[u8], d: &[usize], place: usize, n: usize) -> bool
    ensures { result ≡ defines_mask text.now d.now place n }
{
    if place == 0 {
        return false;
    }
    for j in 0..n {
        if is_mask_row(text, d, place, j) {
            return true;
        }
    }
    false
}
