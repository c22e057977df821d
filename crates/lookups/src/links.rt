// For each statement the next one of its rank in its block, noted once, in one pass from the end.
ghost use Rattle.std.specs.Prelude.{◌≡◌, ◌≤◌, length, set};
ghost use Rattle.lookups.specs.Links.{ahead, Passing, Linked};

use super::next_row;
use layout::{definition, statement};
use rows::cells;

// Puts a cell, if there is one.
fn put(t: &mut [usize], at: usize, v: usize)
    ensures { t.new ≡ set t.old at v }
{
    if at < t.len() {
        t[at] = v;
    }
}

// Passes the statements from row `from` to row `to`, which are linked: `rows` has for each rank the first row that has it. Returns the row come to.
fn pass(
    st: &[usize],
    h: &[usize],
    next: &[usize],
    rows: &mut [usize],
    from: usize,
    to: usize,
) -> usize
    requires { (to ≤ length h.now) × Passing st.now h.now next.now from rows.old }
    ensures { rows.new ≡ ahead st.now h.now result }
{
    let mut p = from;
    // A `while`: the next row is the one after those in the statement's braces.
    while p < to {
        let rank = cells::get(h, p);
        let row = cells::get(next, p);
        put(rows, rank, row);
        p = next_row(
            p,
            cells::cell_of(st, statement::WIDTH, p, statement::AFTER),
            h.len(),
        );
    }
    p
}

// Notes for each statement the next one of its rank; h has the ranks. 0 where nothing is noted.
pub fn note_next(st: &[usize], h: &[usize], next: &mut [usize])
    requires { length next.old ≡ length h.now }
    ensures { Linked st.now h.now next.new }
{
    cells::clear(next);
    let mut rows = [h.len(); definition::ROWS];
    for i in (0..h.len()).rev() {
        let after = next_row(
            i,
            cells::cell_of(st, statement::WIDTH, i, statement::AFTER),
            h.len(),
        );
        let p = pass(st, h, next, &mut rows, i + 1, after);
        if p != after {
            return;
        }
        let rank = cells::get(h, i);
        let row = cells::get(&rows, rank);
        next[i] = row;
        put(&mut rows, rank, i);
    }
}
