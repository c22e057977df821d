// Resolved values as lines, from their rows: a value's row stands before the rows of what is under it.
ghost use Rattle.std.specs.Prelude.{◌≡◌, ◌<◌};
ghost use Rattle.rows.specs.Search.{row_name};
ghost use Rattle.writing.specs.Wrote.{Wrote};
ghost use Rattle.writing.specs.Lines.{value_at, head_at, owned};
ghost use Rattle.writing.specs.Promises.{PutsLine, PutsLines};

use super::{Spot, bytes};
use layout::{definition, sorts, value};
use rows::cells;

// The part of the text that a definition's row has as its name.
fn put_name(text: &[u8], d: &[usize], j: usize, out: &mut [u8], at: usize) -> usize
    ensures { Wrote out.old at (row_name text.now d.now 13 2 j) out.new result }
{
    let place = cells::cell_of(d, definition::LENT_WIDTH, j, definition::NAME);
    let length = cells::cell_of(d, definition::LENT_WIDTH, j, definition::NAME_LENGTH);
    bytes::put_part(text, place, length, out, at)
}

// The value of row k: a number in decimal, any other as its word stands.
pub fn put_value(text: &[u8], v: &[usize], k: usize, out: &mut [u8], at: usize) -> usize
    ensures { Wrote out.old at (value_at text.now v.now k) out.new result }
{
    if cells::cell_of(v, value::WIDTH, k, value::SORT) == sorts::NUMBER {
        let negative = cells::cell_of(v, value::WIDTH, k, value::NEGATIVE) == 1;
        let amount = cells::cell_of(v, value::WIDTH, k, value::AMOUNT);
        return bytes::put_decimal(out, at, negative, amount);
    }
    let place = cells::cell_of(v, value::WIDTH, k, value::WORD);
    let length = cells::cell_of(v, value::WIDTH, k, value::WORD_LENGTH);
    bytes::put_part(text, place, length, out, at)
}

// The name of row k's definition, ` = ` and its value.
fn put_head(text: &[u8], d: &[usize], v: &[usize], k: usize, out: &mut [u8], at: usize) -> usize
    ensures { Wrote out.old at (head_at text.now d.now v.now k) out.new result }
{
    let j = cells::cell_of(v, value::WIDTH, k, value::DEFINITION);
    let a = put_name(text, d, j, out, at);
    let b = bytes::put_bytes(out, a, b" = ");
    put_value(text, v, k, out, b)
}

// Whether row k is one of the first n and has this owner.
fn has_owner(v: &[usize], n: usize, k: usize, sort: usize, row: usize) -> bool
    ensures { result ≡ owned v.now n k sort row }
{
    if n <= k {
        return false;
    }
    if cells::cell_of(v, value::WIDTH, k, value::OWNER_SORT) != sort {
        return false;
    }
    cells::cell_of(v, value::WIDTH, k, value::OWNER) == row
}

// The value of row k and what is under it.
#[cycle(put_line_put_lines)]
fn put_line(
    text: &[u8],
    d: &[usize],
    v: &[usize],
    n: usize,
    k: usize,
    out: &mut [u8],
    at: usize,
) -> Spot
    requires { k < n }
    ensures { PutsLine text.now d.now v.now n k out.old at out.new result }
{
    let a = put_head(text, d, v, k, out, at);
    if !has_owner(v, n, k + 1, 1, k) {
        let b = bytes::put_bytes(out, a, b";\n");
        return Spot {
            next: k + 1,
            place: b,
        };
    }
    let b = bytes::put_bytes(out, a, b" {\n");
    let s = put_lines(text, d, v, n, k + 1, 1, k, out, b);
    let c = bytes::put_bytes(out, s.place, b"};\n");
    Spot {
        next: s.next,
        place: c,
    }
}

// The values from row i on that have this owner, each with what is under it.
#[cycle(put_line_put_lines)]
pub fn put_lines(
    text: &[u8],
    d: &[usize],
    v: &[usize],
    n: usize,
    i: usize,
    sort: usize,
    row: usize,
    out: &mut [u8],
    at: usize,
) -> Spot
    ensures { PutsLines text.now d.now v.now n i sort row out.old at out.new result }
{
    let mut k = i;
    let mut e = at;
    // A `while`: the next row is the one after those that the line before it has.
    while has_owner(v, n, k, sort, row) {
        let s = put_line(text, d, v, n, k, out, e);
        k = s.next;
        e = s.place;
    }
    Spot { next: k, place: e }
}
