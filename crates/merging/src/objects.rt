// The rows of objects, and of their statements.
ghost use Rattle.std.specs.Prelude.{◌≡◌, ◌+◌, ◌*◌, ◌≤◌, ◌<◌};
ghost use Rattle.std.proofs.lemmas.List.Edits.{sets};
ghost use Rattle.merging.specs.Moves.{shift_of, moved_row, Moves};
ghost use Rattle.merging.specs.Promises.{GathersOne, Gathers, MergesOne, Merges};

use layout::{object, statement};
use rows::cells;

// A row after the statements that were gathered, and the parts that have them.
#[derive(Clone, Copy)]
pub struct Share {
    pub row: usize,
    pub parts: usize,
}

// How many objects there are, and how many statements they have.
#[derive(Clone, Copy)]
pub struct Counted {
    pub objects: usize,
    pub statements: usize,
}

// The number of a row, where row `from` becomes row `to`.
fn shifted(a: usize, from: usize, to: usize) -> usize
    ensures { result ≡ shift_of a from to }
{
    if a < from {
        return 0;
    }
    let d = a - from;
    if filling::COUNTED < d {
        return 0;
    }
    if filling::COUNTED < to {
        return 0;
    }
    d + to
}

// Row k of statements as row `row` of another table.
fn move_row(st: &[usize], k: usize, from: usize, to: usize, out: &mut [usize], row: usize)
    ensures { out.new ≡ sets out.old (row * 7) (moved_row st.now k from to) }
{
    let name = cells::cell_of(st, statement::WIDTH, k, statement::NAME);
    let size = cells::cell_of(st, statement::WIDTH, k, statement::NAME_LENGTH);
    let at = cells::cell_of(st, statement::WIDTH, k, statement::VALUE);
    let len = cells::cell_of(st, statement::WIDTH, k, statement::VALUE_LENGTH);
    let code = cells::cell_of(st, statement::WIDTH, k, statement::CODE);
    let brace = cells::cell_of(st, statement::WIDTH, k, statement::BRACE);
    let next = cells::cell_of(st, statement::WIDTH, k, statement::AFTER);
    let after = shifted(next, from, to);
    let row_cells = [name, size, at, len, code, brace, after];
    filling::put_row(out, statement::WIDTH, row, &row_cells);
}

// The rows from `from` to `end`, from row `to` on; the row after them.
fn move_rows(st: &[usize], from: usize, end: usize, out: &mut [usize], to: usize) -> usize
    ensures { Moves st.now from end out.old to out.new result }
{
    if statement::ROWS < end {
        return to;
    }
    if statement::ROWS < to {
        return to;
    }
    let mut row = to;
    for k in from..end {
        move_row(st, k, from, to, out, row);
        row += 1;
    }
    row
}

// What row j gives to the object whose first part is row i; x has the first part of each row.
fn gather_one(
    p: &[usize],
    st: &[usize],
    x: &[usize],
    i: usize,
    j: usize,
    out: &mut [usize],
    m: usize,
    parts: usize,
) -> Share
    requires { parts < 18446744073709551615 }
    ensures { (result.parts ≤ parts + 1) × GathersOne p.now st.now x.now i j out.old m parts out.new result.row result.parts }
{
    if cells::get(x, j) != i {
        return Share { row: m, parts };
    }
    let from = cells::cell_of(p, object::WIDTH, j, object::FIRST);
    let end = cells::cell_of(p, object::WIDTH, j, object::END);
    let row = move_rows(st, from, end, out, m);
    Share {
        row,
        parts: parts + 1,
    }
}

// All that the object has whose first part is row i, of n rows.
fn gather(
    p: &[usize],
    st: &[usize],
    x: &[usize],
    i: usize,
    n: usize,
    out: &mut [usize],
    m: usize,
) -> Share
    ensures { Gathers p.now st.now x.now i n out.old m out.new result.row result.parts }
{
    let mut row = m;
    let mut parts = 0;
    for j in i..n {
        let y = gather_one(p, st, x, i, j, out, row, parts);
        row = y.row;
        parts = y.parts;
    }
    Share { row, parts }
}

// The object that begins with row i, if one does, as row k; its statements from row m on.
fn merge_one(
    p: &[usize],
    st: &[usize],
    x: &[usize],
    i: usize,
    n: usize,
    o: &mut [usize],
    t: &mut [usize],
    k: usize,
    m: usize,
) -> Counted
    requires { k < 18446744073709551615 }
    ensures { (result.objects ≤ k + 1) × MergesOne p.now st.now x.now i n o.old t.old k m o.new t.new result.objects result.statements }
{
    if cells::get(x, i) != i {
        return Counted {
            objects: k,
            statements: m,
        };
    }
    let g = gather(p, st, x, i, n, t, m);
    let kind = cells::cell_of(p, object::WIDTH, i, object::KIND);
    let word = cells::cell_of(p, object::WIDTH, i, object::WORD);
    let word_len = cells::cell_of(p, object::WIDTH, i, object::WORD_LENGTH);
    let name = cells::cell_of(p, object::WIDTH, i, object::NAME);
    let name_len = cells::cell_of(p, object::WIDTH, i, object::NAME_LENGTH);
    let block = cells::cell_of(p, object::WIDTH, i, object::BLOCK);
    let block_len = cells::cell_of(p, object::WIDTH, i, object::BLOCK_LENGTH);
    let row = [
        kind, word, word_len, name, name_len, block, block_len, g.parts, m, g.row,
    ];
    filling::put_row(o, object::WIDTH, k, &row);
    Counted {
        objects: k + 1,
        statements: g.row,
    }
}

// The rows of the objects that n parts make, and of their statements; how many objects there are.
pub fn merge(
    p: &[usize],
    st: &[usize],
    x: &[usize],
    n: usize,
    o: &mut [usize],
    t: &mut [usize],
) -> usize
    ensures { Merges p.now st.now x.now n o.old t.old o.new t.new result }
{
    let mut k = 0;
    let mut m = 0;
    for i in 0..n {
        let y = merge_one(p, st, x, i, n, o, t, k, m);
        k = y.objects;
        m = y.statements;
    }
    k
}
