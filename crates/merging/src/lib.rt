// Objects of their parts: from the rows of parts and of their statements, kept in text order, the rows of the objects and of their statements, each
// object where its first part stood.
#![tactic(auto)]

ghost use Rattle.std.specs.Prelude.{◌≡◌, length};
ghost use Rattle.std.proofs.lemmas.List.Edits.{sets};
ghost use Rattle.indexes.specs.Indexing.{Fits, Through, By};
ghost use Rattle.merging.specs.Parts.{first_row, first_rows, FirstRows};

use layout::{object, part};
use rows::cells;

pub mod objects;

// The first row with the name of row j and the same in a column: by column 0 that of the first part of the object that row j is a part of, by a
// column past the table that of the first part with its name. x is the index of the parts by that column.
fn first_part(text: &[u8], p: &[usize], column: usize, j: usize, x: &[usize]) -> usize
    ensures { Through (By text.now p.now 10 column 3 x.now) j (result ≡ first_row column text.now p.now j) }
{
    let key = cells::cell_of(p, object::WIDTH, j, column);
    let at = cells::cell_of(p, object::WIDTH, j, object::NAME);
    let len = cells::cell_of(p, object::WIDTH, j, object::NAME_LENGTH);
    match indexes::find_before(
        text,
        p,
        object::WIDTH,
        j,
        column,
        key,
        object::NAME,
        at,
        len,
        x,
    ) {
        Some(i) => i,
        None => j,
    }
}

// Those of the first n rows.
fn each_first(text: &[u8], p: &[usize], column: usize, n: usize, x: &[usize], out: &mut [usize])
    ensures { Through (By text.now p.now 10 column 3 x.now) n (out.new ≡ sets out.old 0 (first_rows column text.now p.now n 0)) }
{
    for j in 0..n {
        let i = first_part(text, p, column, j, x);
        let c = [i];
        cells::put_cells(out, j, &c);
    }
}

// The same; x is room for the index of the rows, and b for half of it.
fn indexed_firsts(
    text: &[u8],
    p: &[usize],
    column: usize,
    n: usize,
    x: &mut [usize],
    b: &mut [usize],
    out: &mut [usize],
)
    requires { Fits n (length x.old) (length b.old) }
    ensures { out.new ≡ sets out.old 0 (first_rows column text.now p.now n 0) }
{
    indexes::index(text, p, object::WIDTH, column, object::NAME, x, b);
    each_first(text, p, column, n, x, out);
}

// The first rows of at most 513 parts, by a column.
pub fn firsts(text: &[u8], p: &[usize], column: usize, n: usize) -> [usize; part::ROWS]
    ensures { FirstRows column text.now p.now n result }
{
    let mut out = [0; part::ROWS];
    if part::ROWS < n {
        return out;
    }
    let mut x = [0; part::ROWS];
    let mut b = [0; part::ROWS / 2];
    indexed_firsts(text, p, column, n, &mut x[..n], &mut b, &mut out);
    out
}
