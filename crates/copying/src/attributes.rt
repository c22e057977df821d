// Enumerators, copied with the row of the attribute whose list they stand in.
ghost use Rattle.std.specs.Prelude.{◌≡◌};
ghost use Rattle.std.proofs.lemmas.List.Edits.{sets};
ghost use Rattle.copying.specs.Copies.{cells_from, each_row, attribute_of, attributed};

use layout::{definition, enumerator};
use rows::{cells, finding};

// The first of the n definitions whose list has the key; 0 where none has.
fn attribute_of(d: &[usize], n: usize, key: usize) -> usize
    ensures { result ≡ attribute_of d.now n key }
{
    let Some(i) = finding::find_row(d, definition::WIDTH, n, definition::KEY, key, 0) else {
        return 0;
    };
    i
}

// The enumerator whose row begins at a place, to another place.
fn copy_enumerator(d: &[usize], n: usize, e: &[usize], at: usize, out: &mut [usize], place: usize)
    ensures { out.new ≡ sets out.old place (attributed d.now n (cells_from e.now at 3)) }
{
    let key = cells::cell(e, at, 0);
    let attribute = attribute_of(d, n, key);
    let name = cells::cell(e, at, 1);
    let length = cells::cell(e, at, enumerator::NAME_LENGTH);
    let row = [attribute, name, length];
    cells::put_cells(out, place, &row);
}

// The m enumerators in e, row after row.
pub fn copy_attributed(d: &[usize], n: usize, e: &[usize], m: usize, out: &mut [usize])
    ensures { out.new ≡ sets out.old 0 (each_row (attributed d.now n) e.now 3 3 0 m) }
{
    let mut start = 0;
    let mut place = 0;
    for _ in 0..m {
        copy_enumerator(d, n, e, start, out, place);
        start = cells::place_after(e.len(), start, enumerator::WIDTH);
        place = cells::place_after(out.len(), place, enumerator::WIDTH);
    }
}
