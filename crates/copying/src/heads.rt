// The first cells of rows, copied. A cell past the end reads as 0 and is not stored.
ghost use Rattle.std.specs.Prelude.{◌≡◌};
ghost use Rattle.std.proofs.lemmas.List.Edits.{sets};
ghost use Rattle.copying.specs.Copies.{cells_from, each_row, as_is};

use rows::cells;

// The cells from a place on, so many of them, to another place.
fn copy_cells(from: &[usize], at: usize, count: usize, to: &mut [usize], place: usize)
    ensures { to.new ≡ sets to.old place (cells_from from.now at count) }
{
    let mut j = place;
    for i in 0..count {
        if to.len() <= j {
            return;
        }
        let v = cells::cell(from, at, i);
        to[j] = v;
        j += 1;
    }
}

// The first cells of each of n rows of a width, row after row.
pub fn copy_rows(from: &[usize], width: usize, n: usize, count: usize, to: &mut [usize])
    ensures { to.new ≡ sets to.old 0 (each_row as_is from.now width count 0 n) }
{
    let mut start = 0;
    let mut place = 0;
    for _ in 0..n {
        copy_cells(from, start, count, to, place);
        start = cells::place_after(from.len(), start, width);
        place = cells::place_after(to.len(), place, count);
    }
}
