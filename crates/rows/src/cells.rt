// Cells of a lent slice. The cells of row i of a width begin at i * width. No function here asks that a place lies inside:
// a cell past the end reads as 0 and is not stored.
ghost use Rattle.std.specs.Prelude.{◌≡◌, ◌+◌, ◌*◌, min, length, get_or, replicate};
ghost use Rattle.std.proofs.lemmas.List.Edits.{sets};

// The cells at a place, one after another: numbers, or bytes.
pub fn put_cells<T: Copy>(t: &mut [T], at: usize, cells: &[T])
    ensures { t.new ≡ sets t.old at cells.now }
{
    // Not `copy_from_slice`, which calls `memmove`: the archive for C needs nothing from outside but `memcpy` and `memset`.
    if at < t.len() {
        let n = cells.len().min(t.len() - at);
        for i in 0..n {
            t[at + i] = cells[i];
        }
    }
}

// All cells become 0.
pub fn clear(t: &mut [usize])
    ensures { t.new ≡ replicate (length t.old) 0 }
{
    t.fill(0);
}

// The cell at a place.
pub fn get(t: &[usize], at: usize) -> usize
    ensures { result ≡ get_or t.now at 0 }
{
    t.get(at).copied().unwrap_or(0)
}

// The smaller of two.
pub fn least_of(a: usize, b: usize) -> usize
    ensures { result ≡ min a b }
{
    a.min(b)
}

// A column of the row that begins at a place.
pub fn cell(t: &[usize], at: usize, column: usize) -> usize
    ensures { result ≡ get_or t.now (at + column) 0 }
{
    get(t, at.saturating_add(column))
}

// Where a row begins, or the end where it begins past it.
pub fn row_start(end: usize, width: usize, row: usize) -> usize
    ensures { result ≡ min end (row * width) }
{
    end.min(row.saturating_mul(width))
}

// A column of row `row`.
pub fn cell_of(t: &[usize], width: usize, row: usize, column: usize) -> usize
    ensures { result ≡ get_or t.now (row * width + column) 0 }
{
    cell(t, row.saturating_mul(width), column)
}

// The place so many cells after a place, or the end where it is past it.
pub fn place_after(end: usize, at: usize, cells: usize) -> usize
    ensures { result ≡ min end (at + cells) }
{
    end.min(at.saturating_add(cells))
}
