// Lookups by key over rows of any width.
ghost use Rattle.std.specs.Prelude.{◌≡◌};
ghost use Rattle.rows.specs.Search.{find_row};

use super::cells;

// The first row from `from` on, below `rows`, whose cell in the column is the key.
pub fn find_row(
    t: &[usize],
    width: usize,
    rows: usize,
    column: usize,
    key: usize,
    from: usize,
) -> Option<usize>
    ensures { result ≡ find_row t.now width rows column key from }
{
    let mut at = cells::row_start(t.len(), width, from);
    for i in from..rows {
        if cells::cell(t, at, column) == key {
            return Some(i);
        }
        at = cells::place_after(t.len(), at, width);
    }
    None
}
