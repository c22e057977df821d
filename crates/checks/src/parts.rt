// What both stages use.
ghost use Rattle.std.specs.Prelude.{◌≡◌};
ghost use Rattle.checks.specs.Cells.{room_fault};

use rows::{Fault, cells, faults};

// A fault at a column of the row that is one too many, where there are more rows than may be.
pub fn room_fault(
    t: &[usize],
    width: usize,
    last: usize,
    column: usize,
    rows: usize,
    number: u8,
) -> Option<Fault>
    ensures { result ≡ room_fault t.now width last column rows number }
{
    let place = cells::cell_of(t, width, last, column);
    faults::fault_if(last < rows, number, place)
}
