// The faults of rows of enumerators: 7 and 8.
ghost use Rattle.indexes.specs.Indexing.{Through, By};
ghost use Rattle.defining_checks.specs.Promises.{EnumeratorFault, EnumeratorsFault};

use layout::enumerator;
use rows::{Fault, cells, faults, refusals};

// 7 and 8 at the enumerator of row j; x is the index of the rows.
fn row_fault(text: &[u8], e: &[usize], j: usize, x: &[usize]) -> Option<Fault>
    ensures { Through (By text.now e.now 3 0 1 x.now) j (EnumeratorFault text.now e.now j result) }
{
    let list = cells::cell_of(e, enumerator::WIDTH, j, enumerator::LIST);
    let at = cells::cell_of(e, enumerator::WIDTH, j, enumerator::NAME);
    let len = cells::cell_of(e, enumerator::WIDTH, j, enumerator::NAME_LENGTH);
    let a = faults::fault_if(j == enumerator::MOST, refusals::MANY_DEFINED, at);
    let found = indexes::find_before(
        text,
        e,
        enumerator::WIDTH,
        j,
        enumerator::LIST,
        list,
        enumerator::NAME,
        at,
        len,
        x,
    );
    let b = faults::fault_found(found, refusals::DEFINED_AGAIN, at);
    faults::sooner(a, b)
}

// The faults of the first n rows; x is the index of the rows.
pub fn rows_fault(text: &[u8], e: &[usize], n: usize, x: &[usize]) -> Option<Fault>
    ensures { Through (By text.now e.now 3 0 1 x.now) n (EnumeratorsFault text.now e.now n result) }
{
    let mut best = None;
    for j in 0..n {
        let f = row_fault(text, e, j, x);
        best = faults::sooner(best, f);
    }
    best
}
