// The faults of rows of definitions: 21 at the bounds, 7, 8 and 9 at the name, 22 or 23 at the default.
ghost use Rattle.std.specs.Prelude.{◌≡◌, ◌≤◌, length, leb, is_some, unwrap_or};
ghost use Rattle.token.specs.Find.{both};
ghost use Rattle.indexes.specs.Indexing.{Fits, Through, By, ByTwo};
ghost use Rattle.defining_checks.specs.Promises.{first_again, NewTypeFault, NameFault, DefaultFault, RowFault, RowsFault};

use layout::{definition, word_codes};
use rows::{Fault, cells, faults, parts, refusals};

// The first row before row j that is under the same word, and has the same name; x is the index of the rows by these.
fn again(text: &[u8], d: &[usize], j: usize, x: &[usize]) -> Option<usize>
    ensures { Through (By text.now d.now 19 0 2 x.now) j (result ≡ first_again text.now d.now j) }
{
    let under = cells::cell_of(d, definition::WIDTH, j, definition::UNDER);
    let at = cells::cell_of(d, definition::WIDTH, j, definition::NAME);
    let len = cells::cell_of(d, definition::WIDTH, j, definition::NAME_LENGTH);
    indexes::find_before(
        text,
        d,
        definition::WIDTH,
        j,
        definition::UNDER,
        under,
        definition::NAME,
        at,
        len,
        x,
    )
}

// 9 at the name of row j, which no row before it under the same word has, if the first row under another value of its attribute that has it
// has another type word; y is the index of the rows by the attributes whose values they stand under, and by their names.
fn type_fault(text: &[u8], d: &[usize], j: usize, y: &[usize]) -> Option<Fault>
    ensures { Through (By text.now d.now 19 13 2 y.now) j (NewTypeFault text.now d.now j result) }
{
    let outer = cells::cell_of(d, definition::WIDTH, j, definition::OUTER);
    if outer == 0 {
        return None;
    }
    let at = cells::cell_of(d, definition::WIDTH, j, definition::NAME);
    let len = cells::cell_of(d, definition::WIDTH, j, definition::NAME_LENGTH);
    let Some(i) = indexes::find_before(
        text,
        d,
        definition::WIDTH,
        j,
        definition::OUTER,
        outer,
        definition::NAME,
        at,
        len,
        y,
    ) else {
        return None;
    };
    let word = cells::cell_of(d, definition::WIDTH, j, definition::TYPE);
    let size = cells::cell_of(d, definition::WIDTH, j, definition::TYPE_LENGTH);
    let first = cells::cell_of(d, definition::WIDTH, i, definition::TYPE);
    let size2 = cells::cell_of(d, definition::WIDTH, i, definition::TYPE_LENGTH);
    let same = parts::same_part(text, first, size2, word, size);
    faults::fault_if(!same, refusals::OTHER_TYPE, at)
}

// 7, 8 and 9 at the name of row j; x and y are the indexes of the rows.
fn name_fault(text: &[u8], d: &[usize], j: usize, x: &[usize], y: &[usize]) -> Option<Fault>
    ensures { Through (ByTwo text.now d.now 19 0 13 2 x.now y.now) j (NameFault text.now d.now j result) }
{
    let at = cells::cell_of(d, definition::WIDTH, j, definition::NAME);
    let a = faults::fault_if(j == definition::MOST, refusals::MANY_DEFINED, at);
    match again(text, d, j, x) {
        Some(_) => {
            let b = Some(Fault {
                number: refusals::DEFINED_AGAIN,
                place: at,
            });
            faults::sooner(a, b)
        }
        None => {
            let c = type_fault(text, d, j, y);
            faults::sooner(a, c)
        }
    }
}

// Whether a place is not before the limit, if there is one.
fn is_late(limit: Option<usize>, at: usize) -> bool
    ensures { result ≡ both (is_some limit) (leb (unwrap_or limit 0) at) }
{
    match limit {
        Some(p) => p <= at,
        None => false,
    }
}

// 22 at the default of row j, or 23 if it is AUTO, whose code is 3, if it is judged and the attribute does not take it; NO_DEFAULT, whose code
// is 4, is never at fault. xe is the index of the enumerators.
fn default_fault(
    text: &[u8],
    d: &[usize],
    e: &[usize],
    xe: &[usize],
    limit: Option<usize>,
    j: usize,
) -> Option<Fault>
    ensures { DefaultFault text.now d.now e.now xe.now (is_some limit) (unwrap_or limit 0) j result }
{
    let at = cells::cell_of(d, definition::WIDTH, j, definition::DEFAULT);
    if at == 0 {
        return None;
    }
    if is_late(limit, at) {
        return None;
    }
    let len = cells::cell_of(d, definition::WIDTH, j, definition::DEFAULT_LENGTH);
    let code = cells::cell_of(d, definition::WIDTH, j, definition::DEFAULT_CODE);
    if code == word_codes::NO_DEFAULT {
        return None;
    }
    let under = lookups::word_under(text, d, e, xe, j, at, len);
    let taken = scopes::lookups::takes(text, d, j, at, code, under);
    if code == word_codes::AUTO {
        return faults::fault_if(!taken, refusals::AUTO_DEFAULT, at);
    }
    faults::fault_if(!taken, refusals::WRONG_DEFAULT, at)
}

// The faults of row j; x and y are the indexes of the rows, xe is that of the enumerators.
fn row_fault(
    text: &[u8],
    d: &[usize],
    e: &[usize],
    xe: &[usize],
    limit: Option<usize>,
    j: usize,
    x: &[usize],
    y: &[usize],
) -> Option<Fault>
    ensures { Through (ByTwo text.now d.now 19 0 13 2 x.now y.now) j (RowFault text.now d.now e.now xe.now (is_some limit) (unwrap_or limit 0) j result) }
{
    let a = scopes::lookups::range_fault(text, d, j);
    let b = name_fault(text, d, j, x, y);
    let c = default_fault(text, d, e, xe, limit, j);
    faults::sooner(a, faults::sooner(b, c))
}

// The faults of the first n rows; x and y are the indexes of the rows, xe is that of the enumerators.
fn each_fault(
    text: &[u8],
    d: &[usize],
    e: &[usize],
    xe: &[usize],
    limit: Option<usize>,
    n: usize,
    x: &[usize],
    y: &[usize],
) -> Option<Fault>
    ensures { Through (ByTwo text.now d.now 19 0 13 2 x.now y.now) n (RowsFault text.now d.now e.now xe.now (is_some limit) (unwrap_or limit 0) n result) }
{
    let mut best = None;
    for j in 0..n {
        let f = row_fault(text, d, e, xe, limit, j, x, y);
        best = faults::sooner(best, f);
    }
    best
}

// The faults of the first n rows; x and y are room for their indexes, and b for half of one; xe is the index of the enumerators.
fn indexed_fault(
    text: &[u8],
    d: &[usize],
    e: &[usize],
    xe: &[usize],
    limit: Option<usize>,
    n: usize,
    x: &mut [usize],
    y: &mut [usize],
    b: &mut [usize],
) -> Option<Fault>
    requires { Fits n (length x.old) (length b.old) × Fits n (length y.old) (length b.old) }
    ensures { RowsFault text.now d.now e.now xe.now (is_some limit) (unwrap_or limit 0) n result }
{
    indexes::index(
        text,
        d,
        definition::WIDTH,
        definition::UNDER,
        definition::NAME,
        x,
        b,
    );
    indexes::index(
        text,
        d,
        definition::WIDTH,
        definition::OUTER,
        definition::NAME,
        y,
        b,
    );
    each_fault(text, d, e, xe, limit, n, x, y)
}

// The faults of the first n rows; xe is the index of the enumerators that are kept, and the one that is one too many, if there is one, stands at
// limit.
pub fn rows_fault(
    text: &[u8],
    d: &[usize],
    e: &[usize],
    xe: &[usize],
    limit: Option<usize>,
    n: usize,
) -> Option<Fault>
    requires { n ≤ 513 }
    ensures { RowsFault text.now d.now e.now xe.now (is_some limit) (unwrap_or limit 0) n result }
{
    let mut x = [0; definition::ROWS];
    let mut y = [0; definition::ROWS];
    let mut b = [0; definition::ROWS / 2];
    indexed_fault(text, d, e, xe, limit, n, &mut x[..n], &mut y[..n], &mut b)
}
