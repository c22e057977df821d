// The faults 6 to 9 and 21 to 23 over the rows kept while a text is read.
#![tactic(auto)]

ghost use Rattle.std.specs.Prelude.{◌≡◌, min, length};
ghost use Rattle.indexes.specs.Indexing.{Fits};
ghost use Rattle.defining_checks.specs.Promises.{version_code, one_too_many, DefinitionFaults};

pub mod definitions;
pub mod enumerators;

use layout::{definition, enumerator};
use rows::{Fault, cells, faults, parts, refusals};

// 6 at the version's word.
fn version_fault(text: &[u8], at: usize, len: usize) -> Option<Fault>
    ensures { result ≡ version_code text.now at len }
{
    let version = [34, 50, 46, 53, 34];
    let same = parts::same_bytes(token::part(text, at, len), &version);
    faults::fault_if(!same, refusals::OTHER_VERSION, at)
}

// Where the enumerator stands that is one too many, if m have one.
fn one_too_many(e: &[usize], m: usize) -> Option<usize>
    ensures { result ≡ one_too_many e.now m }
{
    let many = enumerator::MOST < m;
    many.then_some(cells::cell_of(e, enumerator::WIDTH, enumerator::MOST, enumerator::NAME))
}

// The fault by which the stage of 6 to 9 and 21 to 23 answers, as below; so many enumerators are kept, x is room for their index, and b for half of it.
fn indexed_faults(
    text: &[u8],
    d: &[usize],
    e: &[usize],
    n: usize,
    m: usize,
    at: usize,
    len: usize,
    again: usize,
    kept: usize,
    x: &mut [usize],
    b: &mut [usize],
) -> Option<Fault>
    requires { (kept ≡ min m 1025) × Fits kept (length x.old) (length b.old) }
    ensures { DefinitionFaults text.now d.now e.now n m at len again result }
{
    indexes::index(
        text,
        e,
        enumerator::WIDTH,
        enumerator::LIST,
        enumerator::NAME,
        x,
        b,
    );
    let limit = one_too_many(e, m);
    let rows = cells::least_of(n, definition::ROWS);
    let v = version_fault(text, at, len);
    let a = faults::fault_if(again != 0, refusals::DEFINED_AGAIN, again);
    let r = definitions::rows_fault(text, d, e, x, limit, rows);
    let c = enumerators::rows_fault(text, e, kept, x);
    faults::sooner(v, faults::sooner(a, faults::sooner(r, c)))
}

// The fault by which the stage of 6 to 9 and 21 to 23 answers: of n definitions and m enumerators, of which those are kept for which there is room, of the
// version's word at (at, len), and of the first kind word that comes a second time (0: none).
pub fn definition_faults(
    text: &[u8],
    d: &[usize],
    e: &[usize],
    n: usize,
    m: usize,
    at: usize,
    len: usize,
    again: usize,
) -> Option<Fault>
    ensures { DefinitionFaults text.now d.now e.now n m at len again result }
{
    let kept = cells::least_of(m, enumerator::ROWS);
    let mut x = [0; enumerator::ROWS];
    let mut b = [0; enumerator::ROWS / 2];
    indexed_faults(
        text,
        d,
        e,
        n,
        m,
        at,
        len,
        again,
        kept,
        &mut x[..kept],
        &mut b,
    )
}
