// The faults 11, 17 and 24 of the application, over the rows of parts.
ghost use Rattle.std.specs.Prelude.{◌≡◌, ◌+◌, ◌≤◌, ◌<◌, get_or};
ghost use Rattle.rows.specs.Order.{fault_if};
ghost use Rattle.rows.specs.Search.{is_found};
ghost use Rattle.meaning.specs.Kinds.{most};
ghost use Rattle.kinds.specs.Kinds.{kind_at, most_of};
ghost use Rattle.checks.specs.Cells.{lacking_from, full_of};
ghost use Rattle.checks.specs.Promises.{ChecksOne, ChecksParts, NameFault, ObjectFaults};

use super::parts;
use kinds::Kind;
use layout::{object, part, statement};
use rows::{Fault, cells, counts, faults, refusals};

// A fault, or one of number 0; how many objects there are, and how many of each kind.
#[derive(Drop)]
pub struct Checked {
    pub fault: Option<Fault>,
    pub objects: usize,
    pub counts: [usize; counts::KINDS],
}

// 17 at the CPU's name, where a kind has fewer objects than its least count. Where a kind has none it has no part either: parts will do.
fn too_few(counts: [usize; counts::KINDS], cpu: usize) -> Option<Fault>
    ensures { result ≡ fault_if (is_found (lacking_from counts 0)) 17 cpu }
{
    for i in 0..Kind::COUNT {
        let kind = Kind::of(i);
        if counts[i] < kind.least() {
            return Some(Fault {
                number: refusals::COUNT_OF_KIND,
                place: cpu,
            });
        }
    }
    None
}

// Whether a kind has as many objects as it may.
#[tactic(auto, unfolding(crate::specs::Cells::full_of))]
fn is_full(most: Option<usize>, n: usize) -> bool
    ensures { result ≡ full_of most n }
{
    most.is_some_and(|m| m <= n)
}

// 17 at the kind word of an object, where the kind had its greatest count before.
fn too_many(counts: [usize; counts::KINDS], number: usize, place: usize) -> Option<Fault>
    ensures { result ≡ fault_if (full_of (most_of (most (kind_at number))) (get_or counts number 0)) 17 place }
{
    let kind = Kind::of(number);
    let n = cells::get(&counts, number);
    faults::fault_if(is_full(kind.most(), n), refusals::COUNT_OF_KIND, place)
}

// One part more: 11 and 17 at its kind word, if it is the first of its object; x has the first part of each row.
fn check_one(
    p: &[usize],
    x: &[usize],
    j: usize,
    best: Option<Fault>,
    k: usize,
    counts: [usize; counts::KINDS],
) -> Checked
    requires { k < 18446744073709551615 }
    ensures { (result.objects ≤ k + 1) × ChecksOne p.now x.now j best k counts result }
{
    if cells::get(x, j) != j {
        return Checked {
            fault: best,
            objects: k,
            counts,
        };
    }
    let number = cells::cell_of(p, object::WIDTH, j, object::KIND);
    let place = cells::cell_of(p, object::WIDTH, j, object::WORD);
    let a = faults::fault_if(k == object::MOST, refusals::MANY_APPLIED, place);
    let b = too_many(counts, number, place);
    let f = faults::sooner(best, faults::sooner(a, b));
    let more = rows::counts::one_more(counts, number);
    Checked {
        fault: f,
        objects: k + 1,
        counts: more,
    }
}

// The first n parts.
fn check_parts(p: &[usize], x: &[usize], n: usize) -> Checked
    ensures { ChecksParts p.now x.now n result }
{
    let mut best = None;
    let mut k = 0;
    let mut counts = [0; counts::KINDS];
    for j in 0..n {
        let y = check_one(p, x, j, best, k, counts);
        best = y.fault;
        k = y.objects;
        let of_kinds = y.counts;
        counts = of_kinds;
    }
    Checked {
        fault: best,
        objects: k,
        counts,
    }
}

// 24 at the name of the first part whose name an object of another kind has before; y has the first part with the name of each of n rows.
fn name_fault(p: &[usize], y: &[usize], n: usize) -> Option<Fault>
    ensures { NameFault p.now y.now n result }
{
    for j in 0..n {
        let i = cells::get(y, j);
        let kind = cells::cell_of(p, object::WIDTH, j, object::KIND);
        let before = cells::cell_of(p, object::WIDTH, i, object::KIND);
        if kind != before {
            let place = cells::cell_of(p, object::WIDTH, j, object::NAME);
            return Some(Fault {
                number: refusals::OTHER_KIND,
                place,
            });
        }
    }
    None
}

// The fault by which the stage of 11, 17 and 24 answers, and how many objects there are; `counts` are those of the parts.
pub fn object_faults(
    text: &[u8],
    p: &[usize],
    st: &[usize],
    x: &[usize],
    parts: usize,
    statements: usize,
    counts: [usize; counts::KINDS],
    cpu: usize,
) -> Checked
    ensures { ObjectFaults text.now p.now st.now x.now parts statements counts cpu result }
{
    let a = too_few(counts, cpu);
    let n = cells::least_of(parts, part::ROWS);
    let b = check_parts(p, x, n);
    let y = merging::firsts(text, p, p.len(), n);
    let e = name_fault(p, &y, n);
    let c = parts::room_fault(
        p,
        object::WIDTH,
        part::MOST,
        object::WORD,
        parts,
        refusals::MANY_APPLIED,
    );
    let d = parts::room_fault(
        st,
        statement::WIDTH,
        statement::MOST,
        statement::NAME,
        statements,
        refusals::MANY_APPLIED,
    );
    let own = b.fault;
    let f = faults::sooner(
        a,
        faults::sooner(own, faults::sooner(faults::sooner(c, d), e)),
    );
    let of_kinds = b.counts;
    Checked {
        fault: f,
        objects: b.objects,
        counts: of_kinds,
    }
}
