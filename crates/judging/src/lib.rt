// The faults 13 to 16 and 18: the statements of a text, judged over the rows kept while it was read.
#![tactic(auto)]

ghost use Rattle.std.specs.Prelude.{◌≡◌, ◌<◌, length, replicate};
ghost use Rattle.lookups.specs.Ranks.{Firsts};
ghost use Rattle.lookups.specs.Owners.{Owners};
ghost use Rattle.judging.specs.Names.{Ready, MarksReady, Blank, SameRoom, StaysBlank};
ghost use Rattle.lookups.specs.Names.{Ranks, Names, statement_ranks, owner_words};
ghost use Rattle.judging.specs.Promises.{LackFault, Judges, JudgesOne, JudgesBlock, JudgesObject, JudgesObjects, JudgesAll};

use amounts::ranges;
use blocks::after;
use layout::{definition, enumerator, object, statement};
use lookups::names;
use rows::{Fault, cells, counts, faults, refusals};
use scopes::Sizes;

mod marking;
pub mod values;
pub mod wanting;

// 16 at the owner's word, where the block lacks an attribute of the scope of the word at key; 0 is no word's place. Here and below `first` has the
// first row of each rank in the block, or no cell.
fn lack_fault(
    text: &[u8],
    d: &[usize],
    st: &[usize],
    names: &[usize],
    first: &[usize],
    missing: &[usize],
    z: Sizes,
    key: usize,
    from: usize,
    end: usize,
    owner: usize,
) -> Option<Fault>
    requires { Ranks text.now d.now st.now names.now × Firsts st.now (statement_ranks names.now) from end first.now × Owners d.now missing.now (owner_words names.now) }
    ensures { LackFault text.now d.now st.now missing.now z key from end owner result }
{
    if key == 0 {
        return None;
    }
    if names::is_owner(names, key) {
        return faults::fault_if(
            marking::lacks(
                text,
                d,
                st,
                names,
                first,
                missing,
                z.definitions,
                key,
                from,
                end,
            ),
            refusals::NOT_STATED,
            owner,
        );
    }
    None
}

// The faults of the statements of a block, in the scope of the word at key. Here and below `names` is the table of names; `known` has the marks of the
// rows, and after them what is known of the ranges.
#[cycle(judge_judge_block_judge_one)]
fn judge(
    text: &[u8],
    d: &[usize],
    e: &[usize],
    o: &[usize],
    st: &[usize],
    names: &[usize],
    first: &[usize],
    known: &[usize],
    z: Sizes,
    key: usize,
    from: usize,
    end: usize,
) -> Option<Fault>
    requires { Ready text.now d.now e.now o.now st.now z names.now known.now × Firsts st.now (statement_ranks names.now) from end first.now }
    ensures { Judges text.now d.now e.now o.now st.now known.now z key from end result }
{
    let mut best = None;
    let mut k = from;
    // A `while`: the next statement of the block is behind the rows in this one's braces.
    while k < end {
        let next = after(st, k, end);
        let f = judge_one(
            text, d, e, o, st, names, first, known, z, key, from, k, next, end,
        );
        best = faults::sooner(best, f);
        k = next;
    }
    best
}

// The faults of one statement of the block that ends before row `end`, and of those in its braces, the rows from k + 1 to `next`.
#[cycle(judge_judge_block_judge_one)]
fn judge_one(
    text: &[u8],
    d: &[usize],
    e: &[usize],
    o: &[usize],
    st: &[usize],
    names: &[usize],
    first: &[usize],
    known: &[usize],
    z: Sizes,
    key: usize,
    from: usize,
    k: usize,
    next: usize,
    end: usize,
) -> Option<Fault>
    requires { (k < next) × Ready text.now d.now e.now o.now st.now z names.now known.now × Firsts st.now (statement_ranks names.now) from end first.now }
    ensures { JudgesOne text.now d.now e.now o.now st.now known.now z key from k next end result }
{
    let name = cells::cell_of(st, statement::WIDTH, k, statement::NAME);
    let size = cells::cell_of(st, statement::WIDTH, k, statement::NAME_LENGTH);
    let Some(j) = names::find_definition(text, d, names, z.definitions, key, name, size) else {
        return Some(Fault {
            number: refusals::NOT_DEFINED,
            place: name,
        });
    };
    let at = cells::cell_of(st, statement::WIDTH, k, statement::VALUE);
    let len = cells::cell_of(st, statement::WIDTH, k, statement::VALUE_LENGTH);
    let under = names::word_under(text, d, e, names, z.enumerators, j, at, len);
    let f = values::own_fault(
        text, d, e, o, st, names, first, known, z, from, k, end, j, under,
    );
    if f.is_some() {
        return f;
    }
    judge_block(text, d, e, o, st, names, known, z, under, k + 1, next, at)
}

// 16 at the owner's word, and the faults of the statements of its block. A block of few rows is searched row by row; in another the first row of each
// rank is noted.
#[cycle(judge_judge_block_judge_one)]
fn judge_block(
    text: &[u8],
    d: &[usize],
    e: &[usize],
    o: &[usize],
    st: &[usize],
    names: &[usize],
    known: &[usize],
    z: Sizes,
    key: usize,
    from: usize,
    end: usize,
    owner: usize,
) -> Option<Fault>
    requires { Ready text.now d.now e.now o.now st.now z names.now known.now }
    ensures { JudgesBlock text.now d.now e.now o.now st.now known.now z key from end owner result }
{
    if end <= from {
        return lack_fault(
            text,
            d,
            st,
            names,
            &names[..0],
            known,
            z,
            key,
            from,
            end,
            owner,
        );
    }
    if end - from < 8 {
        let a = lack_fault(
            text,
            d,
            st,
            names,
            &names[..0],
            known,
            z,
            key,
            from,
            end,
            owner,
        );
        let b = judge(
            text,
            d,
            e,
            o,
            st,
            names,
            &names[..0],
            known,
            z,
            key,
            from,
            end,
        );
        return faults::sooner(a, b);
    }
    if z.definitions < lookups::FEW {
        let mut few = [end; lookups::FEW];
        names::fill_firsts(st, names, &mut few, from, end);
        let a = lack_fault(text, d, st, names, &few, known, z, key, from, end, owner);
        let b = judge(text, d, e, o, st, names, &few, known, z, key, from, end);
        return faults::sooner(a, b);
    }
    let mut first = [end; definition::ROWS];
    names::fill_firsts(st, names, &mut first, from, end);
    let a = lack_fault(text, d, st, names, &first, known, z, key, from, end, owner);
    let b = judge(text, d, e, o, st, names, &first, known, z, key, from, end);
    faults::sooner(a, b)
}

// The faults of the object of row i, in the scope of its kind.
fn judge_object(
    text: &[u8],
    d: &[usize],
    e: &[usize],
    o: &[usize],
    st: &[usize],
    names: &[usize],
    known: &[usize],
    z: Sizes,
    places: &[usize],
    i: usize,
) -> Option<Fault>
    requires { Ready text.now d.now e.now o.now st.now z names.now known.now }
    ensures { JudgesObject text.now d.now e.now o.now st.now known.now z places.now i result }
{
    let kind = cells::cell_of(o, object::WIDTH, i, object::KIND);
    let key = cells::get(places, kind);
    let owner = cells::cell_of(o, object::WIDTH, i, object::NAME);
    let from = cells::cell_of(o, object::WIDTH, i, object::FIRST);
    let end = cells::cell_of(o, object::WIDTH, i, object::END);
    judge_block(text, d, e, o, st, names, known, z, key, from, end, owner)
}

// The faults of all objects.
fn judge_objects(
    text: &[u8],
    d: &[usize],
    e: &[usize],
    o: &[usize],
    st: &[usize],
    names: &[usize],
    known: &[usize],
    z: Sizes,
    places: &[usize],
) -> Option<Fault>
    requires { Ready text.now d.now e.now o.now st.now z names.now known.now }
    ensures { JudgesObjects text.now d.now e.now o.now st.now known.now z places.now result }
{
    let mut best = None;
    for i in 0..z.objects {
        let f = judge_object(text, d, e, o, st, names, known, z, places, i);
        best = faults::sooner(best, f);
    }
    best
}

// The faults of all objects, where `missing` has the marks of the rows; `wanted` says which ranges are noted, and `known` and `spare` are room for them.
fn judge_ranged(
    text: &[u8],
    d: &[usize],
    e: &[usize],
    o: &[usize],
    st: &[usize],
    names: &[usize],
    missing: &[usize],
    wanted: &[usize],
    known: &mut [usize],
    spare: &mut [usize],
    z: Sizes,
    places: &[usize],
) -> Option<Fault>
    requires { MarksReady text.now d.now e.now o.now st.now z names.now missing.now × Blank known.old }
    ensures judges { JudgesObjects text.now d.now e.now o.now st.now missing.now z places.now result }
    ensures lends { SameRoom spare.old spare.new }
{
    amounts::noting::note_ranges(text, d, wanted, z.definitions, known, spare);
    cells::put_cells(known, 0, missing);
    judge_objects(text, d, e, o, st, names, known, z, places)
}

// The same with room for few numbers in lists.
fn judge_few(
    text: &[u8],
    d: &[usize],
    e: &[usize],
    o: &[usize],
    st: &[usize],
    names: &[usize],
    missing: &[usize],
    wanted: &[usize],
    z: Sizes,
    places: &[usize],
) -> Option<Fault>
    requires { MarksReady text.now d.now e.now o.now st.now z names.now missing.now }
    ensures { JudgesObjects text.now d.now e.now o.now st.now missing.now z places.now result }
{
    let mut known = [0; ranges::FEW_ROOM];
    let mut spare = [0; ranges::FEW / 2];
    judge_ranged(
        text, d, e, o, st, names, missing, wanted, &mut known, &mut spare, z, places,
    )
}

// The same with room for as many as a text can have; `lent` is blank room for sorting them, and blank again in the end.
fn judge_many(
    text: &[u8],
    d: &[usize],
    e: &[usize],
    o: &[usize],
    st: &[usize],
    names: &[usize],
    missing: &[usize],
    wanted: &[usize],
    lent: &mut [usize],
    z: Sizes,
    places: &[usize],
) -> Option<Fault>
    requires { MarksReady text.now d.now e.now o.now st.now z names.now missing.now }
    ensures judges { JudgesObjects text.now d.now e.now o.now st.now missing.now z places.now result }
    ensures blank { lent.new ≡ replicate (length lent.old) 0 }
{
    let mut known = [0; ranges::ROOM];
    let f = judge_ranged(
        text, d, e, o, st, names, missing, wanted, &mut known, lent, z, places,
    );
    cells::clear(lent);
    f
}

// The fault by which the stage of 13 to 16 and 18 answers; `places` are those of the thirteen kinds' words. The words under which something must be
// stated are put into the table of names. Blank room that is lent is blank again in the end.
pub fn judge_all(
    text: &[u8],
    d: &[usize],
    e: &[usize],
    o: &[usize],
    st: &[usize],
    names: &mut [usize],
    lent: &mut [usize],
    z: Sizes,
    places: [usize; counts::KINDS],
) -> Option<Fault>
    requires { Names text.now d.now e.now o.now st.now z names.old }
    ensures judges { JudgesAll text.now d.now e.now o.now st.now z places result }
    ensures keeps { Names text.now d.now e.now o.now st.now z names.new }
    ensures lends { StaysBlank lent.old lent.new }
{
    if definition::MOST < z.definitions {
        return None;
    }
    if enumerator::MOST < z.enumerators {
        return None;
    }
    if object::MOST < z.objects {
        return None;
    }
    let missing = marking::marks(text, d, e, st, names, z);
    let owners = lookups::owners::owners(d, &missing);
    cells::put_cells(names, names::OWNERS, &owners);
    let wanted = wanting::wanted(st, names);
    if wanting::in_lists(text, d, &wanted) < ranges::FEW {
        return judge_few(text, d, e, o, st, names, &missing, &wanted, z, &places);
    }
    judge_many(
        text, d, e, o, st, names, &missing, &wanted, lent, z, &places,
    )
}
