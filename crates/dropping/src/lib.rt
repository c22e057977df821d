// The statements that are dropped where a text is mended (document 02, Q-11): each statement at fault by 13 or 14, over the rows kept while the text
// was read.
#![tactic(auto)]

ghost use Rattle.std.specs.Prelude.{◌≡◌, ◌+◌, ◌<◌, set};
ghost use Rattle.lookups.specs.Ranks.{Firsts};
ghost use Rattle.lookups.specs.Names.{Named, Names, statement_ranks};
ghost use Rattle.judging.specs.Names.{Blank};
ghost use Rattle.dropping.specs.Promises.{Prepared, Verdicts, DropsOne, DropsBlock, DropsObject, DropsAll};

use amounts::ranges;
use blocks::after;
use judging::{values, wanting};
use layout::{definition, enumerator, object, statement};
use lookups::names;
use rows::{cells, counts, refusals};
use scopes::Sizes;

// The number at a place of the marks; a place past their end is not stored.
fn mark(marks: &mut [u8], place: usize, number: u8)
    ensures { marks.new ≡ set marks.old place number }
{
    if marks.len() <= place {
        return;
    }
    marks[place] = number;
}

// The verdict on the statement of row k without its braces, in the block from `from` to `end`, whose scope is that of the word at key: the place of the
// word whose scope its braces have, or its refusal's number. Here and below `names` is the table of names, `first` has the first row of each rank in
// the block, and `known` what is known of the ranges.
fn verdict_on(
    text: &[u8],
    d: &[usize],
    e: &[usize],
    o: &[usize],
    st: &[usize],
    names: &[usize],
    first: &[usize],
    known: &[usize],
    z: Sizes,
    key: usize,
    from: usize,
    k: usize,
    end: usize,
) -> Result<usize, u8>
    requires { Prepared text.now d.now e.now o.now st.now z names.now known.now × Firsts st.now (statement_ranks names.now) from end first.now }
    ensures { Verdicts text.now d.now e.now o.now st.now z key from k end result }
{
    let name = cells::cell_of(st, statement::WIDTH, k, statement::NAME);
    let size = cells::cell_of(st, statement::WIDTH, k, statement::NAME_LENGTH);
    let Some(j) = names::find_definition(text, d, names, z.definitions, key, name, size) else {
        return Err(refusals::NOT_DEFINED);
    };
    if values::again(text, d, e, o, st, names, first, z, from, k, end, j) {
        return Err(refusals::STATED_AGAIN);
    }
    let at = cells::cell_of(st, statement::WIDTH, k, statement::VALUE);
    let len = cells::cell_of(st, statement::WIDTH, k, statement::VALUE_LENGTH);
    let under = names::word_under(text, d, e, names, z.enumerators, j, at, len);
    match values::value_fault(text, d, e, o, st, names, known, z, k, j, under) {
        Some(f) => Err(f.number),
        None => Ok(under),
    }
}

// Marks the drop of the statement of row k, in whose braces nothing stands: by 13 or 14, whatever its value is.
fn drop_alone(
    text: &[u8],
    d: &[usize],
    e: &[usize],
    o: &[usize],
    st: &[usize],
    names: &[usize],
    first: &[usize],
    z: Sizes,
    key: usize,
    from: usize,
    k: usize,
    end: usize,
    marks: &mut [u8],
)
    requires { Named text.now d.now e.now o.now st.now z names.now × Firsts st.now (statement_ranks names.now) from end first.now }
    ensures { DropsOne text.now d.now e.now o.now st.now z key from k (k + 1) end marks.old marks.new }
{
    let name = cells::cell_of(st, statement::WIDTH, k, statement::NAME);
    let size = cells::cell_of(st, statement::WIDTH, k, statement::NAME_LENGTH);
    let Some(j) = names::find_definition(text, d, names, z.definitions, key, name, size) else {
        mark(marks, name, refusals::NOT_DEFINED);
        return;
    };
    if values::again(text, d, e, o, st, names, first, z, from, k, end, j) {
        mark(marks, name, refusals::STATED_AGAIN);
    }
}

// Marks the drops of a block's statements, in the scope of the word at key.
#[cycle(drop_block_drop_one_drop_statements)]
fn drop_statements(
    text: &[u8],
    d: &[usize],
    e: &[usize],
    o: &[usize],
    st: &[usize],
    names: &[usize],
    first: &[usize],
    known: &[usize],
    z: Sizes,
    key: usize,
    from: usize,
    end: usize,
    marks: &mut [u8],
)
    requires { Prepared text.now d.now e.now o.now st.now z names.now known.now × Firsts st.now (statement_ranks names.now) from end first.now }
    ensures { DropsBlock text.now d.now e.now o.now st.now z key from end marks.old marks.new }
{
    let mut k = from;
    // A `while`: the next statement of the block stands after the rows of those in the braces of this one.
    while k < end {
        let next = after(st, k, end);
        drop_one(
            text, d, e, o, st, names, first, known, z, key, from, k, next, end, marks,
        );
        k = next;
    }
}

// The same of one statement of the block that ends before row `end`: it is dropped itself, or those in its braces are, the rows from k + 1 to `next`.
#[cycle(drop_block_drop_one_drop_statements)]
fn drop_one(
    text: &[u8],
    d: &[usize],
    e: &[usize],
    o: &[usize],
    st: &[usize],
    names: &[usize],
    first: &[usize],
    known: &[usize],
    z: Sizes,
    key: usize,
    from: usize,
    k: usize,
    next: usize,
    end: usize,
    marks: &mut [u8],
)
    requires { (k < next) × Prepared text.now d.now e.now o.now st.now z names.now known.now × Firsts st.now (statement_ranks names.now) from end first.now }
    ensures { DropsOne text.now d.now e.now o.now st.now z key from k next end marks.old marks.new }
{
    if next <= k + 1 {
        drop_alone(text, d, e, o, st, names, first, z, key, from, k, end, marks);
        return;
    }
    match verdict_on(text, d, e, o, st, names, first, known, z, key, from, k, end) {
        Ok(under) => {
            drop_block(
                text,
                d,
                e,
                o,
                st,
                names,
                known,
                z,
                under,
                k + 1,
                next,
                marks,
            );
        }
        Err(number) => {
            if refusals::STATED_AGAIN < number {
                return;
            }
            let name = cells::cell_of(st, statement::WIDTH, k, statement::NAME);
            mark(marks, name, number);
        }
    }
}

// The same of a block.
#[cycle(drop_block_drop_one_drop_statements)]
fn drop_block(
    text: &[u8],
    d: &[usize],
    e: &[usize],
    o: &[usize],
    st: &[usize],
    names: &[usize],
    known: &[usize],
    z: Sizes,
    key: usize,
    from: usize,
    end: usize,
    marks: &mut [u8],
)
    requires { Prepared text.now d.now e.now o.now st.now z names.now known.now }
    ensures { DropsBlock text.now d.now e.now o.now st.now z key from end marks.old marks.new }
{
    if end <= from {
        return;
    }
    if end - from < 8 {
        drop_statements(
            text,
            d,
            e,
            o,
            st,
            names,
            &names[..0],
            known,
            z,
            key,
            from,
            end,
            marks,
        );
        return;
    }
    if z.definitions < lookups::FEW {
        let mut few = [end; lookups::FEW];
        names::fill_firsts(st, names, &mut few, from, end);
        drop_statements(
            text, d, e, o, st, names, &few, known, z, key, from, end, marks,
        );
        return;
    }
    let mut first = [end; definition::ROWS];
    names::fill_firsts(st, names, &mut first, from, end);
    drop_statements(
        text, d, e, o, st, names, &first, known, z, key, from, end, marks,
    );
}

// The same of the object of row i, in the scope of its kind.
fn drop_object(
    text: &[u8],
    d: &[usize],
    e: &[usize],
    o: &[usize],
    st: &[usize],
    names: &[usize],
    known: &[usize],
    z: Sizes,
    places: &[usize],
    i: usize,
    marks: &mut [u8],
)
    requires { Prepared text.now d.now e.now o.now st.now z names.now known.now }
    ensures { DropsObject text.now d.now e.now o.now st.now z places.now i marks.old marks.new }
{
    let kind = cells::cell_of(o, object::WIDTH, i, object::KIND);
    let key = cells::get(places, kind);
    let from = cells::cell_of(o, object::WIDTH, i, object::FIRST);
    let end = cells::cell_of(o, object::WIDTH, i, object::END);
    drop_block(text, d, e, o, st, names, known, z, key, from, end, marks);
}

// The same of all objects.
fn drop_objects(
    text: &[u8],
    d: &[usize],
    e: &[usize],
    o: &[usize],
    st: &[usize],
    names: &[usize],
    known: &[usize],
    z: Sizes,
    places: &[usize],
    marks: &mut [u8],
)
    requires { Prepared text.now d.now e.now o.now st.now z names.now known.now }
    ensures { DropsAll text.now d.now e.now o.now st.now z places.now marks.old marks.new }
{
    for i in 0..z.objects {
        drop_object(text, d, e, o, st, names, known, z, places, i, marks);
    }
}

// The same; `wanted` says which ranges are noted, and `known` and `spare` are room for them.
fn drop_ranged(
    text: &[u8],
    d: &[usize],
    e: &[usize],
    o: &[usize],
    st: &[usize],
    names: &[usize],
    wanted: &[usize],
    known: &mut [usize],
    spare: &mut [usize],
    z: Sizes,
    places: &[usize],
    marks: &mut [u8],
)
    requires { Named text.now d.now e.now o.now st.now z names.now × Blank known.old }
    ensures { DropsAll text.now d.now e.now o.now st.now z places.now marks.old marks.new }
{
    amounts::noting::note_ranges(text, d, wanted, z.definitions, known, spare);
    drop_objects(text, d, e, o, st, names, known, z, places, marks);
}

// The same with room for few numbers in lists.
fn drop_few(
    text: &[u8],
    d: &[usize],
    e: &[usize],
    o: &[usize],
    st: &[usize],
    names: &[usize],
    wanted: &[usize],
    z: Sizes,
    places: &[usize],
    marks: &mut [u8],
)
    requires { Named text.now d.now e.now o.now st.now z names.now }
    ensures { DropsAll text.now d.now e.now o.now st.now z places.now marks.old marks.new }
{
    let mut known = [0; ranges::FEW_ROOM];
    let mut spare = [0; ranges::FEW / 2];
    drop_ranged(
        text, d, e, o, st, names, wanted, &mut known, &mut spare, z, places, marks,
    );
}

// The same with room for as many as a text can have.
fn drop_many(
    text: &[u8],
    d: &[usize],
    e: &[usize],
    o: &[usize],
    st: &[usize],
    names: &[usize],
    wanted: &[usize],
    z: Sizes,
    places: &[usize],
    marks: &mut [u8],
)
    requires { Named text.now d.now e.now o.now st.now z names.now }
    ensures { DropsAll text.now d.now e.now o.now st.now z places.now marks.old marks.new }
{
    let mut known = [0; ranges::ROOM];
    let mut spare = [0; ranges::MOST / 2];
    drop_ranged(
        text, d, e, o, st, names, wanted, &mut known, &mut spare, z, places, marks,
    );
}

// Marks each dropped statement of the text at the place of its name by its number, 13 or 14; `places` are those of the thirteen kinds' words.
pub fn drop_all(
    text: &[u8],
    d: &[usize],
    e: &[usize],
    o: &[usize],
    st: &[usize],
    names: &[usize],
    z: Sizes,
    places: [usize; counts::KINDS],
    marks: &mut [u8],
)
    requires { Names text.now d.now e.now o.now st.now z names.now }
    ensures { DropsAll text.now d.now e.now o.now st.now z places marks.old marks.new }
{
    if definition::MOST < z.definitions {
        return;
    }
    if enumerator::MOST < z.enumerators {
        return;
    }
    if object::MOST < z.objects {
        return;
    }
    let wanted = wanting::wanted(st, names);
    if wanting::listed(d, &wanted) < ranges::FEW {
        drop_few(text, d, e, o, st, names, &wanted, z, &places, marks);
        return;
    }
    drop_many(text, d, e, o, st, names, &wanted, z, &places, marks);
}
