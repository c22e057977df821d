// Of a text that is refused with 13 to 16 or 18 at a place: the statement there, its attribute, and what its owner lacks.
#![tactic(auto)]

ghost use Rattle.std.specs.Prelude.{◌≡◌};
ghost use Rattle.statement_causes.specs.Promises.{Looked, touched, FindsInner, Seeks, SeeksObject, SeeksAll, RowTold, TellsAttribute, TellsFirst, single_place, MissesRow, Misses, MissesObject, MissesInside, MissesAt, TellsRows, TellsKept};
ghost use Rattle.statement_causes.specs.Tellings.{Tells};
ghost use Rattle.blocks.specs.Blocks.{IsStated};

use blocks::after;
use layout::{definition, enumerator, object, statement, word_codes};
use lookups::names;
use reading::Decision;
use rows::{cells, counts, faults, finding};
use scopes::Sizes;

// Where a statement stands in the rows: the place of the word of its scope, the rows of its block, its own row.
#[derive(Clone, Copy)]
pub struct Spot {
    pub found: bool,
    pub key: usize,
    pub from: usize,
    pub row: usize,
    pub end: usize,
}

// An attribute where it is defined: place and length of its name, of its type's word and of its range (0 and 0 for none), the code of the type's word,
// and 1 for WITH_AUTO.
#[derive(Clone, Copy)]
pub struct Attribute {
    pub found: bool,
    pub name: usize,
    pub name_len: usize,
    pub word: usize,
    pub word_len: usize,
    pub code: usize,
    pub range: usize,
    pub range_len: usize,
    pub auto: usize,
}

// What is told of a place: of the statement there the word of its scope, its attribute, and where its name is stated first in its block; of the owner
// there the name of an attribute that it lacks. 0 for none.
#[derive(Clone, Copy)]
pub struct Told {
    pub scope: usize,
    pub attribute: Attribute,
    pub first: usize,
    pub missing: usize,
}

// Whether the name of the statement of row k, its value or the brace behind it stands at a place.
fn touches(st: &[usize], k: usize, place: usize) -> bool
    ensures { result ≡ touched st.now k place }
{
    if cells::cell_of(st, statement::WIDTH, k, statement::NAME) == place {
        return true;
    }
    if cells::cell_of(st, statement::WIDTH, k, statement::VALUE) == place {
        return true;
    }
    cells::cell_of(st, statement::WIDTH, k, statement::BRACE) == place
}

// The place of the word of the scope of the braces of the statement of row k, in the scope of the word at key; 0 for none.
fn scope_inside(
    text: &[u8],
    d: &[usize],
    e: &[usize],
    st: &[usize],
    names: &[usize],
    z: Sizes,
    key: usize,
    k: usize,
) -> usize
    requires { Looked text.now d.now e.now z names.now }
    ensures { FindsInner text.now d.now e.now st.now z key k result }
{
    let name = cells::cell_of(st, statement::WIDTH, k, statement::NAME);
    let size = cells::cell_of(st, statement::WIDTH, k, statement::NAME_LENGTH);
    let Some(j) = names::find_definition(text, d, names, z.definitions, key, name, size) else {
        return 0;
    };
    let at = cells::cell_of(st, statement::WIDTH, k, statement::VALUE);
    let len = cells::cell_of(st, statement::WIDTH, k, statement::VALUE_LENGTH);
    names::word_under(text, d, e, names, z.enumerators, j, at, len)
}

// The statement that is touched at a place, of the rows from `from` to `end`, a block in the scope of the word at key.
fn seek(
    text: &[u8],
    d: &[usize],
    e: &[usize],
    st: &[usize],
    names: &[usize],
    z: Sizes,
    key: usize,
    from: usize,
    end: usize,
    place: usize,
) -> Spot
    requires { Looked text.now d.now e.now z names.now }
    ensures { Seeks text.now d.now e.now st.now z key from end place result }
{
    let mut k = from;
    // A `while`: the next statement of the block stands behind the braces of this one, so no range counts it.
    while k < end {
        if touches(st, k, place) {
            return Spot {
                found: true,
                key,
                from,
                row: k,
                end,
            };
        }
        let next = after(st, k, end);
        let under = scope_inside(text, d, e, st, names, z, key, k);
        let inner = seek(text, d, e, st, names, z, under, k + 1, next, place);
        if inner.found {
            return inner;
        }
        k = next;
    }
    Spot {
        found: false,
        key: 0,
        from: 0,
        row: 0,
        end: 0,
    }
}

// The same of the object of row i.
fn seek_object(
    text: &[u8],
    d: &[usize],
    e: &[usize],
    o: &[usize],
    st: &[usize],
    names: &[usize],
    z: Sizes,
    places: &[usize],
    i: usize,
    place: usize,
) -> Spot
    requires { Looked text.now d.now e.now z names.now }
    ensures { SeeksObject text.now d.now e.now o.now st.now z places.now i place result }
{
    let kind = cells::cell_of(o, object::WIDTH, i, object::KIND);
    let key = cells::get(places, kind);
    let from = cells::cell_of(o, object::WIDTH, i, object::FIRST);
    let end = cells::cell_of(o, object::WIDTH, i, object::END);
    seek(text, d, e, st, names, z, key, from, end, place)
}

// The same of all objects.
fn seek_all(
    text: &[u8],
    d: &[usize],
    e: &[usize],
    o: &[usize],
    st: &[usize],
    names: &[usize],
    z: Sizes,
    places: &[usize],
    place: usize,
) -> Spot
    requires { Looked text.now d.now e.now z names.now }
    ensures { SeeksAll text.now d.now e.now o.now st.now z places.now place result }
{
    for i in 0..z.objects {
        let spot = seek_object(text, d, e, o, st, names, z, places, i, place);
        if spot.found {
            return spot;
        }
    }
    Spot {
        found: false,
        key: 0,
        from: 0,
        row: 0,
        end: 0,
    }
}

// What the row j of the definitions tells.
fn attribute_row(d: &[usize], j: usize) -> Attribute
    ensures { RowTold d.now j result }
{
    Attribute {
        found: true,
        name: cells::cell_of(d, definition::WIDTH, j, definition::NAME),
        name_len: cells::cell_of(d, definition::WIDTH, j, definition::NAME_LENGTH),
        word: cells::cell_of(d, definition::WIDTH, j, definition::TYPE),
        word_len: cells::cell_of(d, definition::WIDTH, j, definition::TYPE_LENGTH),
        code: cells::cell_of(d, definition::WIDTH, j, definition::CODE),
        range: cells::cell_of(d, definition::WIDTH, j, definition::RANGE),
        range_len: cells::cell_of(d, definition::WIDTH, j, definition::RANGE_LENGTH),
        auto: cells::cell_of(d, definition::WIDTH, j, definition::AUTO),
    }
}

// The attribute of the statement of a spot.
fn attribute_of(
    text: &[u8],
    d: &[usize],
    e: &[usize],
    st: &[usize],
    names: &[usize],
    z: Sizes,
    spot: Spot,
) -> Attribute
    requires { Looked text.now d.now e.now z names.now }
    ensures { TellsAttribute text.now d.now e.now st.now z spot result }
{
    let none = Attribute {
        found: false,
        name: 0,
        name_len: 0,
        word: 0,
        word_len: 0,
        code: 0,
        range: 0,
        range_len: 0,
        auto: 0,
    };
    if !spot.found {
        return none;
    }
    let name = cells::cell_of(st, statement::WIDTH, spot.row, statement::NAME);
    let size = cells::cell_of(st, statement::WIDTH, spot.row, statement::NAME_LENGTH);
    let Some(j) = names::find_definition(text, d, names, z.definitions, spot.key, name, size) else {
        return none;
    };
    attribute_row(d, j)
}

// Where the name of the statement of a spot is stated first in its block; 0 where there is none.
fn first_of(text: &[u8], st: &[usize], spot: Spot) -> usize
    ensures { TellsFirst text.now st.now spot result }
{
    if !spot.found {
        return 0;
    }
    let name = cells::cell_of(st, statement::WIDTH, spot.row, statement::NAME);
    let size = cells::cell_of(st, statement::WIDTH, spot.row, statement::NAME_LENGTH);
    let Some(k) = blocks::stated(text, st, spot.from, spot.end, name, size) else {
        return 0;
    };
    cells::cell_of(st, statement::WIDTH, k, statement::NAME)
}

// The place of the name of the attribute of row j where it is single, 0 of a list.
fn single_place(d: &[usize], j: usize) -> usize
    ensures { result ≡ single_place d.now j }
{
    if cells::cell_of(d, definition::WIDTH, j, definition::LIST) == 0 {
        return cells::cell_of(d, definition::WIDTH, j, definition::NAME);
    }
    0
}

// Whether a block states a name.
fn is_stated(text: &[u8], st: &[usize], from: usize, end: usize, at: usize, len: usize) -> bool
    ensures { IsStated text.now st.now from end at len result }
{
    match blocks::stated(text, st, from, end, at, len) {
        Some(_) => true,
        None => false,
    }
}

// What is missing in a block because of the attribute of row j: its name's place, or that of one under its default; 0 for nothing.
#[cycle(missing_missing_of)]
fn missing_of(
    text: &[u8],
    d: &[usize],
    e: &[usize],
    st: &[usize],
    names: &[usize],
    z: Sizes,
    j: usize,
    from: usize,
    end: usize,
) -> usize
    requires { Looked text.now d.now e.now z names.now }
    ensures { MissesRow text.now d.now e.now st.now z j from end result }
{
    let name = cells::cell_of(d, definition::WIDTH, j, definition::NAME);
    let size = cells::cell_of(d, definition::WIDTH, j, definition::NAME_LENGTH);
    if is_stated(text, st, from, end, name, size) {
        return 0;
    }
    let len = cells::cell_of(d, definition::WIDTH, j, definition::DEFAULT_LENGTH);
    if len == 0 {
        return single_place(d, j);
    }
    if cells::cell_of(d, definition::WIDTH, j, definition::DEFAULT_CODE) == word_codes::NO_DEFAULT {
        return single_place(d, j);
    }
    let at = cells::cell_of(d, definition::WIDTH, j, definition::DEFAULT);
    let key = names::word_under(text, d, e, names, z.enumerators, j, at, len);
    missing(text, d, e, st, names, z, j, key, 0, 0)
}

// The same because of the attributes under the word at key, which are among the first n rows.
#[cycle(missing_missing_of)]
fn missing(
    text: &[u8],
    d: &[usize],
    e: &[usize],
    st: &[usize],
    names: &[usize],
    z: Sizes,
    n: usize,
    key: usize,
    from: usize,
    end: usize,
) -> usize
    requires { Looked text.now d.now e.now z names.now }
    ensures { Misses text.now d.now e.now st.now z n key from end result }
{
    if key == 0 {
        return 0;
    }
    let mut i = 0;
    // A `while`: the next row is the next one under the word, so no range counts it.
    while i < n {
        let Some(j) = finding::find_row(d, definition::WIDTH, n, definition::UNDER, key, i) else {
            return 0;
        };
        let r = missing_of(text, d, e, st, names, z, j, from, end);
        if r != 0 {
            return r;
        }
        i = j + 1;
    }
    0
}

// What the object of row i lacks.
fn missing_object(
    text: &[u8],
    d: &[usize],
    e: &[usize],
    o: &[usize],
    st: &[usize],
    names: &[usize],
    z: Sizes,
    places: &[usize],
    i: usize,
) -> usize
    requires { Looked text.now d.now e.now z names.now }
    ensures { MissesObject text.now d.now e.now o.now st.now z places.now i result }
{
    let kind = cells::cell_of(o, object::WIDTH, i, object::KIND);
    let key = cells::get(places, kind);
    let from = cells::cell_of(o, object::WIDTH, i, object::FIRST);
    let end = cells::cell_of(o, object::WIDTH, i, object::END);
    missing(text, d, e, st, names, z, z.definitions, key, from, end)
}

// What the value of the statement of a spot lacks.
fn missing_inside(
    text: &[u8],
    d: &[usize],
    e: &[usize],
    st: &[usize],
    names: &[usize],
    z: Sizes,
    spot: Spot,
) -> usize
    requires { Looked text.now d.now e.now z names.now }
    ensures { MissesInside text.now d.now e.now st.now z spot result }
{
    if !spot.found {
        return 0;
    }
    if spot.end <= spot.row {
        return 0;
    }
    let next = after(st, spot.row, spot.end);
    let under = scope_inside(text, d, e, st, names, z, spot.key, spot.row);
    missing(
        text,
        d,
        e,
        st,
        names,
        z,
        z.definitions,
        under,
        spot.row + 1,
        next,
    )
}

// What the owner at a place lacks: an object, or the value of the statement of the spot.
fn missing_at(
    text: &[u8],
    d: &[usize],
    e: &[usize],
    o: &[usize],
    st: &[usize],
    names: &[usize],
    z: Sizes,
    places: &[usize],
    spot: Spot,
    place: usize,
) -> usize
    requires { Looked text.now d.now e.now z names.now }
    ensures { MissesAt text.now d.now e.now o.now st.now z places.now spot place result }
{
    let Some(i) = finding::find_row(o, object::WIDTH, z.objects, object::NAME, place, 0) else {
        return missing_inside(text, d, e, st, names, z, spot);
    };
    missing_object(text, d, e, o, st, names, z, places, i)
}

// All of it.
fn tell_rows(
    text: &[u8],
    d: &[usize],
    e: &[usize],
    o: &[usize],
    st: &[usize],
    names: &[usize],
    z: Sizes,
    places: [usize; counts::KINDS],
    place: usize,
) -> Told
    requires { Looked text.now d.now e.now z names.now }
    ensures { TellsRows text.now d.now e.now o.now st.now z places place result }
{
    let spot = seek_all(text, d, e, o, st, names, z, &places, place);
    let attribute = attribute_of(text, d, e, st, names, z, spot);
    let first = first_of(text, st, spot);
    let missing = missing_at(text, d, e, o, st, names, z, &places, spot, place);
    Told {
        scope: spot.key,
        attribute,
        first,
        missing,
    }
}

// Nothing is told.
fn nothing() -> Told {
    Told {
        scope: 0,
        attribute: Attribute {
            found: false,
            name: 0,
            name_len: 0,
            word: 0,
            word_len: 0,
            code: 0,
            range: 0,
            range_len: 0,
            auto: 0,
        },
        first: 0,
        missing: 0,
    }
}

// The same of a text that passes the stages before 13, whose rows are in the tables.
fn tell_kept(
    text: &[u8],
    d: &[usize],
    e: &[usize],
    o: &[usize],
    st: &[usize],
    decision: Decision,
    place: usize,
) -> Told
    ensures { TellsKept text.now (record { definitions = d.now; enumerators = e.now; objects = o.now; statements = st.now }) decision place result }
{
    let w = decision.walked;
    let places = w.places;
    let z = Sizes {
        definitions: w.definitions,
        enumerators: w.enumerators,
        objects: decision.objects,
    };
    if definition::MOST < z.definitions {
        return nothing();
    }
    if enumerator::MOST < z.enumerators {
        return nothing();
    }
    if object::MOST < z.objects {
        return nothing();
    }
    let mut table = [0; names::CELLS];
    names::note(text, d, e, o, st, z, w.statements, &mut table);
    tell_rows(text, d, e, o, st, &table, z, places, place)
}

// What is told of a place of a text that is refused with 13 to 16 or 18 there.
pub fn tell(text: &[u8], place: usize) -> Told
    ensures { Tells text.now place result }
{
    if token::LONGEST < text.len() {
        return nothing();
    }
    let mut d = [0; definition::KEPT];
    let mut e = [0; enumerator::KEPT];
    let mut o = [0; object::KEPT];
    let mut s = [0; statement::KEPT];
    let r = reading::decide(text, &mut d, &mut e, &mut o, &mut s);
    match r.fault {
        Some(_) => nothing(),
        None => tell_kept(text, &d, &e, &o, &s, r, place),
    }
}
