// Two releases compared (document 02, Q-8): from the texts to the records.
#![tactic(auto)]

ghost use Rattle.std.specs.Prelude.{◌≡◌, ◌≤◌, length};
ghost use Rattle.comparing.specs.Naming.{Index};
ghost use Rattle.comparing.specs.Differences.{compare_texts};
ghost use Rattle.reading.specs.Decisions.{RoomSizes};
ghost use Rattle.releases.specs.Promises.{Fitting, Prepares, NamedTold, PreparedTold, DifferencesTold, Counted, Stopped, Answered, SecondRead, Compares};

use comparing::{Compared, Difference, Found, Side, gathering, names};
use layout::{definition, enumerator, object, value};
use reading::Answer;
use rows::cells;

pub mod matching;
pub mod starts;

// A text with the tables of its rows, and how many rows of definitions, objects and values there are.
#[derive(Clone, Copy)]
pub struct Lent<'a> {
    pub side: Side<'a>,
    pub definitions: usize,
    pub objects: usize,
    pub values: usize,
}

// A text with what is made of its tables: the indexes of its definitions and its objects, the first rows of the objects' values; and how many
// objects it has.
#[derive(Clone, Copy)]
pub struct Release<'a> {
    pub side: Side<'a>,
    pub definitions: &'a [usize],
    pub objects: &'a [usize],
    pub starts: &'a [usize],
    pub many: usize,
}

// Makes x and y the indexes of the first definitions and objects, and st the first rows of the objects' values, of n rows in all.
fn prepare(side: Side, n: usize, x: &mut [usize], y: &mut [usize], st: &mut [usize])
    ensures { Prepares side.entry.text.now side.entry.definitions.now side.entry.objects.now side.entry.values.now n (length x.old) (length y.old) x.new y.new st.new }
{
    let mut room = [0; definition::MOST / 2];
    indexes::index(
        side.text,
        side.definitions,
        definition::LENT_WIDTH,
        definition::UNDER,
        definition::NAME,
        x,
        &mut room,
    );
    indexes::index(
        side.text,
        side.objects,
        object::LENT_WIDTH,
        object::KIND,
        object::NAME,
        y,
        &mut room,
    );
    starts::fill_starts(side.values, n, st);
}

// The differences, where h and h2 are room for the numbers of the definitions' names.
fn compare_named(a: Release, b: Release, h: &mut [usize], h2: &mut [usize]) -> Found
    requires { (Index a.side.text.now a.side.definitions.now a.definitions.now × Index b.side.text.now b.side.definitions.now b.definitions.now) × ((length h.old ≡ length a.definitions.now) × (length h2.old ≡ length b.definitions.now)) }
    ensures { NamedTold a.entry.side.text.now a.entry.side.definitions.now a.entry.side.objects.now a.entry.side.values.now a.entry.definitions.now a.entry.objects.now a.entry.starts.now a.entry.many b.entry.side.text.now b.entry.side.definitions.now b.entry.side.objects.now b.entry.side.values.now b.entry.definitions.now b.entry.objects.now b.entry.starts.now b.entry.many result }
{
    names::number_names(a.side, a.definitions, b.side, b.definitions, a.side, h);
    names::number_names(a.side, a.definitions, b.side, b.definitions, b.side, h2);
    matching::both_objects(gathering::nothing(), a, h, b, h2)
}

// The same with room for 512 names each.
fn compare_made(a: Release, b: Release) -> Found
    requires { (Index a.side.text.now a.side.definitions.now a.definitions.now × Index b.side.text.now b.side.definitions.now b.definitions.now) × ((length a.definitions.now ≤ 512) × (length b.definitions.now ≤ 512)) }
    ensures { NamedTold a.entry.side.text.now a.entry.side.definitions.now a.entry.side.objects.now a.entry.side.values.now a.entry.definitions.now a.entry.objects.now a.entry.starts.now a.entry.many b.entry.side.text.now b.entry.side.definitions.now b.entry.side.objects.now b.entry.side.values.now b.entry.definitions.now b.entry.objects.now b.entry.starts.now b.entry.many result }
{
    let n = a.definitions.len();
    let n2 = b.definitions.len();
    let mut h = [0; definition::MOST];
    let mut h2 = [0; definition::MOST];
    compare_named(a, b, &mut h[..n], &mut h2[..n2])
}

// The same with room for the indexes and the first rows.
fn compare_prepared(
    a: Lent,
    b: Lent,
    x: &mut [usize],
    y: &mut [usize],
    st: &mut [usize],
    x2: &mut [usize],
    y2: &mut [usize],
    st2: &mut [usize],
) -> Found
    requires { Fitting x.old x2.old y.old y2.old }
    ensures { PreparedTold a.entry.side.text.now a.entry.side.definitions.now a.entry.side.objects.now a.entry.side.values.now a.entry.objects a.entry.values (length x.old) (length y.old) (length st.old) b.entry.side.text.now b.entry.side.definitions.now b.entry.side.objects.now b.entry.side.values.now b.entry.objects b.entry.values (length x2.old) (length y2.old) (length st2.old) result }
{
    prepare(a.side, a.values, x, y, st);
    prepare(b.side, b.values, x2, y2, st2);
    let first = Release {
        side: a.side,
        definitions: x,
        objects: y,
        starts: st,
        many: a.objects,
    };
    let second = Release {
        side: b.side,
        definitions: x2,
        objects: y2,
        starts: st2,
        many: b.objects,
    };
    compare_made(first, second)
}

// The differences of two accepted texts.
pub fn differences_of(a: Lent, b: Lent) -> Found
    ensures { DifferencesTold a.entry.side.text.now a.entry.side.definitions.now a.entry.side.objects.now a.entry.side.values.now b.entry.side.text.now b.entry.side.definitions.now b.entry.side.objects.now b.entry.side.values.now a.entry.definitions a.entry.objects a.entry.values b.entry.definitions b.entry.objects b.entry.values result }
{
    let n = cells::least_of(a.definitions, definition::MOST);
    let m = cells::least_of(a.objects, object::MOST);
    let n2 = cells::least_of(b.definitions, definition::MOST);
    let m2 = cells::least_of(b.objects, object::MOST);
    let mut x = [0; definition::MOST];
    let mut y = [0; object::MOST];
    let mut st = [0; object::ROWS];
    let mut x2 = [0; definition::MOST];
    let mut y2 = [0; object::MOST];
    let mut st2 = [0; object::ROWS];
    compare_prepared(
        a,
        b,
        &mut x[..n],
        &mut y[..m],
        &mut st[..m + 1],
        &mut x2[..n2],
        &mut y2[..m2],
        &mut st2[..m2 + 1],
    )
}

// What was found, with the answer that tells its total.
fn counted(found: Found) -> Found
    ensures { Counted found result }
{
    let records = found.records;
    Found {
        total: found.total,
        records: records,
        compared: Compared {
            which: 0,
            number: 0,
            place: 0,
            total: found.total,
        },
    }
}

// The answer for a refused text, the first or the second.
fn stopped(which: usize, number: u8, place: usize) -> Found
    ensures { Stopped which number place result }
{
    let none = Difference {
        first_object: 0,
        second_object: 0,
        first_value: 0,
        second_value: 0,
    };
    Found {
        total: 0,
        records: [none; comparing::RECORDS],
        compared: Compared {
            which: which,
            number: number as usize,
            place: place,
            total: 0,
        },
    }
}

// Reads the second text, where the first one is accepted.
// The first text's tables come apart: that their cells fit their type is known of a parameter that is a slice, and not of a field.
fn second_read(
    first: &[u8],
    d: &[usize],
    o: &[usize],
    v: &[usize],
    many: usize,
    m: usize,
    n: usize,
    second: &[u8],
    d2: &mut [usize],
    e2: &mut [usize],
    o2: &mut [usize],
    v2: &mut [usize],
) -> Found
    requires { RoomSizes d2.old e2.old o2.old v2.old }
    ensures { SecondRead first.now d.now o.now v.now many m n second.now result }
{
    let w = reading::read_spanned(second, d2, e2, o2, v2);
    let r = w.reading;
    let answer = r.answer;
    match answer {
        Answer::Refused(number, place) => stopped(2, number, place),
        Answer::Accepted => {
            let a = Lent {
                side: Side {
                    text: first,
                    definitions: d,
                    objects: o,
                    values: v,
                },
                definitions: many,
                objects: m,
                values: n,
            };
            let b = Lent {
                side: Side {
                    text: second,
                    definitions: d2,
                    objects: o2,
                    values: v2,
                },
                definitions: r.definitions,
                objects: r.objects,
                values: r.values,
            };
            counted(differences_of(a, b))
        }
    }
}

// Reads both texts into tables of full room, and finds their differences.
pub fn listed_into(
    first: &[u8],
    second: &[u8],
    d: &mut [usize],
    e: &mut [usize],
    o: &mut [usize],
    v: &mut [usize],
    d2: &mut [usize],
    e2: &mut [usize],
    o2: &mut [usize],
    v2: &mut [usize],
) -> Found
    requires { RoomSizes d.old e.old o.old v.old × RoomSizes d2.old e2.old o2.old v2.old }
    ensures { Answered (compare_texts first.now second.now) result }
{
    let w = reading::read_spanned(first, d, e, o, v);
    let r = w.reading;
    let answer = r.answer;
    match answer {
        Answer::Refused(number, place) => stopped(1, number, place),
        Answer::Accepted => second_read(
            first,
            d,
            o,
            v,
            r.definitions,
            r.objects,
            r.values,
            second,
            d2,
            e2,
            o2,
            v2,
        ),
    }
}

// The differences of two texts.
pub fn listed(first: &[u8], second: &[u8]) -> Found
    ensures { Answered (compare_texts first.now second.now) result }
{
    let mut d = [0; definition::LENT];
    let mut e = [0; enumerator::LENT];
    let mut o = [0; object::LENT];
    let mut v = [0; value::LENT];
    let mut d2 = [0; definition::LENT];
    let mut e2 = [0; enumerator::LENT];
    let mut o2 = [0; object::LENT];
    let mut v2 = [0; value::LENT];
    listed_into(
        first, second, &mut d, &mut e, &mut o, &mut v, &mut d2, &mut e2, &mut o2, &mut v2,
    )
}

// Compares two texts: the records of their differences go into the lent list, as many as it holds, at most 64, and the true total is told. If a
// text is refused, the answer says which, with number and place, and the list stays.
pub fn compare(first: &[u8], second: &[u8], list: &mut [Difference]) -> Compared
    ensures { Compares first.now second.now list.old list.new result }
{
    let found = listed(first, second);
    comparing::put_all(list, found);
    found.compared
}
