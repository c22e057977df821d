// Two releases compared, each of them lent texts (document 02, Q-8 and Q-10): the comparison of the two expanded texts, with places in the lent
// texts.
#![tactic(auto)]

ghost use Rattle.std.specs.Prelude.{◌≡◌, eqb};
ghost use Rattle.token.specs.Find.{pick};
ghost use Rattle.reading.specs.Decisions.{RoomSizes};
ghost use Rattle.releases.specs.Promises.{Stopped};
ghost use Rattle.releases_texts.specs.Comparing.{side_in, With, ListsExpanded, AnswersText, FirstOr, ListsTexts, ComparesTexts};

use comparing::{Compared, Difference, Found};
use layout::{definition, enumerator, object, value};
use lent_texts::Expanded;
use reading::Answer;
use rows::{Fault, refusals};

// Refusal 3 takes the number of the fault that stands there.
fn renumbered(number: usize, fault: u8) -> usize
    ensures { result ≡ pick (eqb number 3) fault number }
{
    if number == refusals::NO_TOKEN as usize {
        return fault as usize;
    }
    number
}

// The refusal of a side's expanded text, as that of its lent texts.
fn side(origins: &[usize], e: Expanded, c: Compared) -> Compared
    ensures { result ≡ side_in origins.now e c }
{
    let n = renumbered(c.number, e.fault);
    let p = placing::place_numbered(origins, e.length, e.main, n, c.place);
    Compared {
        which: c.which,
        number: n,
        place: p,
        total: 0,
    }
}

// What was found, with another answer.
fn with(found: Found, c: Compared) -> Found
    ensures { With found c result }
{
    let records = found.records;
    Found {
        total: found.total,
        records,
        compared: c,
    }
}

// The answer for a side that is refused.
fn stopped(which: usize, f: Fault) -> Found
    ensures { Stopped which f.number f.place result }
{
    let none = Difference {
        first_object: 0,
        second_object: 0,
        first_value: 0,
        second_value: 0,
    };
    Found {
        total: 0,
        records: [none; comparing::RECORDS],
        compared: Compared {
            which,
            number: f.number as usize,
            place: f.place,
            total: 0,
        },
    }
}

// The differences of two expanded texts, which are read into tables of full room, or a refusal with its place in the lent texts.
fn listed_expanded(
    first: &[u8],
    origins: &[usize],
    e: Expanded,
    second: &[u8],
    second_origins: &[usize],
    e2: Expanded,
    d: &mut [usize],
    c: &mut [usize],
    o: &mut [usize],
    v: &mut [usize],
    d2: &mut [usize],
    c2: &mut [usize],
    o2: &mut [usize],
    v2: &mut [usize],
) -> Found
    requires { RoomSizes d.old c.old o.old v.old × RoomSizes d2.old c2.old o2.old v2.old }
    ensures { ListsExpanded first.now origins.now e second.now second_origins.now e2 result }
{
    let found = releases::listed_into(first, second, d, c, o, v, d2, c2, o2, v2);
    let told = found.compared;
    if told.which == 1 {
        return with(found, side(origins, e, told));
    }
    if told.which == 2 {
        return with(found, side(second_origins, e2, told));
    }
    found
}

// A text's own answer, with tables of its own.
fn answer_of(text: &[u8]) -> Answer
    ensures { AnswersText text.now result }
{
    let mut definitions = [0; definition::LENT];
    let mut enumerators = [0; enumerator::LENT];
    let mut objects = [0; object::LENT];
    let mut values = [0; value::LENT];
    let r = reading::read(
        text,
        &mut definitions,
        &mut enumerators,
        &mut objects,
        &mut values,
    );
    r.answer
}

// The first side's refusal; else the second's, which is refused at once, by 1 or 30.
fn first_or(text: &[u8], origins: &[usize], e: Expanded, second: Fault) -> Found
    ensures { FirstOr text.now origins.now e second result }
{
    let answer = answer_of(text);
    match answer {
        Answer::Refused(number, place) => {
            stopped(1, lent_texts::refused(origins, e, Fault { number, place }))
        }
        Answer::Accepted => stopped(2, second),
    }
}

// The differences of two releases, each of them lent texts, as `listed` tells them; each side's expanded text is read into the side's tables, which
// have full room.
pub fn listed_into(
    first: &[u8],
    first_lengths: &[usize],
    second: &[u8],
    second_lengths: &[usize],
    expanded: &mut [u8],
    origins: &mut [usize],
    second_expanded: &mut [u8],
    second_origins: &mut [usize],
    d: &mut [usize],
    c: &mut [usize],
    o: &mut [usize],
    v: &mut [usize],
    d2: &mut [usize],
    c2: &mut [usize],
    o2: &mut [usize],
    v2: &mut [usize],
) -> Found
    requires { RoomSizes d.old c.old o.old v.old × RoomSizes d2.old c2.old o2.old v2.old }
    ensures { ListsTexts first.now first_lengths.now expanded.old origins.old
        expanded.new origins.new second.now second_lengths.now
        second_expanded.old second_origins.old second_expanded.new second_origins.new result }
{
    let one = lent_texts::expand(first, first_lengths, expanded, origins);
    let two = lent_texts::expand(second, second_lengths, second_expanded, second_origins);
    match one {
        Err(f) => stopped(1, f),
        Ok(e) => match two {
            Err(f) => first_or(&expanded[..e.length], origins, e, f),
            Ok(e2) => listed_expanded(
                &expanded[..e.length],
                origins,
                e,
                &second_expanded[..e2.length],
                second_origins,
                e2,
                d,
                c,
                o,
                v,
                d2,
                c2,
                o2,
                v2,
            ),
        },
    }
}

// The differences of two releases, each of them lent texts, by value: the first 64, and how many there are. Rows are those of the expanded texts. If
// a side is refused, the answer says which, with number and place. In a side's buffer stand a name, its text, the next name and so on, the main text
// first; its lengths are in that order. The expanded texts and the origins of their bytes are lent too, 65,535 of each; where one is shorter, that
// side is refused by 1, and its two are not touched. A place is a text's number times 65,536, and the byte.
pub fn listed(
    first: &[u8],
    first_lengths: &[usize],
    second: &[u8],
    second_lengths: &[usize],
    expanded: &mut [u8],
    origins: &mut [usize],
    second_expanded: &mut [u8],
    second_origins: &mut [usize],
) -> Found
    ensures { ListsTexts first.now first_lengths.now expanded.old origins.old
        expanded.new origins.new second.now second_lengths.now
        second_expanded.old second_origins.old second_expanded.new second_origins.new result }
{
    let mut d = [0; definition::LENT];
    let mut c = [0; enumerator::LENT];
    let mut o = [0; object::LENT];
    let mut v = [0; value::LENT];
    let mut d2 = [0; definition::LENT];
    let mut c2 = [0; enumerator::LENT];
    let mut o2 = [0; object::LENT];
    let mut v2 = [0; value::LENT];
    listed_into(
        first,
        first_lengths,
        second,
        second_lengths,
        expanded,
        origins,
        second_expanded,
        second_origins,
        &mut d,
        &mut c,
        &mut o,
        &mut v,
        &mut d2,
        &mut c2,
        &mut o2,
        &mut v2,
    )
}

// Compares two releases, each of them lent texts: the records of their differences go into the lent list, as many as it holds, at most 64, and the
// true total is told. If a side is refused, the answer says which, with number and place, and the list stays.
pub fn compare(
    first: &[u8],
    first_lengths: &[usize],
    second: &[u8],
    second_lengths: &[usize],
    expanded: &mut [u8],
    origins: &mut [usize],
    second_expanded: &mut [u8],
    second_origins: &mut [usize],
    list: &mut [Difference],
) -> Compared
    ensures { ComparesTexts first.now first_lengths.now expanded.old origins.old
        expanded.new origins.new second.now second_lengths.now
        second_expanded.old second_origins.old second_expanded.new second_origins.new
        list.old list.new result }
{
    let found = listed(
        first,
        first_lengths,
        second,
        second_lengths,
        expanded,
        origins,
        second_expanded,
        second_origins,
    );
    comparing::put_all(list, found);
    found.compared
}
