// What is wrong with the standard attributes in the kept rows of an implementation.
ghost use Rattle.std.specs.Prelude.{◌≡◌};
ghost use Rattle.standard.specs.Findings.{OwnsKind, Owns, Wider, Differs, Finds, sooner, TellsForemost};

use super::{Known, Owner, Told, attribute, choices, naming, shapes, spans};
use layout::{definition, word_codes};
use rows::{cells, refusals};

// The scope of the kind with the number.
fn owner_of_kind(x: Known, kind: usize) -> Owner
    ensures { OwnsKind x kind result }
{
    let places = x.places;
    let key = cells::get(&places, kind);
    if key == 0 {
        return Owner {
            word: x.name,
            key: 0,
        };
    }
    Owner { word: key, key }
}

// The scope in which the attribute of row i is asked for; the word 0 where it is not.
fn owner_of(
    section: &[u8],
    rows: &[usize],
    text: &[u8],
    d: &[usize],
    e: &[usize],
    x: Known,
    i: usize,
) -> Owner
    ensures { Owns section.now rows.now text.now d.now e.now x i result }
{
    let k = owner_of_kind(
        x,
        cells::cell_of(rows, attribute::WIDTH, i, attribute::KIND),
    );
    let len = cells::cell_of(rows, attribute::WIDTH, i, attribute::ABOVE_LENGTH);
    if len == 0 {
        return k;
    }
    let at = cells::cell_of(rows, attribute::WIDTH, i, attribute::ABOVE);
    let at2 = cells::cell_of(rows, attribute::WIDTH, i, attribute::VALUE);
    let len2 = cells::cell_of(rows, attribute::WIDTH, i, attribute::VALUE_LENGTH);
    let u = naming::step_into(
        text,
        d,
        e,
        x.definitions,
        x.enumerators,
        k.key,
        token::part(section, at, len),
        token::part(section, at2, len2),
    );
    Owner { word: u, key: u }
}

// Whether the values of row j are wider than those of row i of the standard; both have the same type. There are m enumerators.
fn wider(
    section: &[u8],
    rows: &[usize],
    words: &[usize],
    text: &[u8],
    d: &[usize],
    e: &[usize],
    m: usize,
    i: usize,
    j: usize,
) -> bool
    ensures { Wider section.now rows.now words.now text.now d.now e.now m i j result }
{
    let code = cells::cell_of(rows, attribute::WIDTH, i, attribute::CODE);
    let first = cells::cell_of(rows, attribute::WIDTH, i, attribute::FIRST);
    let end = cells::cell_of(rows, attribute::WIDTH, i, attribute::END);
    let key = cells::cell_of(d, definition::WIDTH, j, definition::KEY);
    if code == word_codes::ENUM {
        return choices::has_extra(text, e, section, words, first, end, key, m);
    }
    if code == word_codes::BOOLEAN {
        if first == end {
            return false;
        }
        return key == 0;
    }
    if cells::cell_of(rows, attribute::WIDTH, i, attribute::RANGE) == 0 {
        return false;
    }
    !spans::within_one_two(
        text,
        cells::cell_of(d, definition::WIDTH, j, definition::RANGE),
    )
}

// Whether row j differs from row i of the standard.
fn differs(
    section: &[u8],
    rows: &[usize],
    words: &[usize],
    text: &[u8],
    d: &[usize],
    e: &[usize],
    m: usize,
    i: usize,
    j: usize,
) -> bool
    ensures { Differs section.now rows.now words.now text.now d.now e.now m i j result }
{
    let code = cells::cell_of(rows, attribute::WIDTH, i, attribute::CODE);
    let list = cells::cell_of(rows, attribute::WIDTH, i, attribute::LIST);
    let auto = cells::cell_of(rows, attribute::WIDTH, i, attribute::AUTO);
    if shapes::shape_differs(d, j, code, list, auto) {
        return true;
    }
    if shapes::default_differs(
        d,
        j,
        cells::cell_of(rows, attribute::WIDTH, i, attribute::DEFAULT),
    ) {
        return true;
    }
    wider(section, rows, words, text, d, e, m, i, j)
}

// What is found of the attribute of row i.
fn finding(
    section: &[u8],
    rows: &[usize],
    words: &[usize],
    text: &[u8],
    d: &[usize],
    e: &[usize],
    x: Known,
    i: usize,
) -> Option<Told>
    ensures { Finds section.now rows.now words.now text.now d.now e.now x i result }
{
    let u = owner_of(section, rows, text, d, e, x, i);
    if u.word == 0 {
        return None;
    }
    let at = cells::cell_of(rows, attribute::WIDTH, i, attribute::NAME);
    let len = cells::cell_of(rows, attribute::WIDTH, i, attribute::NAME_LENGTH);
    let Some(j) = naming::find_attribute(
        text,
        d,
        x.definitions,
        u.key,
        token::part(section, at, len),
    ) else {
        return Some(Told {
            place: u.word,
            number: refusals::LACKS_STANDARD,
            attribute: i,
        });
    };
    if differs(section, rows, words, text, d, e, x.enumerators, i, j) {
        return Some(Told {
            place: cells::cell_of(d, definition::WIDTH, j, definition::NAME),
            number: refusals::OTHER_STANDARD,
            attribute: i,
        });
    }
    None
}

// What is found of one attribute, before what is told of those after it.
fn sooner(a: Option<Told>, b: Option<Told>) -> Option<Told>
    ensures { result ≡ sooner a b }
{
    match (a, b) {
        (Some(x), Some(y)) => Some(x.min(y)),
        (Some(x), None) => Some(x),
        (None, b) => b,
    }
}

// The foremost of what is found of all attributes.
pub fn foremost(
    section: &[u8],
    rows: &[usize],
    words: &[usize],
    text: &[u8],
    d: &[usize],
    e: &[usize],
    x: Known,
) -> Option<Told>
    ensures { TellsForemost section.now rows.now words.now text.now d.now e.now x result }
{
    let mut best = None;
    for i in (0..attribute::COUNT).rev() {
        best = sooner(finding(section, rows, words, text, d, e, x, i), best);
    }
    best
}
