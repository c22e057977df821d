// Reading lent texts, the main one and those that it includes, into four lent tables (document 02, Q-10): the reading of the expanded text, with
// places in the lent texts.
#![tactic(auto)]

ghost use Rattle.std.specs.Prelude.{◌≡◌, ◌≤◌, length};
ghost use Rattle.meaning.specs.Answers.{refused};
ghost use Rattle.reading.specs.Results.{reading_of};
ghost use Rattle.reading_texts.specs.Reads.{ReadsTexts, FullRooms, Plain, DemandTexts};
ghost use Rattle.reading_texts.specs.Filling.{RoomSizes, ReadsExpanded, FillsTexts};

use layout::{definition, enumerator, object, value};
use reading::{Answer, Reading};
use rows::{cells, counts, refusals};

fn refusal(number: u8, place: usize) -> Reading
    ensures { result ≡ reading_of (refused number place) }
{
    let counts = [0; counts::KINDS];
    Reading {
        answer: Answer::Refused(number, place),
        definitions: 0,
        enumerators: 0,
        objects: 0,
        values: 0,
        counts,
    }
}

// The expanded text is read into rooms of the stated sizes; its refusal 3 is the fault, and its places are placed by its origins.
fn read_expanded(
    text: &[u8],
    origins: &[usize],
    main: usize,
    fault: u8,
    definitions: &mut [usize],
    enumerators: &mut [usize],
    objects: &mut [usize],
    values: &mut [usize],
) -> Reading
    requires { RoomSizes definitions.old enumerators.old objects.old values.old }
    ensures { ReadsExpanded text.now origins.now main fault
        definitions.new enumerators.new objects.new values.new result }
{
    let r = reading::read(text, definitions, enumerators, objects, values);
    let answer = r.answer;
    match answer {
        Answer::Refused(number, place) => {
            let n = lent_texts::renumbered(number, fault);
            let p = placing::place_refused(origins, text.len(), main, n, place);
            refusal(n, p)
        }
        Answer::Accepted => {
            placing::place_tables(
                definitions,
                enumerators,
                objects,
                values,
                origins,
                text.len(),
                main,
            );
            r
        }
    }
}

// The lent texts are read into rooms of the stated sizes.
fn fill(
    buffer: &[u8],
    lengths: &[usize],
    expanded: &mut [u8],
    origins: &mut [usize],
    definitions: &mut [usize],
    enumerators: &mut [usize],
    objects: &mut [usize],
    values: &mut [usize],
) -> Reading
    requires { (65535 ≤ length expanded.old) × ((65535 ≤ length origins.old)
        × RoomSizes definitions.old enumerators.old objects.old values.old) }
    ensures { FillsTexts buffer.now lengths.now expanded.old origins.old
        expanded.new origins.new
        definitions.new enumerators.new objects.new values.new result }
{
    let e = sources::expand_to_read(buffer, lengths, expanded, origins);
    if e.number == sources::refusals::LONG_TEXTS {
        cells::clear(definitions);
        cells::clear(enumerators);
        cells::clear(objects);
        cells::clear(values);
        return refusal(refusals::LONG_TEXTS, 0);
    }
    let size = e.length;
    let main = lengths[1];
    read_expanded(
        &expanded[..size],
        origins,
        main,
        e.number as u8,
        definitions,
        enumerators,
        objects,
        values,
    )
}

// Reads lent texts into four lent tables. In the buffer stand a name, its text, the next name and so on, the main text first; lengths has their
// lengths in that order. The expanded text and the origins of its bytes are lent too, 65,535 of each. A place is a text's number times 65,536, and
// the byte. Refusal 1 where a table, the expanded text or the origins are shorter than their room: nothing is touched then.
pub fn read(
    buffer: &[u8],
    lengths: &[usize],
    expanded: &mut [u8],
    origins: &mut [usize],
    definitions: &mut [usize],
    enumerators: &mut [usize],
    objects: &mut [usize],
    values: &mut [usize],
) -> Reading
    ensures reads { ReadsTexts buffer.now lengths.now expanded.old origins.old
        definitions.old enumerators.old objects.old values.old
        expanded.new origins.new
        definitions.new enumerators.new objects.new values.new result }
    ensures demand_3 { FullRooms expanded.old origins.old
        definitions.old enumerators.old objects.old values.old
        → Plain buffer.now lengths.now
        → DemandTexts buffer.now lengths.now result.answer }
{
    if expanded.len() < token::LONGEST {
        return refusal(refusals::SHORT_TABLES, 0);
    }
    if origins.len() < token::LONGEST {
        return refusal(refusals::SHORT_TABLES, 0);
    }
    if definitions.len() < definition::LENT {
        return refusal(refusals::SHORT_TABLES, 0);
    }
    if enumerators.len() < enumerator::LENT {
        return refusal(refusals::SHORT_TABLES, 0);
    }
    if objects.len() < object::LENT {
        return refusal(refusals::SHORT_TABLES, 0);
    }
    if values.len() < value::LENT {
        return refusal(refusals::SHORT_TABLES, 0);
    }
    fill(
        buffer,
        lengths,
        expanded,
        origins,
        &mut definitions[..6656],
        &mut enumerators[..3072],
        &mut objects[..2048],
        &mut values[..18432],
    )
}
