// The normal text of lent texts, the main one and those that it includes (document 02, Q-10): that of the expanded text, with places in the lent
// texts.
#![tactic(auto)]

ghost use Rattle.std.specs.Prelude.{◌≡◌, ◌≤◌, length};
ghost use Rattle.reading.specs.declared.Answer.TheVariants.{Refused};
ghost use Rattle.reading_texts.specs.Filling.{RoomSizes};
ghost use Rattle.reading_texts.specs.Reads.{FullRooms, Plain, DemandTexts};
ghost use Rattle.writing_texts.specs.Writes.{WritesTexts, WritesExpanded, FillsOutput};

use layout::{definition, enumerator, object, value};
use reading::Answer;
use rows::{cells, refusals};
use writing::Written;

fn refusal(number: u8, place: usize) -> Written
    ensures { result ≡ record { answer = Refused number place; length = 0 } }
{
    Written {
        answer: Answer::Refused(number, place),
        length: 0,
    }
}

// The expanded text's normal text is written, its rows into rooms of the stated sizes; its refusal 3 is the fault, and its places are placed by its
// origins.
fn write_expanded(
    text: &[u8],
    origins: &[usize],
    main: usize,
    fault: u8,
    definitions: &mut [usize],
    enumerators: &mut [usize],
    objects: &mut [usize],
    values: &mut [usize],
    out: &mut [u8],
) -> Written
    requires { RoomSizes definitions.old enumerators.old objects.old values.old }
    ensures { WritesExpanded text.now origins.now main fault out.old
        definitions.new enumerators.new objects.new values.new out.new result }
{
    let r = writing::write(text, definitions, enumerators, objects, values, out);
    let answer = r.answer;
    match answer {
        Answer::Refused(number, place) => {
            let n = lent_texts::renumbered(number, fault);
            let p = placing::place_refused(origins, text.len(), main, n, place);
            refusal(n, p)
        }
        Answer::Accepted => {
            placing::place_tables(
                definitions,
                enumerators,
                objects,
                values,
                origins,
                text.len(),
                main,
            );
            r
        }
    }
}

// The same for the lent texts.
fn fill(
    buffer: &[u8],
    lengths: &[usize],
    expanded: &mut [u8],
    origins: &mut [usize],
    definitions: &mut [usize],
    enumerators: &mut [usize],
    objects: &mut [usize],
    values: &mut [usize],
    out: &mut [u8],
) -> Written
    requires { (65535 ≤ length expanded.old) × ((65535 ≤ length origins.old)
        × RoomSizes definitions.old enumerators.old objects.old values.old) }
    ensures { FillsOutput buffer.now lengths.now expanded.old origins.old
        out.old expanded.new origins.new
        definitions.new enumerators.new objects.new values.new out.new result }
{
    let e = sources::expand_to_read(buffer, lengths, expanded, origins);
    if e.number == sources::refusals::LONG_TEXTS {
        cells::clear(definitions);
        cells::clear(enumerators);
        cells::clear(objects);
        cells::clear(values);
        return refusal(refusals::LONG_TEXTS, 0);
    }
    let size = e.length;
    let main = lengths[1];
    write_expanded(
        &expanded[..size],
        origins,
        main,
        e.number as u8,
        definitions,
        enumerators,
        objects,
        values,
        out,
    )
}

// Reads lent texts into four lent tables, as `reading_texts::read` does, and writes their normal text to the front of a lent output. No refusal
// touches the output.
pub fn write(
    buffer: &[u8],
    lengths: &[usize],
    expanded: &mut [u8],
    origins: &mut [usize],
    definitions: &mut [usize],
    enumerators: &mut [usize],
    objects: &mut [usize],
    values: &mut [usize],
    out: &mut [u8],
) -> Written
    ensures writes { WritesTexts buffer.now lengths.now
        expanded.old origins.old
        definitions.old enumerators.old objects.old values.old out.old
        expanded.new origins.new
        definitions.new enumerators.new objects.new values.new out.new result }
    ensures demand_3 { FullRooms expanded.old origins.old
        definitions.old enumerators.old objects.old values.old
        → Plain buffer.now lengths.now
        → DemandTexts buffer.now lengths.now result.answer }
{
    if expanded.len() < token::LONGEST {
        return refusal(refusals::SHORT_TABLES, 0);
    }
    if origins.len() < token::LONGEST {
        return refusal(refusals::SHORT_TABLES, 0);
    }
    if definitions.len() < definition::LENT {
        return refusal(refusals::SHORT_TABLES, 0);
    }
    if enumerators.len() < enumerator::LENT {
        return refusal(refusals::SHORT_TABLES, 0);
    }
    if objects.len() < object::LENT {
        return refusal(refusals::SHORT_TABLES, 0);
    }
    if values.len() < value::LENT {
        return refusal(refusals::SHORT_TABLES, 0);
    }
    fill(
        buffer,
        lengths,
        expanded,
        origins,
        &mut definitions[..6656],
        &mut enumerators[..3072],
        &mut objects[..2048],
        &mut values[..18432],
        out,
    )
}
