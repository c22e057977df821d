// The calls over lent texts (document 02, Q-10).
ghost use Rattle.reading_texts.specs.Reads.{ReadsTexts};
ghost use Rattle.writing_texts.specs.Writes.{WritesTexts};
ghost use Rattle.testing.specs.Readings.{ReadsTold};
ghost use Rattle.testing.specs.SetWritings.{WritesSet};
ghost use Rattle.testing.specs.Expansions.{ExpandsTold};

use reading::Answer;
use rows::cells;

// Expands lent texts into lent memory, with the origins of the bytes. The number of the first fault, 0 where there is none, or 30; its place and
// the length of the expanded text are told in cells.
#[unsafe(no_mangle)]
pub extern "C" fn kaukslini_expand(
    buffer: &[u8],
    lengths: &[usize],
    expanded: &mut [u8],
    origins: &mut [usize],
    told: &mut [usize],
) -> usize
    ensures { ExpandsTold
        buffer.now lengths.now expanded.old origins.old told.old
        expanded.new origins.new told.new result }
{
    let e = sources::expand(buffer, lengths, expanded, origins);
    let numbers = [e.place, e.length];
    cells::put_cells(told, 0, &numbers);
    e.number
}

// Reads lent texts into four lent tables; number and told cells as in `kaukslini_read`.
#[unsafe(no_mangle)]
pub extern "C" fn kaukslini_read_texts(
    buffer: &[u8],
    lengths: &[usize],
    expanded: &mut [u8],
    origins: &mut [usize],
    definitions: &mut [usize],
    enumerators: &mut [usize],
    objects: &mut [usize],
    values: &mut [usize],
    told: &mut [usize],
) -> u8
    ensures { ReadsTold
        (ReadsTexts
        buffer.now lengths.now expanded.old origins.old
        definitions.old enumerators.old objects.old values.old
        expanded.new origins.new
        definitions.new enumerators.new objects.new values.new)
        told.old told.new result }
{
    let r = reading_texts::read(
        buffer,
        lengths,
        expanded,
        origins,
        definitions,
        enumerators,
        objects,
        values,
    );
    let sizes = [r.definitions, r.enumerators, r.objects, r.values];
    cells::put_cells(told, 1, &sizes);
    let counts = r.counts;
    cells::put_cells(told, 5, &counts);
    let answer = r.answer;
    match answer {
        Answer::Accepted => {
            let place = [0];
            cells::put_cells(told, 0, &place);
            0
        }
        Answer::Refused(n, p) => {
            let place = [p];
            cells::put_cells(told, 0, &place);
            n
        }
    }
}

// What is told of a writing: the number of the refusal, 0 where there is none, its place, and the length of the normal text.
#[repr(C)]
#[derive(Clone, Copy)]
pub struct Told {
    pub number: usize,
    pub place: usize,
    pub length: usize,
}

// Writes the normal text of lent texts into a lent output, over four lent tables.
#[unsafe(no_mangle)]
pub extern "C" fn kaukslini_write_texts(
    buffer: &[u8],
    lengths: &[usize],
    expanded: &mut [u8],
    origins: &mut [usize],
    definitions: &mut [usize],
    enumerators: &mut [usize],
    objects: &mut [usize],
    values: &mut [usize],
    output: &mut [u8],
) -> Told
    ensures { WritesSet
        (WritesTexts
        buffer.now lengths.now expanded.old origins.old
        definitions.old enumerators.old objects.old values.old output.old
        expanded.new origins.new
        definitions.new enumerators.new objects.new values.new output.new)
        result }
{
    let r = writing_texts::write(
        buffer,
        lengths,
        expanded,
        origins,
        definitions,
        enumerators,
        objects,
        values,
        output,
    );
    let length = r.length;
    let answer = r.answer;
    match answer {
        Answer::Accepted => Told {
            number: 0,
            place: 0,
            length,
        },
        Answer::Refused(n, p) => Told {
            number: n as usize,
            place: p,
            length,
        },
    }
}
