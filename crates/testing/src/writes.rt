// The writing of normal text.
ghost use Rattle.writing.specs.Results.{Writes};
ghost use Rattle.testing.specs.Writings.{WritesTold};

use reading::Answer;
use rows::cells;

// Writes the normal text of a text into a lent output, over four lent tables. The number of the refusal, 0 where there is none; the refusal's
// place and the length of the normal text are told in cells.
#[unsafe(no_mangle)]
pub extern "C" fn kaukslini_write(
    text: &[u8],
    definitions: &mut [usize],
    enumerators: &mut [usize],
    objects: &mut [usize],
    values: &mut [usize],
    output: &mut [u8],
    told: &mut [usize],
) -> u8
    ensures { WritesTold
        (Writes text.now
        definitions.old enumerators.old objects.old values.old output.old
        definitions.new enumerators.new objects.new values.new output.new)
        told.old told.new result }
{
    let r = writing::write(text, definitions, enumerators, objects, values, output);
    let length = [r.length];
    cells::put_cells(told, 1, &length);
    let answer = r.answer;
    match answer {
        Answer::Accepted => {
            let place = [0];
            cells::put_cells(told, 0, &place);
            0
        }
        Answer::Refused(n, p) => {
            let place = [p];
            cells::put_cells(told, 0, &place);
            n
        }
    }
}
