// The reading.
ghost use Rattle.reading.specs.Results.{Reads};
ghost use Rattle.testing.specs.Readings.{ReadsTold};

use reading::Answer;
use rows::cells;

// Reads a text into four lent tables. The number of the refusal, 0 where there is none; what else the answer holds is told in cells: the
// refusal's place, how many definitions, enumerators, objects and values there are, and how many objects of each kind.
#[unsafe(no_mangle)]
pub extern "C" fn kaukslini_read(
    text: &[u8],
    definitions: &mut [usize],
    enumerators: &mut [usize],
    objects: &mut [usize],
    values: &mut [usize],
    told: &mut [usize],
) -> u8
    ensures { ReadsTold
        (Reads text.now
        definitions.old enumerators.old objects.old values.old
        definitions.new enumerators.new objects.new values.new)
        told.old told.new result }
{
    let r = reading::read(text, definitions, enumerators, objects, values);
    let sizes = [r.definitions, r.enumerators, r.objects, r.values];
    cells::put_cells(told, 1, &sizes);
    let counts = r.counts;
    cells::put_cells(told, 5, &counts);
    let answer = r.answer;
    match answer {
        Answer::Accepted => {
            let place = [0];
            cells::put_cells(told, 0, &place);
            0
        }
        Answer::Refused(n, p) => {
            let place = [p];
            cells::put_cells(told, 0, &place);
            n
        }
    }
}
