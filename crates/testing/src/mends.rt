// Mending lent texts (document 02, Q-11).
ghost use Rattle.std.specs.Prelude.{◌≡◌};
ghost use Rattle.mending_texts.specs.Telling.{MendsTexts};
ghost use Rattle.testing.specs.Mendings.{mended_case, MendsSet};

use mending::Mended;
use rows::{Fault, cells};

// An answer as numbers: the refusal's number, 0 where there is none, and its place; the lengths of the mended text and of the lines.
#[derive(Clone, Copy)]
struct Case {
    number: u8,
    place: usize,
    text: usize,
    lines: usize,
}

fn mended_case(answer: Result<Mended, Fault>) -> Case
    ensures { result ≡ mended_case answer }
{
    match answer {
        Err(f) => Case {
            number: f.number,
            place: f.place,
            text: 0,
            lines: 0,
        },
        Ok(m) => Case {
            number: 0,
            place: 0,
            text: m.text,
            lines: m.lines,
        },
    }
}

// Mends lent texts into two lent outputs: the refusal's number, 0 where there is none. Its place and the lengths of the mended text and of the lines
// are told in three cells.
#[unsafe(no_mangle)]
pub extern "C" fn kaukslini_mend_texts(
    buffer: &[u8],
    lengths: &[usize],
    expanded: &mut [u8],
    origins: &mut [usize],
    output: &mut [u8],
    lines: &mut [u8],
    told: &mut [usize],
) -> u8
    ensures { MendsSet
        (MendsTexts buffer.now lengths.now expanded.old origins.old output.old lines.old
        expanded.new origins.new output.new lines.new)
        told.old told.new result }
{
    let c = mended_case(mending_texts::mend(buffer, lengths, expanded, origins, output, lines));
    let numbers = [c.place, c.text, c.lines];
    cells::put_cells(told, 0, &numbers);
    c.number
}
