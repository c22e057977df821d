// Mends what can be mended of lent texts and says so (document 02, Q-11 and Q-10): the expanded text is mended, with places in the lent texts.
#![tactic(auto)]

ghost use Rattle.mending_texts.specs.Telling.{MendsExpanded, MendsTexts};

use lent_texts::Expanded;
use mending::{Mended, Unmended};
use rows::Fault;

// The answer to the expanded text, with its place in the lent texts.
fn mend_expanded(
    text: &[u8],
    origins: &[usize],
    e: Expanded,
    output: &mut [u8],
    lines: &mut [u8],
) -> Result<Mended, Fault>
    ensures { MendsExpanded text.now origins.now e output.old lines.old output.new lines.new result }
{
    match mending::mend(text, origins, output, lines) {
        Ok(mended) => Ok(mended),
        Err(Unmended::Refused(f)) => Err(lent_texts::refused(origins, e, f)),
        Err(Unmended::NotMended(f)) => Err(Fault {
            place: placing::place_refused(origins, e.length, e.main, f.number, f.place),
            ..f
        }),
    }
}

// Mends lent texts. In the buffer stand a name, its text, the next name and so on, the main text first; lengths has their lengths in that order. The
// expanded text and the origins of its bytes are lent too, 65,535 of each; where one is shorter, the answer is refusal 1, and nothing is touched. The
// mended text goes to the front of one output and a line for each drop (text number, byte, length, number) to that of the other; both stay on any
// refusal. A place is a text's number times 65,536, and the byte.
pub fn mend(
    buffer: &[u8],
    lengths: &[usize],
    expanded: &mut [u8],
    origins: &mut [usize],
    output: &mut [u8],
    lines: &mut [u8],
) -> Result<Mended, Fault>
    ensures { MendsTexts buffer.now lengths.now expanded.old origins.old output.old lines.old
        expanded.new origins.new output.new lines.new result }
{
    let e = lent_texts::expand(buffer, lengths, expanded, origins)?;
    mend_expanded(&expanded[..e.length], origins, e, output, lines)
}
