// Whether the implementation of lent texts defines the standard attributes (document 02, Q-9 and Q-10): the answer to the expanded text, with places
// in the lent texts.
#![tactic(auto)]

ghost use Rattle.standard_texts.specs.Checking.{ChecksExpanded, ChecksTexts};

use lent_texts::Expanded;
use rows::Fault;
use standard::Wrong;

// The answer to the expanded text, with its place in the lent texts.
fn check_expanded(text: &[u8], origins: &[usize], e: Expanded) -> Result<Option<Wrong>, Fault>
    ensures { ChecksExpanded text.now origins.now e result }
{
    match standard::check_standard(text) {
        Ok(None) => Ok(None),
        Ok(Some(w)) => Ok(Some(Wrong {
            place: placing::place_in(origins, e.length, e.main, w.place),
            ..w
        })),
        Err(f) => Err(lent_texts::refused(origins, e, f)),
    }
}

// Whether the implementation of lent texts defines the standard attributes as section 5.2 of 000 does. In the buffer stand a name, its text, the next
// name and so on, the main text first; lengths has their lengths in that order. The expanded text and the origins of its bytes are lent too, 65,535
// of each; where one is shorter, the answer is refusal 1, and nothing is touched. A place is a text's number times 65,536, and the byte.
pub fn check_standard(
    buffer: &[u8],
    lengths: &[usize],
    expanded: &mut [u8],
    origins: &mut [usize],
) -> Result<Option<Wrong>, Fault>
    ensures { ChecksTexts buffer.now lengths.now expanded.old origins.old
        expanded.new origins.new result }
{
    let e = lent_texts::expand(buffer, lengths, expanded, origins)?;
    check_expanded(&expanded[..e.length], origins, e)
}
