// The version string and the implementation's name of lent texts, told from the front of the expanded text alone (document 02, Q-7 and Q-10).
#![tactic(auto)]

ghost use Rattle.lent_texts.specs.Expanded.{Rooms};
ghost use Rattle.heading_texts.specs.Headings.{HeadsExpanded, HeadsTexts};
ghost use Rattle.heading_texts.specs.Promises.{Q-7-Texts};

use heading::VersionAndName;
use lent_texts::Expanded;
use rows::Fault;

// The answer to the expanded text, with its places in the lent texts.
fn heading_expanded(text: &[u8], origins: &[usize], e: Expanded) -> Result<VersionAndName, Fault>
    ensures { HeadsExpanded text.now origins.now e result }
{
    match heading::heading(text) {
        Ok(h) => Ok(VersionAndName {
            version_at: placing::place_in(origins, e.length, e.main, h.version_at),
            name_at: placing::place_in(origins, e.length, e.main, h.name_at),
            ..h
        }),
        Err(f) => Err(lent_texts::refused(origins, e, f)),
    }
}

// The version string and the implementation's name of lent texts. In the buffer stand a name, its text, the next name and so on, the main text
// first; lengths has their lengths in that order. The expanded text and the origins of its bytes are lent too, 65,535 of each; where one is
// shorter, the answer is refusal 1, and nothing is touched. A place is a text's number times 65,536, and the byte; lengths count expanded bytes.
pub fn heading(
    buffer: &[u8],
    lengths: &[usize],
    expanded: &mut [u8],
    origins: &mut [usize],
) -> Result<VersionAndName, Fault>
    ensures heads { HeadsTexts buffer.now lengths.now expanded.old origins.old
        expanded.new origins.new result }
    ensures q_7 { Rooms expanded.old origins.old
        → Q-7-Texts buffer.now lengths.now result }
{
    let e = lent_texts::expand(buffer, lengths, expanded, origins)?;
    heading_expanded(&expanded[..e.length], origins, e)
}
