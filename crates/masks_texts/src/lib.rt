// Event masks of lent texts, checked and planned (document 02, Q-6 and Q-10): those of the expanded text, with places in the lent texts.
#![tactic(auto)]

ghost use Rattle.masks_texts.specs.Masks.{ChecksExpanded, PlansExpanded, ChecksTexts, PlansTexts};

use lent_texts::Expanded;
use masks::{Checked, Planned};
use rows::Fault;

// The checker's answer to the expanded text, with its place in the lent texts.
fn check_expanded(
    text: &[u8],
    origins: &[usize],
    e: Expanded,
    list: &[u64],
) -> Result<Checked, Fault>
    ensures { ChecksExpanded text.now origins.now e list.now result }
{
    match masks::check_masks(text, list) {
        Ok(checked) => Ok(checked),
        Err(f) => Err(lent_texts::refused(origins, e, f)),
    }
}

// The planner's.
fn plan_expanded(
    text: &[u8],
    origins: &[usize],
    e: Expanded,
    list: &mut [u64],
) -> Result<Planned, Fault>
    ensures { PlansExpanded text.now origins.now e list.old list.new result }
{
    match masks::plan_masks(text, list) {
        Ok(planned) => Ok(planned),
        Err(fault) => Err(lent_texts::refused(origins, e, fault)),
    }
}

// Whether a list has a mask for each event of lent texts, in object order, as the events' own rules ask. In the buffer stand a name, its text, the
// next name and so on, the main text first; lengths has their lengths in that order. The expanded text and the origins of its bytes are lent too,
// 65,535 of each; where one is shorter, the answer is refusal 1, and nothing is touched. A place is a text's number times 65,536, and the byte.
pub fn check_masks(
    buffer: &[u8],
    lengths: &[usize],
    expanded: &mut [u8],
    origins: &mut [usize],
    list: &[u64],
) -> Result<Checked, Fault>
    ensures { ChecksTexts buffer.now lengths.now expanded.old origins.old
        expanded.new origins.new list.now result }
{
    let e = lent_texts::expand(buffer, lengths, expanded, origins)?;
    check_expanded(&expanded[..e.length], origins, e, list)
}

// A mask for each event of lent texts, in object order, to the front of the list; the list stays on any refusal.
pub fn plan_masks(
    buffer: &[u8],
    lengths: &[usize],
    expanded: &mut [u8],
    origins: &mut [usize],
    list: &mut [u64],
) -> Result<Planned, Fault>
    ensures { PlansTexts buffer.now lengths.now expanded.old origins.old
        expanded.new origins.new list.old list.new result }
{
    let e = lent_texts::expand(buffer, lengths, expanded, origins)?;
    plan_expanded(&expanded[..e.length], origins, e, list)
}
