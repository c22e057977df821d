// Event masks, checked and planned.
ghost use Rattle.std.specs.Prelude.{◌≡◌};
ghost use Rattle.masks_texts.specs.Masks.{ChecksTexts, PlansTexts};
ghost use Rattle.testing.specs.SetQuestions.{ChecksSet, PlansSet};
ghost use Rattle.testing.specs.Masks.{checked_case, planned_case, ChecksTold, PlansTold};

use masks::{Checked, Planned};
use rows::{Fault, cells};

// An answer as numbers: which case it is, and the two numbers that it has, 0 where it has none.
#[derive(Clone, Copy)]
struct Case {
    number: u8,
    first: usize,
    second: usize,
}

fn checked_case(answer: Result<Checked, Fault>) -> Case
    ensures { result ≡ checked_case answer }
{
    match answer {
        Err(f) => Case {
            number: 0,
            first: f.number as usize,
            second: f.place,
        },
        Ok(verdict) => {
            match verdict {
                Checked::NotPlannable => Case {
                    number: 1,
                    first: 0,
                    second: 0,
                },
                Checked::WrongLength => Case {
                    number: 2,
                    first: 0,
                    second: 0,
                },
                Checked::Breaks(i) => Case {
                    number: 3,
                    first: i,
                    second: 0,
                },
                Checked::Accepted => Case {
                    number: 4,
                    first: 0,
                    second: 0,
                },
            }
        }
    }
}

fn planned_case(answer: Result<Planned, Fault>) -> Case
    ensures { result ≡ planned_case answer }
{
    match answer {
        Err(f) => Case {
            number: 0,
            first: f.number as usize,
            second: f.place,
        },
        Ok(verdict) => {
            match verdict {
                Planned::NotPlannable => Case {
                    number: 1,
                    first: 0,
                    second: 0,
                },
                Planned::WrongLength => Case {
                    number: 2,
                    first: 0,
                    second: 0,
                },
                Planned::Full(i) => Case {
                    number: 3,
                    first: i,
                    second: 0,
                },
                Planned::Made(n) => Case {
                    number: 4,
                    first: n,
                    second: 0,
                },
            }
        }
    }
}

// The checker's answer: 0 refused, 1 not plannable, 2 wrong length, 3 an event breaks its rule, 4 accepted. The refusal's number and place, or the
// event, are told in two cells, else 0.
#[unsafe(no_mangle)]
pub extern "C" fn kaukslini_check_masks(text: &[u8], masks: &[u64], told: &mut [usize]) -> u8
    ensures { ChecksTold text.now masks.now told.old told.new result }
{
    let c = checked_case(masks::check_masks(text, masks));
    let numbers = [c.first, c.second];
    cells::put_cells(told, 0, &numbers);
    c.number
}

// The planner's answer: the same, with 3 for an event for which all bits are taken, and 4 with how many events there are.
#[unsafe(no_mangle)]
pub extern "C" fn kaukslini_plan_masks(text: &[u8], masks: &mut [u64], told: &mut [usize]) -> u8
    ensures { PlansTold text.now masks.old told.old masks.new told.new result }
{
    let c = planned_case(masks::plan_masks(text, masks));
    let numbers = [c.first, c.second];
    cells::put_cells(told, 0, &numbers);
    c.number
}

// The checker's answer to lent texts.
#[unsafe(no_mangle)]
pub extern "C" fn kaukslini_check_masks_texts(
    buffer: &[u8],
    lengths: &[usize],
    expanded: &mut [u8],
    origins: &mut [usize],
    masks: &[u64],
    told: &mut [usize],
) -> u8
    ensures { ChecksSet
        (ChecksTexts buffer.now lengths.now expanded.old origins.old
        expanded.new origins.new masks.now)
        told.old told.new result }
{
    let c = checked_case(masks_texts::check_masks(buffer, lengths, expanded, origins, masks));
    let numbers = [c.first, c.second];
    cells::put_cells(told, 0, &numbers);
    c.number
}

// The planner's.
#[unsafe(no_mangle)]
pub extern "C" fn kaukslini_plan_masks_texts(
    buffer: &[u8],
    lengths: &[usize],
    expanded: &mut [u8],
    origins: &mut [usize],
    masks: &mut [u64],
    told: &mut [usize],
) -> u8
    ensures { PlansSet
        (PlansTexts buffer.now lengths.now expanded.old origins.old
        expanded.new origins.new masks.old masks.new)
        told.old told.new result }
{
    let c = planned_case(masks_texts::plan_masks(buffer, lengths, expanded, origins, masks));
    let numbers = [c.first, c.second];
    cells::put_cells(told, 0, &numbers);
    c.number
}
