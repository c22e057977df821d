// The checker and the planner over the marks: each event in its turn.
ghost use Rattle.std.specs.Prelude.{◌≡◌, ◌<◌, ◌≤◌, length};
ghost use Rattle.std.proofs.lemmas.List.Edits.{sets};
ghost use Rattle.masks.specs.Masks.{keeps, breaking, before_plan, plan_from};
ghost use Rattle.masks.specs.Marks.{tasks_of, mask_at, masks_at, found_of, start_of, plan_of, Turned};
ghost use Rattle.masks.specs.Promises.{Delivers, HandsOut};

use super::marks::Tasks;
use super::{Planned, bits};
use layout::sorts;
use rows::cells;

// Whether the mask m of the event i keeps the event's own rule.
fn keeps_rule(tasks: &Tasks, given: &[usize], list: &[u64], i: usize, m: u64) -> bool
    ensures { result ≡ keeps (tasks_of tasks.now) list.now i (mask_at given.now i) m }
{
    if cells::cell_of(given, super::GIVEN_WIDTH, i, super::GIVEN_SORT) == sorts::NUMBER {
        let g = cells::cell_of(given, super::GIVEN_WIDTH, i, super::GIVEN_AMOUNT) as u64;
        return m == g;
    }
    if !bits::is_single(m) {
        return false;
    }
    !bits::has_power(m, tasks.taken_bits(i, list))
}

// The first event that breaks its own rule; there is a mask for each.
pub fn first_breaking(tasks: &Tasks, given: &[usize], list: &[u64]) -> Option<usize>
    ensures { result ≡ found_of (breaking (tasks_of tasks.now) list.now 0 (masks_at given.now (length list.now) 0) list.now) }
{
    for (i, m) in list.iter().enumerate() {
        if !keeps_rule(tasks, given, list, i, *m) {
            return Some(i);
        }
    }
    None
}

// The mask of the event i before any proposal.
fn start_of(given: &[usize], i: usize) -> u64
    ensures { result ≡ start_of (mask_at given.now i) }
{
    if cells::cell_of(given, super::GIVEN_WIDTH, i, super::GIVEN_SORT) == sorts::NUMBER {
        return cells::cell_of(given, super::GIVEN_WIDTH, i, super::GIVEN_AMOUNT) as u64;
    }
    0
}

// The masks before any proposal.
fn start_masks(given: &[usize], masks: &mut [u64])
    ensures { masks.new ≡ before_plan (masks_at given.now (length masks.old) 0) }
{
    for (i, m) in masks.iter_mut().enumerate() {
        *m = start_of(given, i);
    }
}

// The turn of the event i: false where all bits are taken.
fn take_turn(tasks: &Tasks, given: &[usize], masks: &mut [u64], i: usize) -> bool
    requires { i < length masks.old }
    ensures { Turned (tasks_of tasks.now) (mask_at given.now i) i masks.old masks.new result }
{
    if cells::cell_of(given, super::GIVEN_WIDTH, i, super::GIVEN_SORT) == sorts::NUMBER {
        return true;
    }
    let k = bits::lowest_zero(tasks.taken_bits(i, masks));
    if k < bits::BITS {
        masks[i] = bits::power(k);
        return true;
    }
    false
}

// A mask for each event, or the first for which all bits are taken.
fn take_turns(tasks: &Tasks, given: &[usize], masks: &mut [u64]) -> Option<usize>
    ensures { plan_from (tasks_of tasks.now) masks.old 0 (masks_at given.now (length masks.old) 0) ≡ plan_of result masks.new }
{
    for i in 0..masks.len() {
        if !take_turn(tasks, given, masks, i) {
            return Some(i);
        }
    }
    None
}

// The masks to the front of the list.
fn put_masks(masks: &[u64], list: &mut [u64])
    requires { length masks.now ≤ length list.old }
    ensures { list.new ≡ sets list.old 0 masks.now }
{
    cells::put_cells(list, 0, masks);
}

// The planner's answer by what was found; a plan goes to the front of the list.
fn deliver(found: Option<usize>, masks: &[u64], list: &mut [u64]) -> Planned
    requires { length masks.now ≤ length list.old }
    ensures { Delivers (plan_of found masks.now) list.old list.new result }
{
    match found {
        Some(i) => Planned::Full(i),
        None => {
            put_masks(masks, list);
            Planned::Made(masks.len())
        }
    }
}

// A mask for each event, first the given ones, then the proposals; a plan goes to the front of the list.
pub fn hand_out(tasks: &Tasks, given: &[usize], masks: &mut [u64], list: &mut [u64]) -> Planned
    requires { length masks.old ≤ length list.old }
    ensures { HandsOut (tasks_of tasks.now) (masks_at given.now (length masks.old) 0) list.old list.new result }
{
    start_masks(given, masks);
    let found = take_turns(tasks, given, masks);
    deliver(found, masks, list)
}
