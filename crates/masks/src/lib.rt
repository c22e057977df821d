// Event masks, checked and planned (document 02, Q-6).
#![tactic(auto)]

ghost use Rattle.std.specs.Prelude.{◌≡◌};
ghost use Rattle.masks.specs.Promises.{named_found, ChecksRows, PlansRows, ChecksRead, PlansRead};
ghost use Rattle.masks.specs.Results.{check, PlansText};
ghost use Rattle.masks.specs.Rules.{ChecksByRules, PlansByRules};

use layout::{definition, enumerator, object, value};
use marks::Tasks;
use reading::{Answer, Spanned};
use rows::Fault;

mod bits;
pub mod events;
mod marks;
mod members;
mod turns;

// The masks that a text gives: of each event two cells, the sort of the value and its amount.
const GIVEN_WIDTH: usize = 2;

const GIVEN_SORT: usize = 0;

const GIVEN_AMOUNT: usize = 1;

// The checker's answer to an accepted text: no single UINT64 MASK in EVENT itself; a list of another length than there are events; the first event
// that breaks its own rule, by its number among the events from 0; accepted.
#[derive(Clone, Copy, Debug, PartialEq, Eq)]
pub enum Checked {
    NotPlannable,
    WrongLength,
    Breaks(usize),
    Accepted,
}

// The planner's answer: the same, with the first event for which all 64 bits are taken, or how many events have their masks.
#[derive(Clone, Copy, Debug, PartialEq, Eq)]
pub enum Planned {
    NotPlannable,
    WrongLength,
    Full(usize),
    Made(usize),
}

// The checker's answer by what was found.
fn verdict(found: Option<usize>) -> Checked
    ensures { result ≡ named_found found }
{
    match found {
        Some(i) => Checked::Breaks(i),
        None => Checked::Accepted,
    }
}

// The checker for a plannable text whose rows are in the tables: the first m objects and the first n values.
fn check_rows(
    text: &[u8],
    d: &[usize],
    o: &[usize],
    v: &[usize],
    m: usize,
    n: usize,
    list: &[u64],
) -> Checked
    ensures { ChecksRows text.now d.now o.now v.now m n list.now result }
{
    let mut rows = [0usize; object::MOST];
    let e = events::event_rows(o, m, &mut rows);
    if e != list.len() {
        return Checked::WrongLength;
    }
    if object::MOST < e {
        return Checked::WrongLength;
    }
    let mut marks = [0u8; object::MOST * object::MOST];
    members::mark_all(o, v, n, &mut marks);
    let mut given = [0usize; object::MOST * GIVEN_WIDTH];
    members::fill_given(text, d, v, n, &rows, e, &mut given);
    let tasks = Tasks {
        marks: &marks,
        rows: &rows,
        count: m,
    };
    verdict(turns::first_breaking(&tasks, &given, list))
}

// The planner for such a text.
fn plan_rows(
    text: &[u8],
    d: &[usize],
    o: &[usize],
    v: &[usize],
    m: usize,
    n: usize,
    list: &mut [u64],
) -> Planned
    ensures { PlansRows text.now d.now o.now v.now m n list.old list.new result }
{
    let mut rows = [0usize; object::MOST];
    let e = events::event_rows(o, m, &mut rows);
    if list.len() < e {
        return Planned::WrongLength;
    }
    if object::MOST < e {
        return Planned::WrongLength;
    }
    let mut marks = [0u8; object::MOST * object::MOST];
    members::mark_all(o, v, n, &mut marks);
    let mut given = [0usize; object::MOST * GIVEN_WIDTH];
    members::fill_given(text, d, v, n, &rows, e, &mut given);
    let tasks = Tasks {
        marks: &marks,
        rows: &rows,
        count: m,
    };
    let mut masks = [0u64; object::MOST];
    turns::hand_out(&tasks, &given, &mut masks[..e], list)
}

// The checker for an accepted text: its reading w, and its rows in the tables.
fn check_read(
    text: &[u8],
    d: &[usize],
    o: &[usize],
    v: &[usize],
    w: Spanned,
    list: &[u64],
) -> Checked
    ensures { ChecksRead text.now d.now o.now v.now w list.now result }
{
    let r = w.reading;
    let places = w.places;
    if !members::defines_mask(text, d, places[object::EVENT], r.definitions) {
        return Checked::NotPlannable;
    }
    check_rows(text, d, o, v, r.objects, r.values, list)
}

// The planner for an accepted text.
fn plan_read(
    text: &[u8],
    d: &[usize],
    o: &[usize],
    v: &[usize],
    w: Spanned,
    list: &mut [u64],
) -> Planned
    ensures { PlansRead text.now d.now o.now v.now w list.old list.new result }
{
    let r = w.reading;
    let places = w.places;
    if !members::defines_mask(text, d, places[object::EVENT], r.definitions) {
        return Planned::NotPlannable;
    }
    plan_rows(text, d, o, v, r.objects, r.values, list)
}

// Whether a list has a mask for each event of a text, in object order, as the events' own rules ask.
pub fn check_masks(text: &[u8], masks: &[u64]) -> Result<Checked, Fault>
    ensures checks { result ≡ check text.now masks.now }
    ensures rules { ChecksByRules text.now masks.now result }
{
    let mut d = [0usize; definition::LENT];
    let mut e = [0usize; enumerator::LENT];
    let mut o = [0usize; object::LENT];
    let mut v = [0usize; value::LENT];
    let w = reading::read_spanned(text, &mut d, &mut e, &mut o, &mut v);
    let r = w.reading;
    let answer = r.answer;
    match answer {
        Answer::Refused(number, place) => Err(Fault { number, place }),
        Answer::Accepted => Ok(check_read(text, &d, &o, &v, w, masks)),
    }
}

// A mask for each event of a text, in object order, to the front of the list; the list stays on any refusal.
pub fn plan_masks(text: &[u8], masks: &mut [u64]) -> Result<Planned, Fault>
    ensures plans { PlansText text.now masks.old masks.new result }
    ensures rules { PlansByRules text.now masks.old masks.new result }
{
    let mut d = [0usize; definition::LENT];
    let mut e = [0usize; enumerator::LENT];
    let mut o = [0usize; object::LENT];
    let mut v = [0usize; value::LENT];
    let w = reading::read_spanned(text, &mut d, &mut e, &mut o, &mut v);
    let r = w.reading;
    let answer = r.answer;
    match answer {
        Answer::Refused(number, place) => Err(Fault { number, place }),
        Answer::Accepted => Ok(plan_read(text, &d, &o, &v, w, masks)),
    }
}
