// Plans the event masks of the text on standard input, with the files that it includes: a line for each event, `given` or `auto`, its name, and its
// mask in decimal and in hex, separated by tabs. With the name of a file of masks it checks these: `accepted`, or an event's name and what is wrong
// with its mask.
#![tactic(auto)]

ghost use Rattle.std.specs.Prelude.{◌≤◌, length, IfSome};

use console::arguments::Asked;
use console::{Page, arguments, errors, inputs, number, whole, write};
use layout::{definition, enumerator, object, sorts, value};
use masks::{Checked, Planned, events};
use rows::cells;
use token::{Cursor, Sort, Step};

// What stands next in a list of masks.
#[derive(Clone, Copy)]
enum Entry {
    // A mask, and the place after it.
    Mask(u64, usize),
    End,
    // Something else.
    Other,
}

fn write_not_plannable(rt: HostRuntime, page: &mut Page) {
    write(
        rt,
        page,
        b"not plannable: EVENT itself has no single UINT64 attribute MASK\n",
    );
}

// The name of the object of a row.
fn write_name(rt: HostRuntime, page: &mut Page, text: &[u8], o: &[usize], row: usize) {
    let at = cells::cell_of(o, object::LENT_WIDTH, row, object::NAME);
    let length = cells::cell_of(o, object::LENT_WIDTH, row, object::NAME_LENGTH);
    write(rt, page, token::part(text, at, length));
}

// Whether the mask of the event of a row is given; the values are the first n rows.
fn is_given(text: &[u8], d: &[usize], v: &[usize], n: usize, row: usize) -> bool {
    match events::find_mask(text, d, v, n, row) {
        Some(k) => cells::cell_of(v, value::WIDTH, k, value::SORT) == sorts::NUMBER,
        None => false,
    }
}

fn write_sort(rt: HostRuntime, page: &mut Page, given: bool) {
    if given {
        write(rt, page, b"given\t");
    } else {
        write(rt, page, b"auto\t");
    }
}

fn write_decimal(rt: HostRuntime, page: &mut Page, mask: u64) {
    let mut digits = [0u8; 20];
    let n = number::decimal(mask, &mut digits);
    write(rt, page, &digits[..n]);
}

// In hex.
fn write_digits(rt: HostRuntime, page: &mut Page, mask: u64) {
    let mut digits = [0u8; 16];
    let n = number::hex(mask, 1, &mut digits);
    write(rt, page, &digits[..n]);
}

fn write_mask(rt: HostRuntime, page: &mut Page, mask: u64) {
    write(rt, page, b"\t");
    write_decimal(rt, page, mask);
    write(rt, page, b"\t0x");
    write_digits(rt, page, mask);
    write(rt, page, b"\n");
}

fn mask_of(masks: &[u64], event: usize) -> u64 {
    masks.get(event).copied().unwrap_or(0)
}

// A line for each of so many events; their rows are in `rows`.
fn write_events(
    rt: HostRuntime,
    page: &mut Page,
    text: &[u8],
    d: &[usize],
    o: &[usize],
    v: &[usize],
    n: usize,
    rows: &[usize],
    masks: &[u64],
    count: usize,
) {
    for j in 0..count {
        let row = cells::get(rows, j);
        write_sort(rt, page, is_given(text, d, v, n, row));
        write_name(rt, page, text, o, row);
        write_mask(rt, page, mask_of(masks, j));
    }
}

// The plan of an accepted text.
fn write_plan(rt: HostRuntime, page: &mut Page, text: &[u8], masks: &[u64], count: usize) {
    let mut d = [0usize; definition::LENT];
    let mut e = [0usize; enumerator::LENT];
    let mut o = [0usize; object::LENT];
    let mut v = [0usize; value::LENT];
    let r = reading::read(text, &mut d, &mut e, &mut o, &mut v);
    let mut rows = [0usize; object::MOST];
    events::event_rows(&o, r.objects, &mut rows);
    write_events(rt, page, text, &d, &o, &v, r.values, &rows, masks, count);
}

fn is_single(mask: u64) -> bool {
    mask.is_power_of_two()
}

fn write_reason(rt: HostRuntime, page: &mut Page, given: bool, mask: u64) {
    if given {
        write(rt, page, b"the given mask is not kept\n");
        return;
    }
    if is_single(mask) {
        write(
            rt,
            page,
            b"the bit of this AUTO mask is in the mask of another event of a same task\n",
        );
        return;
    }
    write(rt, page, b"this AUTO mask is not a single bit\n");
}

// The name of an event of an accepted text, and what is wrong with its mask.
fn write_breaking(rt: HostRuntime, page: &mut Page, text: &[u8], event: usize, mask: u64) {
    let mut d = [0usize; definition::LENT];
    let mut e = [0usize; enumerator::LENT];
    let mut o = [0usize; object::LENT];
    let mut v = [0usize; value::LENT];
    let r = reading::read(text, &mut d, &mut e, &mut o, &mut v);
    let mut rows = [0usize; object::MOST];
    events::event_rows(&o, r.objects, &mut rows);
    let row = cells::get(&rows, event);
    write_name(rt, page, text, &o, row);
    write(rt, page, b"\t");
    write_reason(rt, page, is_given(text, &d, &v, r.values, row), mask);
}

// The name of an event of an accepted text for which there is no bit.
fn write_full(rt: HostRuntime, page: &mut Page, text: &[u8], event: usize) {
    let mut d = [0usize; definition::LENT];
    let mut e = [0usize; enumerator::LENT];
    let mut o = [0usize; object::LENT];
    let mut v = [0usize; value::LENT];
    let r = reading::read(text, &mut d, &mut e, &mut o, &mut v);
    let mut rows = [0usize; object::MOST];
    events::event_rows(&o, r.objects, &mut rows);
    write_name(rt, page, text, &o, cells::get(&rows, event));
    write(rt, page, b"\tall 64 bits are taken\n");
}

// The list has room for as many masks as there can be events.
fn plan(rt: HostRuntime, page: &mut Page, buffer: &[u8], lengths: &[usize], origins: &mut [usize]) {
    let mut expanded = [0; token::LONGEST];
    let e = sources::expand(buffer, lengths, &mut expanded, origins);
    let mut list = [0u64; object::MOST];
    let planned = masks_texts::plan_masks(buffer, lengths, &mut expanded, origins, &mut list);
    let text = token::part(&expanded, 0, e.length);
    match planned {
        Err(f) => console::write_refusal(rt, page, f.number, f.place),
        Ok(Planned::NotPlannable) => write_not_plannable(rt, page),
        Ok(Planned::WrongLength) => write(rt, page, b"wrong length\n"),
        Ok(Planned::Full(event)) => write_full(rt, page, text, event),
        Ok(Planned::Made(n)) => write_plan(rt, page, text, &list, n),
    }
}

fn entry_of(sort: Sort, next: usize) -> Entry {
    match sort {
        Sort::Number(false, amount) => Entry::Mask(amount, next),
        _ => Entry::Other,
    }
}

// A mask is a number as in a text: decimal, or hex with 0x.
fn next_entry(bytes: &[u8], at: usize) -> Entry {
    let cursor = Cursor { at };
    match cursor.step(bytes) {
        Step::Found(t, c) => {
            let sort = t.sort;
            entry_of(sort, c.at)
        }
        Step::Refused(_) => Entry::Other,
        Step::End(_) => Entry::End,
    }
}

// The masks of a list, as far as there is room for them: how many there are; `None` where something else stands in it.
fn read_list(bytes: &[u8], list: &mut [u64]) -> Option<usize>
    ensures { IfSome result (λ n. n ≤ length list.new) }
{
    let mut at = 0;
    for count in 0..list.len() {
        match next_entry(bytes, at) {
            Entry::Mask(mask, next) => {
                list[count] = mask;
                at = next;
            }
            Entry::End => return Some(count),
            Entry::Other => return None,
        }
    }
    Some(list.len())
}

fn check_list(
    rt: HostRuntime,
    page: &mut Page,
    buffer: &[u8],
    lengths: &[usize],
    origins: &mut [usize],
    masks: &[u64],
) {
    let mut expanded = [0; token::LONGEST];
    let e = sources::expand(buffer, lengths, &mut expanded, origins);
    let checked = masks_texts::check_masks(buffer, lengths, &mut expanded, origins, masks);
    let text = token::part(&expanded, 0, e.length);
    match checked {
        Err(f) => console::write_refusal(rt, page, f.number, f.place),
        Ok(Checked::NotPlannable) => write_not_plannable(rt, page),
        Ok(Checked::WrongLength) => write(
            rt,
            page,
            b"wrong length: the list has not one mask for each event\n",
        ),
        Ok(Checked::Breaks(event)) => write_breaking(rt, page, text, event, mask_of(masks, event)),
        Ok(Checked::Accepted) => write(rt, page, b"accepted\n"),
    }
}

// The masks of the bytes of a list.
fn check_bytes(
    rt: HostRuntime,
    page: &mut Page,
    buffer: &[u8],
    lengths: &[usize],
    origins: &mut [usize],
    bytes: &[u8],
) {
    let mut list = [0u64; object::ROWS];
    match read_list(bytes, &mut list) {
        Some(count) => check_list(rt, page, buffer, lengths, origins, &list[..count]),
        None => write(rt, page, b"the list has something that is no mask\n"),
    }
}

// Checks the masks of the file that the first argument names.
fn check(
    rt: HostRuntime,
    page: &mut Page,
    buffer: &[u8],
    lengths: &[usize],
    origins: &mut [usize],
) {
    let mut file = [0u8; token::PLACES];
    if let Ok(n) = inputs::read_named(rt, 1, &mut file) {
        check_bytes(rt, page, buffer, lengths, origins, token::part(&file, 0, n));
    }
}

fn answer(rt: HostRuntime, page: &mut Page, names: usize) {
    let mut buffer = gathering::room();
    let mut lengths = [0; sources::LENGTHS];
    let mut origins = gathering::origin_cells();
    let told = gathering::gather_input(rt, &mut buffer, &mut lengths, &mut origins);
    if told < 2 {
        return;
    }
    if names == 0 {
        plan(rt, page, &buffer, &lengths[..told], &mut origins);
        return;
    }
    check(rt, page, &buffer, &lengths[..told], &mut origins);
}

fn write_help(rt: HostRuntime, page: &mut Page) {
    write(
        rt,
        page,
        b"oil_masks: the event masks of the text on standard input, a line each\n",
    );
    write(
        rt,
        page,
        b"oil_masks LIST: checks the masks in the file LIST\n",
    );
}

fn main(rt: HostRuntime) {
    let mut page = [0; 360000];
    match arguments::given(rt, 1) {
        Asked::Names(n) => answer(rt, &mut page, n),
        Asked::Help => write_help(rt, &mut page),
        Asked::Version => whole::write_version(rt),
        Asked::Wrong => errors::say_line(rt, b"usage: oil_masks [LIST] < TEXT; oil_masks --help\n"),
    }
    console::finish(rt, &mut page);
}
