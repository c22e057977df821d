// Holds the implementation of the text on standard input, or of the file named, with the files that it includes, to the standard attributes of 000,
// section 5.2, and writes `nothing wrong`, or what is wrong: file (`-` for the text on standard input), line, column, 25 or 26, the path of the
// attribute by its names, and what that means. A text that is not accepted takes `refused`, the refusal's number, and text and byte of its place, separated by tabs.
#![tactic(auto)]

use console::arguments::Asked;
use console::{Page, arguments, errors, whole, write, write_number};
use rows::{Fault, cells, refusals};
use standard::{Wrong, attribute, constants};

// The word of a kind that has standard attributes, by its number.
fn write_kind(rt: HostRuntime, page: &mut Page, number: usize) {
    match number {
        0 => write(rt, page, b"OS"),
        2 => write(rt, page, b"TASK"),
        3 => write(rt, page, b"ISR"),
        4 => write(rt, page, b"COUNTER"),
        5 => write(rt, page, b"ALARM"),
        6 => write(rt, page, b"RESOURCE"),
        _ => write(rt, page, b"EVENT"),
    }
}

// The word of the standard's text whose place and length stand in two cells of the row of an attribute.
fn write_word(rt: HostRuntime, page: &mut Page, attribute: usize, column: usize, column2: usize) {
    let section = constants::section_text();
    let rows = constants::section_rows();
    let at = cells::cell_of(&rows, attribute::WIDTH, attribute, column);
    let length = cells::cell_of(&rows, attribute::WIDTH, attribute, column2);
    write(rt, page, token::part(&section, at, length));
}

// The path of a standard attribute, as ALARM.ACTION=SETEVENT.EVENT.
fn write_path(rt: HostRuntime, page: &mut Page, attribute: usize) {
    let rows = constants::section_rows();
    write_kind(
        rt,
        page,
        cells::cell_of(&rows, attribute::WIDTH, attribute, attribute::KIND),
    );
    if cells::cell_of(&rows, attribute::WIDTH, attribute, attribute::ABOVE_LENGTH) != 0 {
        write(rt, page, b".");
        write_word(rt, page, attribute, 7, 8);
        write(rt, page, b"=");
        write_word(rt, page, attribute, 9, 10);
    }
    write(rt, page, b".");
    write_word(rt, page, attribute, 1, 2);
}

fn write_meaning(rt: HostRuntime, page: &mut Page, number: u8) {
    if number == refusals::LACKS_STANDARD {
        write(
            rt,
            page,
            b": the standard attribute is not defined in the scope of this word\n",
        );
        return;
    }
    write(
        rt,
        page,
        b": the attribute differs from the standard in type, list mark, values, WITH_AUTO or default\n",
    );
}

fn write_wrong(rt: HostRuntime, page: &mut Page, buffer: &[u8], lengths: &[usize], w: Wrong) {
    let mut lines = [0; 160];
    showing::write_position(rt, page, buffer, lengths, w.place, &mut lines);
    write_number(rt, page, w.number as usize);
    write(rt, page, b", ");
    write_path(rt, page, w.attribute);
    write_meaning(rt, page, w.number);
}

fn write_answer(
    rt: HostRuntime,
    page: &mut Page,
    buffer: &[u8],
    lengths: &[usize],
    answer: Result<Option<Wrong>, Fault>,
) {
    match answer {
        Err(f) => console::write_refusal(rt, page, f.number, f.place),
        Ok(None) => write(rt, page, b"nothing wrong\n"),
        Ok(Some(w)) => write_wrong(rt, page, buffer, lengths, w),
    }
}

// The answer to lent texts.
fn answer_of(
    buffer: &[u8],
    lengths: &[usize],
    origins: &mut [usize],
) -> Result<Option<Wrong>, Fault> {
    let mut expanded = [0; token::LONGEST];
    standard_texts::check_standard(buffer, lengths, &mut expanded, origins)
}

// The answer to the texts of the file named, or of standard input.
fn answer(rt: HostRuntime, page: &mut Page, names: usize) {
    let mut buffer = gathering::room();
    let mut lengths = [0; sources::LENGTHS];
    let mut origins = gathering::origin_cells();
    let told = gathering::gather_asked(rt, names, &mut buffer, &mut lengths, &mut origins);
    if told < 2 {
        return;
    }
    let answer = answer_of(&buffer, &lengths[..told], &mut origins);
    write_answer(rt, page, &buffer, &lengths[..told], answer);
}

fn write_help(rt: HostRuntime, page: &mut Page) {
    write(
        rt,
        page,
        b"oil_standard [FILE]: holds the implementation of FILE, or of standard input, to the standard attributes\n",
    );
}

fn main(rt: HostRuntime) {
    let mut page = [0; 360000];
    match arguments::given(rt, 1) {
        Asked::Names(n) => answer(rt, &mut page, n),
        Asked::Help => write_help(rt, &mut page),
        Asked::Version => whole::write_version(rt),
        Asked::Wrong => errors::say_line(rt, b"usage: oil_standard [FILE]; oil_standard --help\n"),
    }
    console::finish(rt, &mut page);
}
