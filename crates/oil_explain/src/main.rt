// Reads the text on standard input, or of the file named, and the files that it includes, and writes `accepted`, or why it is refused: file (`-` for
// the text on standard input), line, column, number and meaning of the refusal, the line of its place, and a mark under the token there; the same of a
// second place where there is one; and where to read on. Refusals that have no place in the texts take the first and the last of these lines alone,
// without file, line and column. Asked by `FILE --which`, it says of a refusal of 14 to 16 or 18 which attribute it is about, and shows the place that
// belongs to it, also for 13.
#![tactic(auto)]

use console::arguments::Asked;
use console::{Page, arguments, errors, whole, write, write_number};
use layout::{definition, enumerator, object, value};
use reading::Answer;
use rows::cells;

mod expected;
mod which;

// What a refusal from 1 to 9, but for 4, means.
fn write_early(rt: HostRuntime, page: &mut Page, number: u8) {
    match number {
        1 => write(rt, page, b"the lent tables are too short"),
        3 => write(
            rt,
            page,
            b"no token begins here, or a string or comment that begins here is not ended",
        ),
        5 => write(
            rt,
            page,
            b"this brace is the seventeenth open one; at most sixteen may be open",
        ),
        6 => write(rt, page, b"the version string is not 2.5"),
        7 => write(
            rt,
            page,
            b"more than 512 definitions, or more than 1,024 enumerators, TRUE and FALSE not counted",
        ),
        8 => write(
            rt,
            page,
            b"a kind specified, an attribute defined in its scope, or an enumerator listed a second time",
        ),
        _ => write(
            rt,
            page,
            b"the name stands under another value of the same attribute with other type words",
        ),
    }
}

// What refusal 21 means at a place of the expanded text: which of its two faults it is.
fn write_bound(rt: HostRuntime, page: &mut Page, text: &[u8], place: usize) {
    if explaining::bounds::outside_type(text, place) {
        write(
            rt,
            page,
            b"the bound or listed number lies outside its type",
        );
        return;
    }
    write(rt, page, b"the low bound is above the high one");
}

// What refusal 4, 13 to 16, 18 or 21 means at a place of the expanded text.
fn write_cause(rt: HostRuntime, page: &mut Page, text: &[u8], number: u8, place: usize) {
    match number {
        4 => expected::write_unexpected(rt, page, text, place),
        21 => write_bound(rt, page, text, place),
        _ => which::write_which(rt, page, text, number, place),
    }
}

// The same; the reading of the expanded text has its place there.
fn write_cause_in(rt: HostRuntime, page: &mut Page, text: &[u8]) {
    let mut definitions = [0; definition::LENT];
    let mut enumerators = [0; enumerator::LENT];
    let mut objects = [0; object::LENT];
    let mut values = [0; value::LENT];
    let r = reading::read(
        text,
        &mut definitions,
        &mut enumerators,
        &mut objects,
        &mut values,
    );
    let answer = r.answer;
    match answer {
        Answer::Accepted => {}
        Answer::Refused(number, place) => write_cause(rt, page, text, number, place),
    }
}

// The same for the lent texts.
fn write_cause_of(rt: HostRuntime, page: &mut Page, buffer: &[u8], lengths: &[usize]) {
    let mut expanded = [0; token::LONGEST];
    let mut origins = [0; token::LONGEST];
    let e = sources::expand(buffer, lengths, &mut expanded, &mut origins);
    write_cause_in(rt, page, token::part(&expanded, 0, e.length));
}

// What a refusal from 27 on means.
fn write_including(rt: HostRuntime, page: &mut Page, number: u8) {
    match number {
        27 => write(rt, page, b"the text is included while it is still open"),
        28 => write(
            rt,
            page,
            b"the file is not there, cannot be opened, or would be the ninth text",
        ),
        29 => write(rt, page, b"a `#` that is not that of an include line"),
        _ => write(
            rt,
            page,
            b"more than 65,535 bytes in one text or after expansion",
        ),
    }
}

// What a refusal means; 2, 10 and 12 are no longer given.
fn write_meaning(rt: HostRuntime, page: &mut Page, buffer: &[u8], lengths: &[usize], number: u8) {
    match number {
        11 => write(
            rt,
            page,
            b"more than 256 objects, more than 512 parts, or more than 2,048 statements",
        ),
        13 => write(rt, page, b"the name is not defined in its scope"),
        14 => write(
            rt,
            page,
            b"an attribute that is no list is stated again, in its braces or in a part of its object",
        ),
        15 => write(
            rt,
            page,
            b"the value does not fit its attribute: wrong sort, out of range, unknown enumerator, or AUTO not allowed; or braces after a reference",
        ),
        16 => write(
            rt,
            page,
            b"an attribute of this object or value must be stated and is not",
        ),
        17 => write(rt, page, b"a second OS, COM or NM, or no OS or no APPMODE"),
        18 => write(rt, page, b"the reference names no object of its kind"),
        19 => write(rt, page, b"more than 2,048 resolved values"),
        20 => write(
            rt,
            page,
            b"the written text is longer than the output's room",
        ),
        4 | 21 => write_cause_of(rt, page, buffer, lengths),
        22 => write(rt, page, b"a default outside type, range or list"),
        23 => write(rt, page, b"AUTO as a default without WITH_AUTO"),
        24 => write(
            rt,
            page,
            b"the name is used before by an object of another kind",
        ),
        27 | 28 | 29 | 30 => write_including(rt, page, number),
        _ => write_early(rt, page, number),
    }
}

fn write_refusal(rt: HostRuntime, page: &mut Page, buffer: &[u8], lengths: &[usize], number: u8) {
    write(rt, page, b"refusal ");
    write_number(rt, page, number as usize);
    write(rt, page, b": ");
    write_meaning(rt, page, buffer, lengths, number);
    write(rt, page, b"\n");
}

// The same of 13 to 16 or 18, with the attribute that it is about.
fn write_which(rt: HostRuntime, page: &mut Page, buffer: &[u8], lengths: &[usize], number: u8) {
    write(rt, page, b"refusal ");
    write_number(rt, page, number as usize);
    write(rt, page, b": ");
    write_cause_of(rt, page, buffer, lengths);
    write(rt, page, b"\n");
}

fn write_placed(
    rt: HostRuntime,
    page: &mut Page,
    buffer: &[u8],
    lengths: &[usize],
    number: u8,
    place: usize,
) {
    let mut lines = [0; 160];
    let told = showing::write_position(rt, page, buffer, lengths, place, &mut lines);
    write_refusal(rt, page, buffer, lengths, number);
    showing::write_lines(rt, page, told, &lines);
}

// The same of 13 to 16 or 18, with the attribute that it is about.
fn write_placed_which(
    rt: HostRuntime,
    page: &mut Page,
    buffer: &[u8],
    lengths: &[usize],
    number: u8,
    place: usize,
) {
    let mut lines = [0; 160];
    let told = showing::write_position(rt, page, buffer, lengths, place, &mut lines);
    write_which(rt, page, buffer, lengths, number);
    showing::write_lines(rt, page, told, &lines);
}

// The place that belongs to a refusal: where it stands first what 8 or 24 is given for, an attribute of its scope, an object's name; of 13 to 16 and 18
// that of `which`; 0 where there is no such place.
fn first_of(text: &[u8]) -> usize {
    let mut definitions = [0; definition::LENT];
    let mut enumerators = [0; enumerator::LENT];
    let mut objects = [0; object::LENT];
    let mut values = [0; value::LENT];
    let r = reading::read(
        text,
        &mut definitions,
        &mut enumerators,
        &mut objects,
        &mut values,
    );
    let answer = r.answer;
    match answer {
        Answer::Accepted => 0,
        Answer::Refused(number, place) => match number {
            8 => causes::first_defined(text, place),
            24 => causes::first_named(text, place),
            13 | 14 | 15 | 16 | 18 => which::second_of(text, number, place),
            _ => 0,
        },
    }
}

// The same as a place of the lent texts.
fn second_place(buffer: &[u8], lengths: &[usize]) -> usize {
    let mut expanded = [0; token::LONGEST];
    let mut origins = [0; token::LONGEST];
    let e = sources::expand(buffer, lengths, &mut expanded, &mut origins);
    let first = first_of(token::part(&expanded, 0, e.length));
    if first == 0 {
        return 0;
    }
    cells::get(&origins, first)
}

fn write_second(
    rt: HostRuntime,
    page: &mut Page,
    buffer: &[u8],
    lengths: &[usize],
    number: u8,
    place: usize,
) {
    let mut lines = [0; 160];
    let told = showing::write_position(rt, page, buffer, lengths, place, &mut lines);
    which::write_label(rt, page, number);
    showing::write_lines(rt, page, told, &lines);
}

// The second place of a refusal, where there is one.
fn write_other(rt: HostRuntime, page: &mut Page, buffer: &[u8], lengths: &[usize], number: u8) {
    let second = second_place(buffer, lengths);
    if second == 0 {
        return;
    }
    write_second(rt, page, buffer, lengths, number, second);
}

// A refusal of 8 or 24, with its second place.
fn write_twice(
    rt: HostRuntime,
    page: &mut Page,
    buffer: &[u8],
    lengths: &[usize],
    number: u8,
    place: usize,
) {
    write_placed(rt, page, buffer, lengths, number, place);
    write_other(rt, page, buffer, lengths, number);
}

// A refusal of 13 to 16 or 18, with the attribute that it is about where that is asked for.
fn write_asked(
    rt: HostRuntime,
    page: &mut Page,
    buffer: &[u8],
    lengths: &[usize],
    number: u8,
    place: usize,
    which: bool,
) {
    if which {
        write_placed_which(rt, page, buffer, lengths, number, place);
        write_other(rt, page, buffer, lengths, number);
        return;
    }
    write_placed(rt, page, buffer, lengths, number, place);
}

// Where to read on.
fn write_section(rt: HostRuntime, page: &mut Page, number: u8) {
    write(rt, page, b"see docs/REFUSALS.md, ");
    write_number(rt, page, number as usize);
    write(rt, page, b"\n");
}

fn write_answer(
    rt: HostRuntime,
    page: &mut Page,
    buffer: &[u8],
    lengths: &[usize],
    answer: Answer,
    which: bool,
) {
    match answer {
        Answer::Accepted => write(rt, page, b"accepted\n"),
        Answer::Refused(number, place) => match number {
            1 | 19 | 20 | 30 => {
                write_refusal(rt, page, buffer, lengths, number);
                write_section(rt, page, number);
            }
            8 | 24 => {
                write_twice(rt, page, buffer, lengths, number, place);
                write_section(rt, page, number);
            }
            13 | 14 | 15 | 16 | 18 => {
                write_asked(rt, page, buffer, lengths, number, place, which);
                write_section(rt, page, number);
            }
            _ => {
                write_placed(rt, page, buffer, lengths, number, place);
                write_section(rt, page, number);
            }
        },
    }
}

// The answer to lent texts.
fn answer_of(buffer: &[u8], lengths: &[usize], origins: &mut [usize]) -> Answer {
    let mut expanded = [0; token::LONGEST];
    let mut definitions = [0; definition::LENT];
    let mut enumerators = [0; enumerator::LENT];
    let mut objects = [0; object::LENT];
    let mut values = [0; value::LENT];
    let r = reading_texts::read(
        buffer,
        lengths,
        &mut expanded,
        origins,
        &mut definitions,
        &mut enumerators,
        &mut objects,
        &mut values,
    );
    let answer = r.answer;
    answer
}

// The answer to the texts of the file named, or of standard input.
fn answer(rt: HostRuntime, page: &mut Page, names: usize, which: bool) {
    let mut buffer = gathering::room();
    let mut lengths = [0; sources::LENGTHS];
    let mut origins = gathering::origin_cells();
    let told = gathering::gather_asked(rt, names, &mut buffer, &mut lengths, &mut origins);
    if told < 2 {
        return;
    }
    let answer = answer_of(&buffer, &lengths[..told], &mut origins);
    write_answer(rt, page, &buffer, &lengths[..told], answer, which);
}

// Whether the second argument is `--which`.
fn is_which(rt: HostRuntime) -> bool {
    let mut word = [0u8; 4096];
    let n = arguments::argument(rt, 2, &mut word);
    arguments::is_same(&word[..n], b"--which")
}

fn say_usage(rt: HostRuntime) {
    errors::say_line(
        rt,
        b"usage: oil_explain [FILE]; oil_explain FILE --which; oil_explain --help\n",
    );
}

// What is asked by so many arguments: of two the second is `--which`.
fn answer_asked(rt: HostRuntime, page: &mut Page, names: usize) {
    if names < 2 {
        answer(rt, page, names, false);
        return;
    }
    if is_which(rt) {
        answer(rt, page, names, true);
        return;
    }
    say_usage(rt);
}

fn write_help(rt: HostRuntime, page: &mut Page) {
    write(
        rt,
        page,
        b"oil_explain [FILE]: accepted, or why FILE, or the text on standard input, is refused, and where; oil_explain FILE --which: also which attribute\n",
    );
}

fn main(rt: HostRuntime) {
    let mut page = [0; 360000];
    match arguments::given(rt, 2) {
        Asked::Names(n) => answer_asked(rt, &mut page, n),
        Asked::Help => write_help(rt, &mut page),
        Asked::Version => whole::write_version(rt),
        Asked::Wrong => say_usage(rt),
    }
    console::finish(rt, &mut page);
}
