// Mends the text on standard input, or of the file named, with the files that it includes: the statements at fault by 13 or 14 are dropped (document 02,
// Q-11). The mended text goes to standard output; a line for each drop, with text, byte, length and number, and the dropped words, to standard error. A
// text that cannot be mended takes `refused`, the refusal's number, and text and byte of its place, separated by tabs.
#![tactic(auto)]

use console::arguments::Asked;
use console::{Page, arguments, errors, whole, write, write_number};
use token::{Cursor, Sort, Step};

// A number, and the place after it.
#[derive(Clone, Copy)]
struct Spot {
    amount: usize,
    at: usize,
}

// A number and a tab.
fn write_field(rt: HostRuntime, line: &mut Page, n: usize) {
    write_number(rt, line, n);
    write(rt, line, b"\t");
}

fn amount_of(sort: Sort) -> usize {
    match sort {
        Sort::Number(_, n) => n as usize,
        _ => 0,
    }
}

// The number at a place of the lines.
fn number_at(lines: &[u8], at: usize) -> Spot {
    let cursor = Cursor { at };
    match cursor.step(lines) {
        Step::Found(t, c) => {
            let sort = t.sort;
            Spot {
                amount: amount_of(sort),
                at: c.at,
            }
        }
        Step::Refused(p) => Spot { amount: 0, at: p },
        Step::End(p) => Spot { amount: 0, at: p },
    }
}

// Whether there is a line from a place on.
fn has_line(lines: &[u8], at: usize) -> bool {
    let cursor = Cursor { at };
    match cursor.step(lines) {
        Step::Found(_, _) => true,
        Step::Refused(_) => false,
        Step::End(_) => false,
    }
}

// Whether a byte with this origin stands at a byte of a text.
fn is_from(origin: usize, text: usize, byte: usize) -> bool {
    origin / token::PLACES == text && origin % token::PLACES == byte
}

// The first place of the expanded text, from one on, whose byte stands at a byte of a text.
fn expanded_at(origins: &[usize], from: usize, text: usize, byte: usize) -> usize {
    for i in from..origins.len() {
        if is_from(origins[i], text, byte) {
            return i;
        }
    }
    from.max(origins.len())
}

// Says the line at a place, and the dropped words, which are sought in the expanded text from a place on: a statement may have an include line inside.
// Returns the place after the line, and that of the words.
fn say_drop(
    rt: HostRuntime,
    line: &mut Page,
    expanded: &[u8],
    origins: &[usize],
    lines: &[u8],
    at: usize,
    from: usize,
) -> Spot {
    let text = number_at(lines, at);
    let byte = number_at(lines, text.at);
    let length = number_at(lines, byte.at);
    let number = number_at(lines, length.at);
    let words = expanded_at(origins, from, text.amount, byte.amount);
    write_field(rt, line, text.amount);
    write_field(rt, line, byte.amount);
    write_field(rt, line, length.amount);
    write_field(rt, line, number.amount);
    write(rt, line, token::part(expanded, words, length.amount));
    write(rt, line, b"\n");
    errors::say_page(rt, line);
    Spot {
        amount: words,
        at: number.at,
    }
}

// All lines, of which each is made on a page; there are fewer than bytes in a text.
fn say_drops(rt: HostRuntime, line: &mut Page, expanded: &[u8], origins: &[usize], lines: &[u8]) {
    let mut at = 0;
    let mut words = 0;
    for _ in 0..token::PLACES {
        if !has_line(lines, at) {
            return;
        }
        let next = say_drop(rt, line, expanded, origins, lines, at, words);
        at = next.at;
        words = next.amount;
    }
}

// The same on a page of its own.
fn say_dropped(rt: HostRuntime, expanded: &[u8], origins: &[usize], lines: &[u8]) {
    let mut line = [0; 360000];
    say_drops(rt, &mut line, expanded, origins, lines);
}

// A dropped statement has four bytes or more and a line at most seventeen.
fn mend(rt: HostRuntime, buffer: &[u8], lengths: &[usize], origins: &mut [usize]) {
    let mut expanded = [0; token::LONGEST];
    let mut text = [0; token::LONGEST];
    let mut lines = [0; 300000];
    match mending_texts::mend(
        buffer,
        lengths,
        &mut expanded,
        origins,
        &mut text,
        &mut lines,
    ) {
        Err(f) => whole::write_refusal(rt, f.number as usize, f.place),
        Ok(m) => {
            whole::write(rt, token::part(&text, 0, m.text));
            say_dropped(rt, &expanded, origins, token::part(&lines, 0, m.lines));
        }
    }
}

// Mends the texts of the file named, or of standard input.
fn answer(rt: HostRuntime, names: usize) {
    let mut buffer = gathering::room();
    let mut lengths = [0; sources::LENGTHS];
    let mut origins = gathering::origin_cells();
    let told = gathering::gather_asked(rt, names, &mut buffer, &mut lengths, &mut origins);
    if told < 2 {
        return;
    }
    mend(rt, &buffer, &lengths[..told], &mut origins);
}

fn write_help(rt: HostRuntime) {
    whole::write(
        rt,
        b"oil_mend [FILE]: FILE, or the text on standard input, without the statements at fault by 13 or 14\n",
    );
}

fn main(rt: HostRuntime) {
    match arguments::given(rt, 1) {
        Asked::Names(n) => answer(rt, n),
        Asked::Help => write_help(rt),
        Asked::Version => whole::write_version(rt),
        Asked::Wrong => errors::say_line(rt, b"usage: oil_mend [FILE]; oil_mend --help\n"),
    }
}
