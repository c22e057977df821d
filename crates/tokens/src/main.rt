// Writes the tokens of the text on standard input, or of the file named, a line each: place, length, sort and the token itself, parted by tabs. The
// last line is `end` and the text's length, or `refused`, the refusal's number and its place.
#![tactic(auto)]

use console::arguments::Asked;
use console::{Page, arguments, errors, inputs, whole, write, write_number};
use token::{Cursor, LONGEST, Sort, Step, Token};

fn write_sort(rt: HostRuntime, page: &mut Page, sort: Sort) {
    match sort {
        Sort::Word(_) => write(rt, page, b"\tword\t"),
        Sort::Number(_, _) => write(rt, page, b"\tnumber\t"),
        Sort::String => write(rt, page, b"\tstring\t"),
        Sort::Punctuator(_) => write(rt, page, b"\tpunctuator\t"),
        Sort::Float(_, _, _) => write(rt, page, b"\tfloat\t"),
    }
}

fn write_token(rt: HostRuntime, page: &mut Page, text: &[u8], token: Token) {
    let sort = token.sort;
    let at = token.at;
    let len = token.len;
    write_number(rt, page, at);
    write(rt, page, b"\t");
    write_number(rt, page, len);
    write_sort(rt, page, sort);
    write(rt, page, token::part(text, at, len));
    write(rt, page, b"\n");
}

fn write_end(rt: HostRuntime, page: &mut Page, place: usize) {
    write(rt, page, b"end\t");
    write_number(rt, page, place);
    write(rt, page, b"\n");
}

fn write_refusal(rt: HostRuntime, page: &mut Page, number: usize, place: usize) {
    write(rt, page, b"refused\t");
    write_number(rt, page, number);
    write(rt, page, b"\t");
    write_number(rt, page, place);
    write(rt, page, b"\n");
}

fn write_tokens(rt: HostRuntime, page: &mut Page, text: &[u8]) {
    let mut cursor = Cursor::new();
    loop {
        match cursor.step(text) {
            Step::Found(token, next) => {
                write_token(rt, page, text, token);
                cursor = next;
            }
            Step::Refused(place) => {
                write_refusal(rt, page, 3, place);
                return;
            }
            Step::End(place) => {
                write_end(rt, page, place);
                return;
            }
        }
    }
}

// The answer to a text, which may be too long.
fn write_bytes(rt: HostRuntime, page: &mut Page, text: &[u8]) {
    if LONGEST < text.len() {
        write_refusal(rt, page, 2, 0);
        return;
    }
    write_tokens(rt, page, text);
}

// The answer to the text of the file named, or of standard input.
fn answer(rt: HostRuntime, page: &mut Page, names: usize) {
    let mut buffer = [0u8; token::PLACES];
    if let Ok(n) = inputs::read_asked(rt, names, &mut buffer) {
        write_bytes(rt, page, token::part(&buffer, 0, n));
    }
}

fn write_help(rt: HostRuntime, page: &mut Page) {
    write(
        rt,
        page,
        b"tokens [FILE]: the tokens of FILE, or of standard input, a line each: place, length, sort, token\n",
    );
}

fn main(rt: HostRuntime) {
    let mut page = [0; 360000];
    match arguments::given(rt, 1) {
        Asked::Names(n) => answer(rt, &mut page, n),
        Asked::Help => write_help(rt, &mut page),
        Asked::Version => whole::write_version(rt),
        Asked::Wrong => errors::say_line(rt, b"usage: tokens [FILE]; tokens --help\n"),
    }
    console::finish(rt, &mut page);
}
