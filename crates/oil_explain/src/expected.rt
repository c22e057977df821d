// What refusal 4 means at a place: what was found there, and what the grammar admits.
ghost use Rattle.std.specs.Prelude.{◌≤◌, ◌<◌};

use console::{Page, write};
use expecting::words;
use token::{Cursor, Sort, Step, Token};

// A token's bytes, or the first 40 of them.
pub fn write_bytes(rt: HostRuntime, page: &mut Page, text: &[u8], at: usize, len: usize) {
    write(rt, page, b"`");
    if 40 < len {
        write(rt, page, token::part(text, at, 40));
        write(rt, page, b"...`");
        return;
    }
    write(rt, page, token::part(text, at, len));
    write(rt, page, b"`");
}

// What is said before a word of this code: 1 to 5 are the reserved ones.
fn write_word(rt: HostRuntime, page: &mut Page, code: u8) {
    match code {
        1..=5 => write(rt, page, b"the reserved word "),
        _ => write(rt, page, b"the word "),
    }
}

// A string may have any bytes, so they are not written here.
fn write_token(rt: HostRuntime, page: &mut Page, text: &[u8], t: Token) {
    let at = t.at;
    let len = t.len;
    let sort = t.sort;
    match sort {
        Sort::Word(code) => write_word(rt, page, code),
        Sort::Number(_, _) => write(rt, page, b"the number "),
        Sort::String => {
            write(rt, page, b"a string");
            return;
        }
        Sort::Punctuator(_) => write(rt, page, b""),
        Sort::Float(_, _, _) => write(rt, page, b"the float "),
    }
    write_bytes(rt, page, text, at, len);
}

// What stands at the place.
fn write_found(rt: HostRuntime, page: &mut Page, text: &[u8], place: usize) {
    let cursor = Cursor { at: place };
    match cursor.step(text) {
        Step::Found(t, _) => {
            write(rt, page, b"found ");
            write_token(rt, page, text, t);
        }
        Step::Refused(_) => write(rt, page, b"no token begins here"),
        Step::End(_) => write(rt, page, b"the text ends here"),
    }
}

// How many flags are set.
fn count(flags: [bool; expecting::TERMINALS]) -> usize {
    let mut n = 0;
    for i in 0..expecting::TERMINALS {
        n += usize::from(flags[i]);
    }
    n
}

// What stands before the next word, where n of m are written.
fn write_separator(rt: HostRuntime, page: &mut Page, n: usize, m: usize)
    requires { n < 29 }
{
    if n == 0 {
        return;
    }
    if n + 1 == m {
        write(rt, page, b" or ");
        return;
    }
    write(rt, page, b", ");
}

// Document 01's word for a flag.
fn write_name(rt: HostRuntime, page: &mut Page, i: usize) {
    let letters = words::letters_of(i);
    write(rt, page, token::part(&letters, 0, words::length_of(i)));
}

// The word of the flag i, if it is set, where n of m are written.
fn write_set(rt: HostRuntime, page: &mut Page, set: bool, i: usize, n: usize, m: usize)
    requires { n < 29 }
{
    if set {
        write_separator(rt, page, n, m);
        write_name(rt, page, i);
    }
}

// The words of the flags that are set.
fn write_names(rt: HostRuntime, page: &mut Page, flags: [bool; expecting::TERMINALS]) {
    let m = count(flags);
    let mut n = 0;
    for i in 0..expecting::TERMINALS {
        write_set(rt, page, flags[i], i, n, m);
        n += usize::from(flags[i]);
    }
}

// What was found and what was expected.
pub fn write_unexpected(rt: HostRuntime, page: &mut Page, text: &[u8], place: usize) {
    write_found(rt, page, text, place);
    write(rt, page, b"; expected ");
    write_names(rt, page, expecting::expected(text, place));
}
