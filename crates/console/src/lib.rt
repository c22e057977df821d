// What the programs write to standard output: bytes, numbers, the refused line. Lines go through a page, which is written at once; what lies in a buffer
// already is written by itself (`whole`).
#![tactic(auto)]

pub mod arguments;
pub mod errors;
pub mod files;
pub mod inputs;
pub mod number;
pub mod whole;

ghost use Rattle.std.specs.Prelude.{◌≤◌};

use std::io::Print;

// What is to be written: in the first three bytes the place behind it, in the fourth the number of the error where a write has failed, and from the
// fifth on the bytes. A page of zeros is empty. The longest line of a program, that of `oil_heading` for a name of 4,095 bytes and a version of 65,533,
// each of them shown as four, has less than 279,996 bytes.
pub const ROOM: usize = 360000;

pub type Page = [u8; ROOM];

// Where the bytes of a page begin.
const START: usize = 4;

// At the end of a line a page is written out where it is filled up to here.
const FULL: usize = 80004;

fn wide(byte: u8) -> usize
    ensures { result ≤ 255 }
{
    byte as usize
}

// The place behind what a page holds.
fn end_of(page: &Page) -> usize
    ensures lower_bound { 4 ≤ result }
    ensures upper_bound { result ≤ 360000 }
{
    let end = wide(page[0]) * 65536 + wide(page[1]) * 256 + wide(page[2]);
    end.max(START).min(ROOM)
}

fn set_end(page: &mut Page, end: usize) {
    page[0] = (end / 65536 % 256) as u8;
    page[1] = (end / 256 % 256) as u8;
    page[2] = (end % 256) as u8;
}

// Puts bytes from a place on, as far as there is room; the place behind them.
pub fn put(out: &mut [u8], at: usize, bytes: &[u8]) -> usize {
    if out.len() <= at {
        return at;
    }
    let n = bytes.len().min(out.len() - at);
    out[at..at + n].copy_from_slice(&bytes[..n]);
    at + n
}

// What a page holds.
fn held(page: &Page) -> &[u8] {
    token::part(page, START, end_of(page) - START)
}

// The number of the error of a write that has failed; 0 where all that a page holds is written.
fn error_of_writing(rt: HostRuntime, page: &Page) -> u8 {
    match rt.stdout().write_all(held(page)) {
        Ok(()) => 0,
        Err(error) => (errors::number_of(&error) % 256) as u8,
    }
}

// Writes out what a page holds, by one write if the system takes it so, and empties it. Nothing is written where a write has failed before.
pub fn flush(rt: HostRuntime, page: &mut Page) {
    if page[3] == 0 {
        page[3] = error_of_writing(rt, page);
    }
    set_end(page, START);
}

// Writes out what a page holds, as the last thing that a program does, and says why where a write has failed.
pub fn finish(rt: HostRuntime, page: &mut Page) {
    flush(rt, page);
    if page[3] != 0 {
        errors::say_of(rt, b"standard output", b"cannot be written", wide(page[3]));
    }
}

// Whether a page has no room for so many bytes more.
fn lacks_room(page: &Page, n: usize) -> bool {
    let end = end_of(page);
    ROOM - end < n
}

// Puts bytes behind what a page holds; the place behind them.
fn append(page: &mut Page, bytes: &[u8]) -> usize {
    let start = end_of(page);
    let end = put(page, start, bytes);
    set_end(page, end);
    end
}

// Writes bytes: to a page, which is written out before them where it has no room for them, and after them where they end a line and it is full.
pub fn write(rt: HostRuntime, page: &mut Page, bytes: &[u8]) {
    if lacks_room(page, bytes.len()) {
        flush(rt, page);
    }
    let end = append(page, bytes);
    if end < FULL {
        return;
    }
    if bytes.ends_with(b"\n") {
        flush(rt, page);
    }
}

pub fn write_number(rt: HostRuntime, page: &mut Page, n: usize) {
    let mut digits = [0u8; 20];
    let k = number::decimal(n as u64, &mut digits);
    write(rt, page, &digits[..k]);
}

// A place of the lent texts: the text's number, a tab, the byte.
pub fn write_place(rt: HostRuntime, page: &mut Page, place: usize) {
    write_number(rt, page, place / token::PLACES);
    write(rt, page, b"\t");
    write_number(rt, page, place % token::PLACES);
}

// The number of a refusal and its place, and the line's end.
pub fn write_answer(rt: HostRuntime, page: &mut Page, number: usize, place: usize) {
    write_number(rt, page, number);
    write(rt, page, b"\t");
    write_place(rt, page, place);
    write(rt, page, b"\n");
}

// The line of a refusal: its number, and text and byte of its place.
pub fn write_refusal(rt: HostRuntime, page: &mut Page, number: u8, place: usize) {
    let mut line = [0; 96];
    let n = whole::put_refusal(&mut line, number as usize, place);
    write(rt, page, whole::front(&line, n));
}

// A blank or a character that stands for itself.
fn is_plain(byte: u8) -> bool {
    byte != b'\\' && 32 <= byte && byte < 127
}

// A byte as two digits in lower-case hex.
pub fn write_hex(rt: HostRuntime, page: &mut Page, byte: u8) {
    let mut digits = [0u8; 16];
    let k = number::hex(byte as u64, 2, &mut digits);
    write(rt, page, &digits[..k]);
}

// The first place from one on where no plain byte stands; the end where there is none.
fn plain_end(bytes: &[u8], from: usize) -> usize
    ensures { from ≤ result }
{
    for i in from..bytes.len() {
        if !is_plain(bytes[i]) {
            return i;
        }
    }
    from.max(bytes.len())
}

// A byte that is no plain character.
fn write_other(rt: HostRuntime, page: &mut Page, byte: u8) {
    write(rt, page, b"\\x");
    write_hex(rt, page, byte);
}

// Bytes as they can be shown on a line: those that are no plain characters of ASCII, and `\`, as `\x` and two hex digits.
pub fn write_shown(rt: HostRuntime, page: &mut Page, bytes: &[u8]) {
    let mut i = 0;
    // A `while`: each turn takes a run of plain bytes and the byte after it, so no range counts them.
    while i < bytes.len() {
        let end = plain_end(bytes, i);
        write(rt, page, token::part(bytes, i, end - i));
        i = end;
        if i < bytes.len() {
            write_other(rt, page, bytes[i]);
            i += 1;
        }
    }
}
