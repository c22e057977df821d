// What is written by itself, by one write if the system takes it so, and without a page: a text that lies in a buffer, and short lines.
use crate::{errors, number, put};
use std::io::Print;

// Room for `refused` and four numbers of at most 20 digits, each with the tab or line's end behind it.
pub type Line = [u8; 96];

// Writes bytes, and says why where that fails.
pub fn write(rt: HostRuntime, bytes: &[u8]) {
    if let Err(error) = rt.stdout().write_all(bytes) {
        errors::say(rt, b"standard output", b"cannot be written", &error);
    }
}

// Puts a number and what follows it; the place behind them.
fn put_number(line: &mut Line, at: usize, n: usize, after: &[u8]) -> usize {
    let mut digits = [0u8; 20];
    let k = number::decimal(n as u64, &mut digits);
    let end = put(line, at, &digits[..k]);
    put(line, end, after)
}

// Puts the number of a refusal and its place, and the line's end.
fn put_answer(line: &mut Line, at: usize, number: usize, place: usize) -> usize {
    let text = put_number(line, at, number, b"\t");
    let byte = put_number(line, text, place / token::PLACES, b"\t");
    put_number(line, byte, place % token::PLACES, b"\n")
}

// Makes the line of a refusal; its length.
pub fn put_refusal(line: &mut Line, number: usize, place: usize) -> usize {
    let at = put(line, 0, b"refused\t");
    put_answer(line, at, number, place)
}

// So many bytes of a line.
pub fn front(line: &Line, n: usize) -> &[u8] {
    token::part(line, 0, n)
}

// The line of a refusal.
pub fn write_refusal(rt: HostRuntime, number: usize, place: usize) {
    let mut line = [0; 96];
    let n = put_refusal(&mut line, number, place);
    write(rt, front(&line, n));
}

// The line of a refusal of the first or the second text.
pub fn write_refusal_of(rt: HostRuntime, which: usize, number: usize, place: usize) {
    let mut line = [0; 96];
    let at = put(&mut line, 0, b"refused\t");
    let next = put_number(&mut line, at, which, b"\t");
    let n = put_answer(&mut line, next, number, place);
    write(rt, front(&line, n));
}

// The answer to `--version`.
pub fn write_version(rt: HostRuntime) {
    write(rt, b"Kaukslini 1.0, for OIL 2.5\n");
}
