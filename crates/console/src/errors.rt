// What the programs say on standard error: what could not be opened, read or written, and why, a line and a write each.
use crate::{Page, files, write};
use std::fs::File;
use std::io::{Error, IsTerminal, Print};

// Why a call failed on a file, by its number of the system.
fn write_file_cause(rt: HostRuntime, line: &mut Page, error: usize) {
    match error {
        2 => write(rt, line, b"No such file or directory"),
        5 => write(rt, line, b"Input/output error"),
        9 => write(rt, line, b"Bad file descriptor"),
        13 => write(rt, line, b"Permission denied"),
        20 => write(rt, line, b"Not a directory"),
        21 => write(rt, line, b"Is a directory"),
        36 => write(rt, line, b"File name too long"),
        40 => write(rt, line, b"Too many levels of symbolic links"),
        84 => write(rt, line, b"the name is not UTF-8"),
        _ => write_number_of(rt, line, error),
    }
}

fn write_number_of(rt: HostRuntime, line: &mut Page, error: usize) {
    write(rt, line, b"error ");
    crate::write_number(rt, line, error);
}

// Why a call failed; 255 where the system gave no number.
fn write_cause(rt: HostRuntime, line: &mut Page, error: usize) {
    match error {
        255 => write(rt, line, b"nothing was taken"),
        4 => write(rt, line, b"Interrupted system call"),
        11 => write(rt, line, b"Resource temporarily unavailable"),
        22 => write(rt, line, b"Invalid argument"),
        24 => write(rt, line, b"Too many open files"),
        27 => write(rt, line, b"File too large"),
        28 => write(rt, line, b"No space left on device"),
        32 => write(rt, line, b"Broken pipe"),
        _ => write_file_cause(rt, line, error),
    }
}

// Writes bytes to standard error. Where that fails nothing is left to say it to.
fn send(rt: HostRuntime, bytes: &[u8]) {
    let _ = rt.stderr().write_all(bytes);
}

// Says the line that a page holds, and empties it. It has to be shorter than what a page takes before it is written out.
pub fn say_page(rt: HostRuntime, line: &mut Page) {
    send(rt, crate::held(line));
    crate::set_end(line, crate::START);
}

// The system's number of an error; 255 where it has none, as where a write took nothing.
pub fn number_of(error: &Error) -> usize {
    match error.raw_os_error() {
        Some(code) => number_of_code(code),
        None => 255,
    }
}

fn number_of_code(code: i32) -> usize {
    if code > 0 { code as usize } else { 255 }
}

// Says of a file what cannot be done, and why, by the system's number.
pub fn say_of(rt: HostRuntime, name: &[u8], what: &[u8], error: usize) {
    let mut line = [0; 360000];
    crate::write_shown(rt, &mut line, name);
    write(rt, &mut line, b": ");
    write(rt, &mut line, what);
    write(rt, &mut line, b": ");
    write_cause(rt, &mut line, error);
    write(rt, &mut line, b"\n");
    send(rt, crate::held(&line));
}

// Says of a file what cannot be done, and why.
pub fn say(rt: HostRuntime, name: &[u8], what: &[u8], error: &Error) {
    say_of(rt, name, what, number_of(error));
}

// Opens a file for reading, or says why it cannot; then the system's number of the error.
pub fn open(rt: HostRuntime, name: &[u8]) -> Result<File, usize> {
    match files::open(rt, name) {
        Ok(file) => Ok(file),
        Err(error) => {
            say(rt, name, b"cannot be opened", &error);
            Err(number_of(&error))
        }
    }
}

// Says a line as it stands, as how a program is called.
pub fn say_line(rt: HostRuntime, line: &[u8]) {
    send(rt, line);
}

// Says that a text is awaited, where standard input is a terminal.
pub fn say_waiting(rt: HostRuntime) {
    if rt.stdin().is_terminal() {
        say_line(rt, b"reading from the terminal; Ctrl-D ends the text\n");
    }
}
