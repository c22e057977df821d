// Include lines.
ghost use Rattle.std.specs.Prelude.{◌≡◌, true, ◌≤◌, ◌<◌, length};
ghost use Rattle.sources.specs.Lines.{is_aside, aside_at, aside, closing, quoted, named, whole_to, after_line, line_of, hash_at, stop_at};

use super::{Line, Stop, scan};
use token::{Cursor, Step, find_byte, find_close, pair};

// Whether a byte may stand on an include line: space, tab, CR.
fn is_aside(b: u8) -> bool
    ensures { result ≡ is_aside b }
{
    if b == b' ' {
        return true;
    }
    if b == b'\t' {
        return true;
    }
    b == b'\r'
}

// The place after what is set aside at a place of a line; the place itself where nothing is.
fn aside_at(line: &[u8], at: usize) -> usize
    ensures { result ≡ aside_at line.now at }
{
    if line.len() <= at {
        return at;
    }
    if is_aside(line[at]) {
        return at + 1;
    }
    if pair(line, at, b'/', b'/') {
        return line.len();
    }
    if pair(line, at, b'/', b'*') {
        let close = find_close(line, at + 2);
        if close < line.len() {
            return close + 2;
        }
        return at;
    }
    at
}

// The place after all that is set aside from a place of a line on.
fn aside(line: &[u8], from: usize) -> usize
    ensures { result ≡ aside line.now from }
{
    let mut i = from;
    loop {
        let next = aside_at(line, i);
        if next == i {
            return i;
        }
        i = next;
    }
}

// The name after its opening byte, from a place to another, up to its closing byte, if only what is set aside follows.
fn closing(line: &[u8], at: usize, b: u8) -> Option<(usize, usize)>
    requires { at < length line.now }
    ensures { result ≡ closing line.now at b }
{
    let close = find_byte(line, at + 1, b);
    if line.len() <= close {
        return None;
    }
    let end = aside(line, close + 1);
    if end == line.len() {
        return Some((at + 1, close));
    }
    None
}

// The name in quotes or angle brackets at a place.
fn quoted(line: &[u8], at: usize) -> Option<(usize, usize)>
    ensures { result ≡ quoted line.now at }
{
    if line.len() <= at {
        return None;
    }
    let b = line[at];
    if b == b'"' {
        return closing(line, at, b'"');
    }
    if b == b'<' {
        return closing(line, at, b'>');
    }
    None
}

// The name on a line with a `#` at a place, if it is an include line.
pub fn named(line: &[u8], hash: usize) -> Option<(usize, usize)>
    requires { hash ≤ length line.now }
    ensures { result ≡ named line.now hash }
{
    let before = aside(line, 0);
    if before != hash {
        return None;
    }
    if line.len() - hash < 8 {
        return None;
    }
    let word: &[u8] = b"#include";
    if &line[hash..hash + 8] == word {
        let at = aside(line, hash + 8);
        return quoted(line, at);
    }
    None
}

// Whether from a place to the end there are only blanks and ended comments.
fn whole_to(text: &[u8], at: usize) -> bool
    ensures { result ≡ whole_to text.now at }
{
    match (Cursor { at }).step(text) {
        Step::Found(_, _) => false,
        Step::Refused(_) => false,
        Step::End(_) => true,
    }
}

// The place after a line's end and its LF.
fn after_line(text: &[u8], end: usize) -> usize
    ensures { result ≡ after_line text.now end }
{
    if end < text.len() {
        return end + 1;
    }
    end
}

// The include line of a `#`, with only blanks and comments between the place last and it; else the fault.
fn line_of(text: &[u8], last: usize, hash: usize) -> Stop
    requires { hash < length text.now }
    ensures { result ≡ line_of text.now last hash }
{
    let start = scan::line_start(text, hash);
    if start < last {
        return Stop::At(super::refusals::NO_INCLUDE, hash);
    }
    if whole_to(&text[..start], last) {
        let end = find_byte(text, hash, b'\n');
        match named(&text[start..end], hash - start) {
            Some((from, to)) => {
                let after = after_line(text, end);
                Stop::Line(Line {
                    hash,
                    start,
                    from: start + from,
                    to: start + to,
                    after,
                })
            }
            None => Stop::At(super::refusals::NO_INCLUDE, hash),
        }
    } else {
        Stop::At(super::refusals::NO_INCLUDE, hash)
    }
}

// What stops at a place where no token is, with only blanks and comments between the place last and it.
fn hash_at(text: &[u8], last: usize, at: usize) -> Stop
    requires { at < length text.now }
    ensures { result ≡ hash_at text.now last at }
{
    if text[at] == b'#' {
        return line_of(text, last, at);
    }
    Stop::At(super::refusals::NO_TOKEN, at)
}

// What stops the tokens from a place on.
pub fn stop_at(text: &[u8], from: usize) -> Stop
    ensures { result ≡ stop_at text.now from }
{
    let mut cursor = Cursor { at: from };
    loop {
        match cursor.step(text) {
            Step::Found(_, next) => cursor = next,
            Step::Refused(at) => return hash_at(text, cursor.at, at),
            Step::End(_) => return Stop::At(0, text.len()),
        }
    }
}
