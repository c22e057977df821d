// Lines of a text. A line ends at LF or at the text's end.
ghost use Rattle.std.specs.Prelude.{◌≤◌, ◌≡◌, length};
ghost use Rattle.explaining.specs.Places.{within, feed_of, line_feeds, line_of, line_start, column_of, token_end, line_end, cr_before, shown_end};

use crate::characters;
use token::{Cursor, Step};

// The place, or the text's length where it is past it.
pub fn inside(text: &[u8], place: usize) -> usize
    ensures { result ≡ within text.now place }
{
    text.len().min(place)
}

// 1 for an LF, 0 for any other byte.
fn feed(b: u8) -> usize
    ensures { result ≡ feed_of b }
{
    if b == b'\n' {
        return 1;
    }
    0
}

// How many of the bytes are LF.
fn line_feeds(bytes: &[u8]) -> usize
    ensures { result ≡ line_feeds bytes.now }
{
    let mut n = 0;
    for b in bytes {
        n += feed(*b);
    }
    n
}

// The line of a place, counted from 1.
pub fn line_of(text: &[u8], at: usize) -> usize
    requires { at ≤ length text.now }
    ensures { result ≡ line_of text.now at }
{
    let n = line_feeds(&text[..at]);
    n + 1
}

// Where the line of a place starts.
pub fn line_start(text: &[u8], at: usize) -> usize
    requires { at ≤ length text.now }
    ensures { result ≡ line_start text.now at }
{
    for i in (0..at).rev() {
        if text[i] == b'\n' {
            return i + 1;
        }
    }
    0
}

// The column of a place, counted from 1.
pub fn column_of(text: &[u8], at: usize) -> usize
    requires { at ≤ length text.now }
    ensures { result ≡ column_of text.now at }
{
    let start = line_start(text, at);
    let count = characters::characters(&text[start..at]);
    count + 1
}

// Where the token ends that begins at a place; one byte after it where none does.
pub fn token_end(text: &[u8], at: usize) -> usize
    requires { at ≤ length text.now }
    ensures { result ≡ token_end text.now at }
{
    let cursor = Cursor { at };
    match cursor.step(text) {
        Step::Found(t, c) => {
            if t.at == at {
                return c.at;
            }
            at + 1
        }
        Step::Refused(_) => at + 1,
        Step::End(_) => at + 1,
    }
}

// Where the line of a place ends.
pub fn line_end(text: &[u8], at: usize) -> usize
    ensures { result ≡ line_end text.now at }
{
    for i in at..text.len() {
        if text[i] == b'\n' {
            return i;
        }
    }
    text.len().max(at)
}

// Whether a CR stands before the LF at a place.
fn cr_before(text: &[u8], end: usize) -> bool
    ensures { result ≡ cr_before text.now end }
{
    if text.len() <= end {
        return false;
    }
    if end == 0 {
        return false;
    }
    text[end - 1] == b'\r'
}

// Where a line ends without a CR before its LF.
pub fn shown_end(text: &[u8], end: usize) -> usize
    ensures { result ≡ shown_end text.now end }
{
    if cr_before(text, end) {
        return end - 1;
    }
    end
}
