// The lines that tell what was dropped. Each function stores what fits and returns the place after, so that with an output of length 0 it only measures.
ghost use Rattle.writing.specs.Wrote.{Wrote};
ghost use Rattle.mending.specs.Pieces.{field, line};
ghost use Rattle.mending.specs.Promises.{line_at, lines_by};
ghost use Rattle.std.specs.Prelude.{◌<◌, length};

use super::{statements, walking};
use rows::cells;
use writing::bytes;

// A number and what stands after it.
fn put_field(number: usize, after: &[u8], out: &mut [u8], at: usize) -> usize
    ensures { Wrote out.old at (field number after.now) out.new result }
{
    let a = bytes::put_decimal(out, at, false, number);
    bytes::put_bytes(out, a, after)
}

// The line for a statement by the origin of its name, its length and the number of its fault.
fn put_line(origin: usize, length: usize, number: usize, out: &mut [u8], at: usize) -> usize
    ensures { Wrote out.old at (line origin length number) out.new result }
{
    let a = put_field(origin / token::PLACES, b"\t", out, at);
    let b = put_field(origin % token::PLACES, b"\t", out, a);
    let c = put_field(length, b"\t", out, b);
    put_field(number, b"\n", out, c)
}

// The line for the piece at p, if it is dropped.
fn put_line_at(
    text: &[u8],
    origins: &[usize],
    marks: &[u8],
    p: usize,
    out: &mut [u8],
    at: usize,
) -> usize
    requires { p < length text.now }
    ensures { Wrote out.old at (line_at text.now origins.now marks.now p) out.new result }
{
    let number = walking::mark_at(marks, p);
    if number == 0 {
        return bytes::put_bytes(out, at, b"");
    }
    let end = statements::statement_end(text, p);
    let origin = cells::get(origins, p);
    put_line(origin, end - p, number as usize, out, at)
}

// The lines for all that is dropped; returns their length.
pub fn put_lines(text: &[u8], origins: &[usize], marks: &[u8], out: &mut [u8]) -> usize
    ensures { Wrote out.old 0 (lines_by text.now origins.now marks.now 0) out.new result }
{
    let mut p = 0;
    let mut at = bytes::put_bytes(out, 0, b"");
    // A `while`: a piece is a byte or a statement, and `next` says where the one after it begins.
    while p < text.len() {
        at = put_line_at(text, origins, marks, p, out, at);
        p = walking::next(text, marks, p);
    }
    at
}
