// The pieces of a text: bytes that are kept, and statements that are dropped, whose marks stand at the places of their names.
ghost use Rattle.std.specs.Prelude.{◌≡◌, ◌+◌, ◌<◌, ◌≤◌, length, get_or, set};
ghost use Rattle.mending.specs.Promises.{next_by, kept_by, is_here, left_after, PutsKept, PutsMended};

use super::statements;

// The mark at a place, 0 where there is none.
pub fn mark_at(marks: &[u8], p: usize) -> u8
    ensures { result ≡ get_or marks.now p 0 }
{
    marks.get(p).copied().unwrap_or(0)
}

// The place after the piece at p.
pub fn next(text: &[u8], marks: &[u8], p: usize) -> usize
    requires { p < length text.now }
    ensures { result ≡ next_by text.now marks.now p }
{
    if mark_at(marks, p) == 0 {
        return p + 1;
    }
    statements::statement_end(text, p)
}

// Stores a byte at a place, if the output has it.
fn put_byte(out: &mut [u8], at: usize, b: u8)
    ensures { out.new ≡ set out.old at b }
{
    if out.len() <= at {
        return;
    }
    out[at] = b;
}

// Stores the byte at p, if it is kept; returns the place after.
fn put_kept(text: &[u8], marks: &[u8], p: usize, out: &mut [u8], at: usize) -> usize
    requires { (p < length text.now) × (at ≤ p) }
    ensures { PutsKept text.now marks.now p out.old at out.new result }
{
    if mark_at(marks, p) != 0 {
        return at;
    }
    put_byte(out, at, text[p]);
    at + 1
}

// The text without what is dropped, to the front of the output, as far as it reaches; returns its length.
pub fn put_mended(text: &[u8], marks: &[u8], out: &mut [u8]) -> usize
    ensures { PutsMended text.now marks.now out.old out.new result }
{
    let mut p = 0;
    let mut at = 0;
    // A `while`: a piece is a byte or a statement, and `next` says where the one after it begins.
    while p < text.len() {
        at = put_kept(text, marks, p, out, at);
        p = next(text, marks, p);
    }
    at
}

// Whether the byte at p is the kept one that so many kept ones come before.
fn is_here(marks: &[u8], p: usize, left: usize) -> bool
    ensures { result ≡ is_here marks.now p left }
{
    if mark_at(marks, p) != 0 {
        return false;
    }
    left == 0
}

// How many kept ones come before it from the next piece on.
fn left_after(marks: &[u8], p: usize, left: usize) -> usize
    ensures { result ≡ left_after marks.now p left }
{
    if mark_at(marks, p) != 0 {
        return left;
    }
    left.saturating_sub(1)
}

// The place in the text of a place of the mended text; the text's end for the mended text's.
pub fn place_back(text: &[u8], marks: &[u8], place: usize) -> usize
    ensures { result ≡ get_or (kept_by text.now marks.now 0) place (length text.now) }
{
    let mut p = 0;
    let mut left = place;
    // A `while`, as in `put_mended`.
    while p < text.len() {
        if is_here(marks, p, left) {
            return p;
        }
        left = left_after(marks, p, left);
        p = next(text, marks, p);
    }
    text.len()
}
