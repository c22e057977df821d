// Writing the two lines that show a place. Bytes past the end of out are not stored.
ghost use Rattle.std.specs.Prelude.{◌+◌, ◌≤◌, ◌≡◌, map, [], ◌∷◌, length};
ghost use Rattle.std.proofs.lemmas.List.Edits.{sets};
ghost use Rattle.explaining.specs.Windows.{Fits};
ghost use Rattle.explaining.specs.Pictures.{shown_byte, under_byte, drawn, dots, shown_line, mark_line};

use crate::{Ink, View};

// Three dots.
const DOTS: [u8; 3] = *b"...";

// A byte as it is shown.
fn shown(b: u8) -> u8
    ensures { result ≡ shown_byte b }
{
    if b == b'\t' {
        return b'\t';
    }
    if b < b' ' {
        return b'?';
    }
    if b'~' < b {
        return b'?';
    }
    b
}

// What stands under a byte: a tab under a tab, else the sign.
fn under(sign: u8, b: u8) -> u8
    ensures { result ≡ under_byte sign b }
{
    if b == b'\t' {
        return b;
    }
    sign
}

// A byte in the line shown, or in the mark's.
fn draw(ink: Ink, b: u8) -> u8
    ensures { result ≡ drawn ink b }
{
    match ink {
        Ink::Shown => shown(b),
        Ink::Before => under(b' ', b),
        Ink::Marked => under(b'~', b),
    }
}

// The bytes, as they are drawn, at a place.
fn put(out: &mut [u8], at: usize, ink: Ink, bytes: &[u8])
    ensures { out.new ≡ sets out.old at (map (drawn ink) bytes.now) }
{
    let mut j = at;
    for b in bytes {
        if out.len() <= j {
            return;
        }
        out[j] = draw(ink, *b);
        j += 1;
    }
}

// Some of three dots, as they are drawn, at a place.
fn put_dots(out: &mut [u8], at: usize, ink: Ink, n: usize)
    requires { n ≤ 3 }
    ensures { out.new ≡ sets out.old at (map (drawn ink) (dots n)) }
{
    let three = DOTS;
    put(out, at, ink, &three[..n]);
}

// One byte at a place.
fn put_byte(out: &mut [u8], at: usize, b: u8)
    ensures { out.new ≡ sets out.old at (b ∷ []) }
{
    if at < out.len() {
        out[at] = b;
    }
}

// Writes the line shown to the start of out; returns the place after it.
pub fn draw_line(text: &[u8], view: View, out: &mut [u8]) -> usize
    requires { Fits text.now view }
    ensures out_after { out.new ≡ sets out.old 0 (shown_line text.now view) }
    ensures value { result ≡ length (shown_line text.now view) }
{
    let from = view.from;
    let to = view.to;
    let front = view.front;
    let behind = view.behind;
    let middle = front + (to - from);
    let end = middle + behind;
    put_dots(out, 0, Ink::Shown, front);
    put(out, front, Ink::Shown, &text[from..to]);
    put_dots(out, middle, Ink::Shown, behind);
    put_byte(out, end, b'\n');
    end + 1
}

// Writes the mark's line to a place of out, for a token that ends at `end`; returns the place after it.
pub fn draw_mark(text: &[u8], view: View, end: usize, out: &mut [u8], start: usize) -> usize
    requires fits { Fits text.now view }
    requires start_bound { start ≤ 79 }
    ensures out_after { out.new ≡ sets out.old start (mark_line text.now view end) }
    ensures value { result ≡ start + length (mark_line text.now view end) }
{
    let from = view.from;
    let at = view.at;
    let front = view.front;
    let middle = start + front;
    let mark = middle + (at - from);
    let last = end.min(view.to);
    let more = last.saturating_sub(at + 1);
    let behind = mark + 1 + more;
    let stop = behind + 1;
    put_dots(out, start, Ink::Before, front);
    put(out, middle, Ink::Before, &text[from..at]);
    put_byte(out, mark, b'^');
    put(out, mark + 1, Ink::Marked, token::part(text, at + 1, more));
    put_byte(out, behind, b'\n');
    stop
}
