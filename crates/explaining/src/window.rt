// The part of a line that is shown: at most 72 bytes around a place.
ghost use Rattle.std.specs.Prelude.{◌≤◌, ◌+◌, min, ◌≡◌, length};
ghost use Rattle.explaining.specs.Windows.{window_from, dots_for, view_in, view_of};

use crate::{View, lines};

// The most bytes that are shown, and the most of them before the place.
const WIDTH: usize = 72;

const BEFORE: usize = WIDTH / 2;

// Where the window on the line from start to end begins.
fn window_from(start: usize, end: usize, at: usize) -> usize
    ensures { result ≡ window_from start end at }
{
    let near = at.saturating_sub(BEFORE);
    let last = end.saturating_sub(WIDTH);
    if near <= start {
        return start;
    }
    if last <= start {
        return start;
    }
    if near < last {
        return near;
    }
    last
}

// Where a window that begins at from ends.
fn window_to(from: usize, end: usize) -> usize
    ensures { result ≡ min end (from + 72) }
{
    if end <= from {
        return end;
    }
    if end - from <= WIDTH {
        return end;
    }
    from + WIDTH
}

// How many dots stand where bytes from a to b are cut.
fn dots_for(a: usize, b: usize) -> usize
    ensures { result ≡ dots_for a b }
{
    if a < b {
        return 3;
    }
    0
}

// The view of a place in the line from start to end.
fn view_in(start: usize, end: usize, at: usize) -> View
    ensures { result ≡ view_in start end at }
{
    let from = window_from(start, end, at);
    let to = window_to(from, end);
    let front = dots_for(start, from);
    let behind = dots_for(to, end);
    View {
        at,
        from,
        to,
        front,
        behind,
    }
}

// The view of a place of a text.
pub fn view_of(text: &[u8], at: usize) -> View
    requires { at ≤ length text.now }
    ensures { result ≡ view_of text.now at }
{
    let start = lines::line_start(text, at);
    let stop = lines::line_end(text, at);
    let end = lines::shown_end(text, stop);
    view_in(start, end, at)
}
