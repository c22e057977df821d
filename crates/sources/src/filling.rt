// The expanded text and the origins of its bytes, written into lent memory. Each function stores what fits.
ghost use Rattle.std.specs.Prelude.{◌≡◌, true, [], ◌∷◌, ◌+◌, ◌-◌, ◌≤◌, ◌<◌, min, length, set};
ghost use Rattle.std.proofs.lemmas.List.Edits.{sets};
ghost use Rattle.sources.specs.Notes.{Noted};
ghost use Rattle.sources.specs.Expanding.{up_from, is_too_long, fill_by, inner, walk, expand_n};
ghost use Rattle.sources.specs.Promises.{Asks, AsksFrom, Puts, Fills, EndsLine, Steps};

use super::{Event, Fill, Frame, Spot, noting};
use rows::cells;
use std::ops::ControlFlow;

// Stores n numbers that count up, from a place on, as far as the cells reach.
fn count_up(cells: &mut [usize], at: usize, first: usize, n: usize)
    requires { first + n < 18446744073709551616 }
    ensures { cells.new ≡ sets cells.old at (up_from first n) }
{
    let m = n.min(cells.len().saturating_sub(at));
    for i in 0..m {
        cells[at + i] = first + i;
    }
}

// The bytes of a text from a place to another, with their origins; returns the place after.
pub fn put(
    text: &[u8],
    from: usize,
    to: usize,
    number: usize,
    out: &mut [u8],
    origins: &mut [usize],
    at: usize,
) -> usize
    requires { (from ≤ to) × ((to ≤ length text.now) × ((number < 8) × (at ≤ 1000000))) }
    ensures { Puts text.now from to number out.old origins.old at out.new
        origins.new result }
{
    cells::put_cells(out, at, &text[from..to]);
    count_up(origins, at, number * token::PLACES + from, to - from);
    at + (to - from)
}

// The expanded text has more than so many bytes.
fn too_long(limit: usize) -> Fill
    requires { limit ≤ 1000000 }
    ensures { result ≡ is_too_long limit }
{
    Fill {
        number: super::refusals::LONG_TEXTS,
        place: 0,
        end: 0,
        total: limit + 1,
    }
}

// How far it is filled, unless it is too long.
fn fill(limit: usize, number: usize, place: usize, end: usize, total: usize) -> Fill
    requires { limit ≤ 1000000 }
    ensures { result ≡ fill_by limit number place end total }
{
    if limit < total {
        return too_long(limit);
    }
    Fill {
        number,
        place,
        end,
        total,
    }
}

// The marks of the open texts, with one more.
fn opened(marks: [usize; super::TEXTS], number: usize) -> [usize; super::TEXTS]
    ensures { result ≡ set marks number 1 }
{
    if super::TEXTS <= number {
        return marks;
    }
    let mut next = marks;
    next[number] = 1;
    next
}

// The LF in place of an include line, with its origin; on after the line, at a place of the text and of the expanded text.
fn line_end(
    limit: usize,
    at: usize,
    after: usize,
    origin: usize,
    out: &mut [u8],
    origins: &mut [usize],
) -> ControlFlow<Fill, (usize, usize)>
    requires { (limit ≤ 1000000) × ((at ≤ limit) × (origin + 1 < 18446744073709551616)) }
    ensures { EndsLine limit at after origin out.old origins.old out.new
        origins.new result }
{
    cells::put_cells(out, at, b"\n");
    count_up(origins, at, origin, 1);
    if at == limit {
        return ControlFlow::Break(too_long(limit));
    }
    ControlFlow::Continue((after, at + 1))
}

// One step of a text from a place on: its rest, or what stands before an include line and the included text; on at a place of the text and of the
// expanded text, or how far it is filled.
#[cycle(expand_text_one)]
fn one(
    buffer: &[u8],
    lengths: &[usize],
    notes: &[usize],
    text: &[u8],
    frame: Frame,
    marks: [usize; super::TEXTS],
    spot: Spot,
    out: &mut [u8],
    origins: &mut [usize],
) -> ControlFlow<Fill, (usize, usize)>
    requires { Asks buffer.now lengths.now notes.now frame out.old origins.old spot.at
        × AsksFrom buffer.now lengths.now notes.now text.now frame.number spot.from }
    ensures { Steps frame.limit (walk buffer.now lengths.now frame.number
        text.now marks (inner frame.depth buffer.now lengths.now marks))
        (Noted buffer.now lengths.now notes.now frame.number text.now)
        (length text.now) spot.from out.old origins.old spot.at out.new
        origins.new result }
{
    let from = spot.from;
    let at = spot.at;
    let limit = frame.limit;
    match noting::event_noted(buffer, lengths, notes, marks, frame.number, from) {
        Event::Stop(fault, place) => {
            let end = put(text, from, text.len(), frame.number, out, origins, at);
            ControlFlow::Break(fill(limit, fault, at + (place - from), end, end))
        }
        Event::Include(i) => {
            let first = i.from;
            let last = i.to;
            let inside = opened(marks, i.number);
            let start = put(text, from, i.start, frame.number, out, origins, at);
            if limit < start {
                return ControlFlow::Break(too_long(limit));
            }
            let inner = Frame {
                number: i.number,
                depth: frame.depth,
                limit,
            };
            let f = expand_text(
                buffer,
                lengths,
                notes,
                &buffer[first..last],
                inner,
                inside,
                out,
                origins,
                start,
            );
            if f.number == 0 {
                return line_end(
                    limit,
                    f.end,
                    i.after,
                    frame.number * token::PLACES + i.hash,
                    out,
                    origins,
                );
            }
            ControlFlow::Break(fill(
                limit,
                f.number,
                f.place,
                f.end,
                f.total + 1 + (text.len() - i.after),
            ))
        }
    }
}

// A text, expanded.
#[cycle(expand_text_one)]
pub fn expand_text(
    buffer: &[u8],
    lengths: &[usize],
    notes: &[usize],
    text: &[u8],
    frame: Frame,
    marks: [usize; super::TEXTS],
    out: &mut [u8],
    origins: &mut [usize],
    at: usize,
) -> Fill
    requires { Asks buffer.now lengths.now notes.now frame out.old origins.old at
        × AsksFrom buffer.now lengths.now notes.now text.now frame.number 0 }
    ensures { Fills frame.limit (expand_n frame.depth buffer.now lengths.now frame.number
        text.now marks) out.old origins.old at out.new origins.new result }
{
    if frame.depth == 0 {
        return fill(frame.limit, 0, at, at, at);
    }
    let inside = Frame {
        number: frame.number,
        depth: frame.depth - 1,
        limit: frame.limit,
    };
    let mut from = 0;
    let mut place = at;
    loop {
        let spot = Spot { from, at: place };
        match one(
            buffer, lengths, notes, text, inside, marks, spot, out, origins,
        ) {
            ControlFlow::Continue((after, next)) => {
                from = after;
                place = next;
            }
            ControlFlow::Break(f) => return f,
        }
    }
}
