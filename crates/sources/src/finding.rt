// Texts by name, and what comes next in a text.
ghost use Rattle.std.specs.Prelude.{◌≡◌, true, ◌≤◌, length, get_or};
ghost use Rattle.sources.specs.Texts.{fitting, told_well, find_name, include_of, event_at};
ghost use Rattle.sources.specs.Promises.{AsksName};

use super::{Event, Include, Line, Stop, lines};

// The first text of a name: its number, and its bytes from a place of the buffer to another.
fn find_name(buffer: &[u8], lengths: &[usize], name: &[u8]) -> Option<(usize, usize, usize)>
    requires { fitting buffer.now 0 lengths.now ≡ true }
    ensures { result ≡ find_name buffer.now lengths.now name.now }
{
    let mut at = 0;
    for number in 0..lengths.len() / 2 {
        let from = at + lengths[number * 2];
        let to = from + lengths[number * 2 + 1];
        if &buffer[at..from] == name {
            return Some((number, from, to));
        }
        at = to;
    }
    None
}

// The mark of a text.
pub fn cell(marks: [usize; super::TEXTS], i: usize) -> usize
    ensures { result ≡ get_or marks i 0 }
{
    if super::TEXTS <= i {
        return 0;
    }
    marks[i]
}

// The text that a line includes, or the fault.
fn include_of(
    buffer: &[u8],
    lengths: &[usize],
    text: &[u8],
    marks: [usize; super::TEXTS],
    line: Line,
) -> Event
    requires { AsksName buffer.now lengths.now text.now line }
    ensures { result ≡ include_of buffer.now lengths.now text.now marks line }
{
    let first = line.from;
    let last = line.to;
    match find_name(buffer, lengths, &text[first..last]) {
        Some((number, from, to)) => {
            if cell(marks, number) == 1 {
                return Event::Stop(super::refusals::OPEN_TEXT, line.hash);
            }
            Event::Include(Include {
                number,
                from,
                to,
                hash: line.hash,
                start: line.start,
                after: line.after,
            })
        }
        None => Event::Stop(super::refusals::NO_TEXT, line.hash),
    }
}

// What comes next in a text from a place on.
pub fn event_at(
    buffer: &[u8],
    lengths: &[usize],
    text: &[u8],
    marks: [usize; super::TEXTS],
    at: usize,
) -> Event
    requires { (told_well buffer.now lengths.now ≡ true) × (at ≤ length text.now) }
    ensures { result ≡ event_at buffer.now lengths.now text.now marks at }
{
    match lines::stop_at(text, at) {
        Stop::At(number, place) => Event::Stop(number, place),
        Stop::Line(line) => include_of(buffer, lengths, text, marks, line),
    }
}
