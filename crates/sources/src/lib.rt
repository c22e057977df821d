// Includes: the lent texts, expanded into one text with the origin of each of its bytes. The reading of the texts is the reading of that text.
#![tactic(auto)]

ghost use Rattle.std.specs.Prelude.{◌≡◌, ◌+◌, ◌≤◌, true};
ghost use Rattle.token.specs.Tokens.{part_of, part_place};
ghost use Rattle.sources.specs.Lines.{name_at};
ghost use Rattle.sources.specs.Numbering.{text_bytes, text_start};
ghost use Rattle.sources.specs.Plain.{is_plain};
ghost use Rattle.sources.specs.Promises.{Expands, ExpandsToRead};

use rows::cells;

mod filling;
mod finding;
mod lines;
mod noting;
mod parts;
pub mod refusals;
mod scan;
mod told;

// The most texts; of each two lengths are told, of its name and its bytes.
pub const TEXTS: usize = 8;

pub const LENGTHS: usize = TEXTS * 2;

// The most bytes of an expansion while texts are gathered: those of an expanded text, and as many more for each open text.
pub const GATHERING: usize = token::LONGEST + TEXTS * token::PLACES;

// What stops the reading of a text from a place on.
#[derive(Clone, Copy)]
pub enum Stop {
    // The end, or a fault: its number, 0 for the end, and its place.
    At(usize, usize),
    // An include line of the text.
    Line(Line),
}

// An include line: the place of its `#`, its first byte, the file's name from a place to another, the place after the line and its LF.
#[derive(Clone, Copy)]
pub struct Line {
    pub hash: usize,
    pub start: usize,
    pub from: usize,
    pub to: usize,
    pub after: usize,
}

// What comes next in a text that is being expanded.
#[derive(Clone, Copy)]
pub enum Event {
    // The end, or a fault: its number, 0 for the end, and its place.
    Stop(usize, usize),
    Include(Include),
}

// A text to include: its number, its bytes in the buffer from a place to another; and of the line: the place of its `#`, its first byte and the
// place after the line and its LF.
#[derive(Clone, Copy)]
pub struct Include {
    pub number: usize,
    pub from: usize,
    pub to: usize,
    pub hash: usize,
    pub start: usize,
    pub after: usize,
}

// How far the expanded text is filled: the number of the fault, 0 for none, its place, the place after what is filled, and that with what
// stays unexpanded.
#[derive(Clone, Copy)]
pub struct Fill {
    pub number: usize,
    pub place: usize,
    pub end: usize,
    pub total: usize,
}

// A text that is being expanded: its number, how many texts may be opened one inside the other from here on, and how many bytes may be filled.
#[derive(Clone, Copy)]
pub struct Frame {
    pub number: usize,
    pub depth: usize,
    pub limit: usize,
}

// A place of a text, and the place of the expanded text that it comes to.
#[derive(Clone, Copy)]
pub struct Spot {
    pub from: usize,
    pub at: usize,
}

// The expanded text: the number of the first of 3 and 27 to 29, 0 for none, or 30, or 1; its place in the expanded text; and how long that is,
// through the end of the text that has the fault.
#[derive(Clone, Copy)]
pub struct Expansion {
    pub number: usize,
    pub place: usize,
    pub length: usize,
}

// The lent texts, expanded to at most so many bytes.
fn expand_within(
    buffer: &[u8],
    lengths: &[usize],
    limit: usize,
    out: &mut [u8],
    origins: &mut [usize],
) -> Expansion
    requires { limit ≤ 1000000 }
    ensures { Expands limit buffer.now lengths.now out.old origins.old
        out.new origins.new result }
{
    if told::told_well(buffer, lengths) {
        let from = lengths[0];
        let to = from + lengths[1];
        let room = cells::least_of(limit, out.len());
        let marks = cells::least_of(limit, origins.len());
        let mut notes = [0; noting::NOTES];
        noting::note_all(buffer, lengths, &mut notes);
        let main = Frame {
            number: 0,
            depth: TEXTS,
            limit,
        };
        let f = filling::expand_text(
            buffer,
            lengths,
            &notes,
            &buffer[from..to],
            main,
            [1, 0, 0, 0, 0, 0, 0, 0],
            &mut out[..room],
            &mut origins[..marks],
            0,
        );
        return Expansion {
            number: f.number,
            place: f.place,
            length: f.end,
        };
    }
    Expansion {
        number: refusals::LONG_TEXTS,
        place: 0,
        length: 0,
    }
}

// The lent texts, expanded into the output, with the origin of each byte: its text's number times 65,536, and its place there. In the buffer
// stand a name, its text, the next name and so on, the main text first; lengths has their lengths in that order. The first 65,535 bytes of the
// output and cells of origins have room; where it is shorter, what fits is stored.
pub fn expand(buffer: &[u8], lengths: &[usize], out: &mut [u8], origins: &mut [usize]) -> Expansion
    ensures { Expands 65535 buffer.now lengths.now out.old origins.old
        out.new origins.new result }
{
    expand_within(buffer, lengths, token::LONGEST, out, origins)
}

// The same while texts are gathered: as long as one is missing, the lines after its include line stay unexpanded in each of the at most eight
// texts that are open, and may be shorter once it is there. So many bytes more are no refusal yet.
pub fn expand_gathering(
    buffer: &[u8],
    lengths: &[usize],
    out: &mut [u8],
    origins: &mut [usize],
) -> Expansion
    ensures { Expands 589823 buffer.now lengths.now out.old origins.old
        out.new origins.new result }
{
    expand_within(buffer, lengths, GATHERING, out, origins)
}

// Whether texts are lent as they have to be, and the main text has no `#`: it includes nothing then.
pub fn is_plain(buffer: &[u8], lengths: &[usize]) -> bool
    ensures { result ≡ is_plain buffer.now lengths.now }
{
    if told::told_well(buffer, lengths) {
        let from = lengths[0];
        let to = from + lengths[1];
        return !scan::holds(&buffer[from..to], b'#');
    }
    false
}

// The main text, where it includes nothing.
fn copy_main(buffer: &[u8], lengths: &[usize], out: &mut [u8], origins: &mut [usize]) -> Expansion
    requires { is_plain buffer.now lengths.now ≡ true }
    ensures { ExpandsToRead buffer.now lengths.now out.old origins.old
        out.new origins.new result }
{
    let from = lengths[0];
    let size = lengths[1];
    let to = from + size;
    let room = cells::least_of(token::LONGEST, out.len());
    let marks = cells::least_of(token::LONGEST, origins.len());
    let end = filling::put(
        &buffer[from..to],
        0,
        size,
        0,
        &mut out[..room],
        &mut origins[..marks],
        0,
    );
    Expansion {
        number: refusals::NO_TOKEN,
        place: 0,
        length: end,
    }
}

// As `expand`, for a reader, who meets a refusal 3 by itself: where the main text has no `#`, no token is looked at, and the number is 3, the only
// one that there can be.
pub fn expand_to_read(
    buffer: &[u8],
    lengths: &[usize],
    out: &mut [u8],
    origins: &mut [usize],
) -> Expansion
    ensures { ExpandsToRead buffer.now lengths.now out.old origins.old
        out.new origins.new result }
{
    if is_plain(buffer, lengths) {
        return copy_main(buffer, lengths, out, origins);
    }
    expand(buffer, lengths, out, origins)
}

// The file's name on the include line of the `#` at a place of a text, from a place to another, if it is such a line.
pub fn name_at(text: &[u8], hash: usize) -> Option<(usize, usize)>
    ensures { result ≡ name_at text.now hash }
{
    if text.len() <= hash {
        return None;
    }
    let start = scan::line_start(text, hash);
    let end = token::find_byte(text, hash, b'\n');
    match lines::named(&text[start..end], hash - start) {
        Some((from, to)) => Some((start + from, start + to)),
        None => None,
    }
}

// A lent text by its number; where there is none, the empty part at the buffer's start.
pub fn text_of<'a>(buffer: &'a [u8], lengths: &[usize], number: usize) -> &'a [u8]
    ensures bytes { result.now ≡ text_bytes buffer.now lengths.now number }
    ensures block { result.ref_ptr.0 ≡ buffer.entry.ref_ptr.0 }
    ensures place { result.ref_ptr.1 ≡ buffer.entry.ref_ptr.1 + text_start buffer.now lengths.now number }
{
    if told::told_well(buffer, lengths) {
        match parts::span_of(buffer, lengths, number) {
            Some((_, from, to)) => &buffer[from..to],
            None => &buffer[..0],
        }
    } else {
        &buffer[..0]
    }
}

// A part of a lent text, by its number; where it does not lie inside, the empty part at the text's start.
pub fn part<'a>(
    buffer: &'a [u8],
    lengths: &[usize],
    number: usize,
    at: usize,
    len: usize,
) -> &'a [u8]
    ensures bytes { result.now ≡ part_of (text_bytes buffer.now lengths.now number) at len }
    ensures block { result.ref_ptr.0 ≡ buffer.entry.ref_ptr.0 }
    ensures place { result.ref_ptr.1 ≡ buffer.entry.ref_ptr.1 + text_start buffer.now lengths.now number
        + part_place (text_bytes buffer.now lengths.now number) at len }
{
    let text = text_of(buffer, lengths, number);
    token::part(text, at, len)
}
