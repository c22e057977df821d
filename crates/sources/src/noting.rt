// What comes next from each place at which the expansion of a text goes on, found once for each text: so no inclusion reads its text again.
ghost use Rattle.std.specs.Prelude.{◌≡◌, true, ◌+◌, ◌≤◌, ◌<◌, length, get_or};
ghost use Rattle.sources.specs.Texts.{fitting, told_well};
ghost use Rattle.sources.specs.Notes.{cell_for, packed, event_back, AllNoted};
ghost use Rattle.sources.specs.Promises.{AsksNotes, NotesText};

use super::{Event, Include, finding, parts};

// The cells for the notes of a text, one for each ten bytes, and of all texts.
const CELLS: usize = 6554;

pub const NOTES: usize = super::TEXTS * CELLS;

// Of four numbers in one: the first counts by this, the second by that.
const NUMBERS: usize = STARTS * token::PLACES;

const STARTS: usize = token::PLACES * token::PLACES;

// Four numbers in one, each of the last three below 65,536.
fn packed(number: usize, start: usize, hash: usize, after: usize) -> usize
    requires { (number ≤ 8) × ((start ≤ 65535) × ((hash ≤ 65535) × (after ≤ 65535))) }
    ensures { result ≡ packed number start hash after }
{
    ((number * token::PLACES + start) * token::PLACES + hash) * token::PLACES + after
}

// The cell for a place of a text.
fn cell_for(number: usize, at: usize) -> usize
    requires { (number < 8) × (at ≤ 65535) }
    ensures { result ≡ cell_for number at }
{
    number * CELLS + at / 10
}

// Notes a text, through its end or its first fault.
fn note_text(buffer: &[u8], lengths: &[usize], text: &[u8], number: usize, notes: &mut [usize])
    requires { AsksNotes buffer.now lengths.now text.now number notes.old }
    ensures { NotesText buffer.now lengths.now text.now number notes.old
        notes.new }
{
    let mut from = 0;
    loop {
        let cell = cell_for(number, from);
        match finding::event_at(buffer, lengths, text, [0, 0, 0, 0, 0, 0, 0, 0], from) {
            Event::Stop(fault, place) => {
                notes[cell] = packed(super::TEXTS, 0, fault, place);
                return;
            }
            Event::Include(i) => {
                notes[cell] = packed(i.number, i.start, i.hash, i.after);
                from = i.after;
            }
        }
    }
}

// Notes the text of a number, if there is one.
fn note_number(buffer: &[u8], lengths: &[usize], number: usize, notes: &mut [usize])
    requires { (told_well buffer.now lengths.now ≡ true) × ((number < 8) × (length notes.old ≡ 52432)) }
    ensures { AllNoted buffer.now lengths.now notes.old number
        → AllNoted buffer.now lengths.now notes.new (number + 1) }
{
    match parts::span_of(buffer, lengths, number) {
        Some((_, from, to)) => note_text(buffer, lengths, &buffer[from..to], number, notes),
        None => {}
    }
}

// Notes all texts.
pub fn note_all(buffer: &[u8], lengths: &[usize], notes: &mut [usize])
    requires { (told_well buffer.now lengths.now ≡ true) × (length notes.old ≡ 52432) }
    ensures { AllNoted buffer.now lengths.now notes.new 8 }
{
    for number in 0..super::TEXTS {
        note_number(buffer, lengths, number, notes);
    }
}

// What comes next by a note.
fn event_back(buffer: &[u8], lengths: &[usize], marks: [usize; super::TEXTS], note: usize) -> Event
    requires { fitting buffer.now 0 lengths.now ≡ true }
    ensures { result ≡ event_back lengths.now marks note }
{
    let hash = note / token::PLACES % token::PLACES;
    if super::TEXTS <= note / NUMBERS {
        return Event::Stop(hash, note % token::PLACES);
    }
    match parts::span_of(buffer, lengths, note / NUMBERS) {
        Some((number, from, to)) => {
            if finding::cell(marks, number) == 1 {
                return Event::Stop(super::refusals::OPEN_TEXT, hash);
            }
            Event::Include(Include {
                number,
                from,
                to,
                hash,
                start: note / STARTS % token::PLACES,
                after: note % token::PLACES,
            })
        }
        None => Event::Stop(super::refusals::NO_TEXT, hash),
    }
}

// What comes next in a text from a noted place on.
pub fn event_noted(
    buffer: &[u8],
    lengths: &[usize],
    notes: &[usize],
    marks: [usize; super::TEXTS],
    number: usize,
    from: usize,
) -> Event
    requires { (fitting buffer.now 0 lengths.now ≡ true)
        × ((number < 8) × ((from ≤ 65535) × (length notes.now ≡ 52432))) }
    ensures { result ≡ event_back lengths.now marks (get_or notes.now (cell_for number from) 0) }
{
    let cell = cell_for(number, from);
    event_back(buffer, lengths, marks, notes[cell])
}
