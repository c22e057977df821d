// What the calls for programs in C give (document 02, Q-13), as include/kaukslini.h declares them; the crate exporting_c exports them. A text is read alone, with an empty name.
#![tactic(auto)]

ghost use Rattle.std.specs.Prelude.{◌≡◌};
ghost use Rattle.sources.specs.Expanding.{expansion_of};
ghost use Rattle.sources_reading.specs.Answering.{alone};
ghost use Rattle.exporting.specs.Telling.{refusal_told, value_told, NormalWith, HeadingWith};
ghost use Rattle.exporting.specs.Rules.{NormalByRules, ValueByRules, HeadingByRules, ExplainsByRules};

use layout::{definition, enumerator, object, value};
use reading::Answer;
use rows::{Fault, cells, refusals};

// The number of a refusal, 0 for none, or 255 where nothing is found; the byte of the text at which it is refused; how many bytes of the output
// were written.
#[repr(C)]
#[derive(Clone, Copy)]
pub struct Told {
    pub number: usize,
    pub place: usize,
    pub length: usize,
}

// The number and place of a refusal, 0 for none; place and length of the version string, without its quotes, and of the implementation's name.
#[repr(C)]
#[derive(Clone, Copy)]
pub struct Heading {
    pub number: usize,
    pub place: usize,
    pub version: usize,
    pub version_length: usize,
    pub name: usize,
    pub name_length: usize,
}

// Line and column of a place, counted from 1, the column in characters where what stands before it is UTF-8, else in bytes; and the length of the two
// lines that show it.
#[repr(C)]
#[derive(Clone, Copy)]
pub struct Position {
    pub line: usize,
    pub column: usize,
    pub length: usize,
}

// The number of the first of 3 and 27 to 29 in a text that is lent alone, 0 for none, or 30. Nothing is included, so that no room is needed.
fn fault_of(text: &[u8]) -> u8
    ensures { result ≡ (expansion_of text.now (alone text.now)).number }
{
    let lengths = [0, text.len()];
    let mut bytes = [0u8; 1];
    let mut origins = [0usize; 1];
    let e = sources::expand(text, &lengths, &mut bytes, &mut origins);
    e.number as u8
}

// A refusal of the text, which has so many bytes, as it is told: its places are its own.
fn refusal(number: u8, place: usize, fault: u8, length: usize) -> Told
    ensures { result ≡ refusal_told length fault number place }
{
    let n = lent_texts::renumbered(number, fault);
    let own = cells::least_of(place, length);
    let origins = [0usize; 1];
    let p = placing::place_refused(&origins, 0, own, n, place);
    Told {
        number: n as usize,
        place: p,
        length: 0,
    }
}

// The number where there is no such value.
pub const NOT_FOUND: usize = 255;

// The answer for a value, as it is told.
fn value_told(answer: Result<Option<usize>, Fault>, fault: u8, length: usize) -> Told
    ensures { result ≡ value_told length fault answer }
{
    match answer {
        Err(f) => refusal(f.number, f.place, fault, length),
        Ok(told) => {
            match told {
                None => Told {
                    number: NOT_FOUND,
                    place: 0,
                    length: 0,
                },
                Some(bytes) => Told {
                    number: 0,
                    place: 0,
                    length: bytes,
                },
            }
        }
    }
}

// The normal text of a text with this fault, over tables of its own.
fn write_alone(text: &[u8], fault: u8, output: &mut [u8]) -> Told
    ensures { NormalWith fault text.now output.old output.new result }
{
    let mut d = [0usize; definition::LENT];
    let mut e = [0usize; enumerator::LENT];
    let mut o = [0usize; object::LENT];
    let mut v = [0usize; value::LENT];
    let r = writing::write(text, &mut d, &mut e, &mut o, &mut v, output);
    let answer = r.answer;
    match answer {
        Answer::Refused(number, place) => refusal(number, place, fault, text.len()),
        Answer::Accepted => Told {
            number: 0,
            place: 0,
            length: r.length,
        },
    }
}

// The normal text of a text, to the front of the output. The output stays where the number is not 0.
pub fn kaukslini_normal_text(text: &[u8], output: &mut [u8]) -> Told
    ensures { NormalByRules text.now output.old output.new result }
{
    let fault = fault_of(text);
    if fault == refusals::LONG_TEXTS {
        return Told {
            number: sources::refusals::LONG_TEXTS,
            place: 0,
            length: 0,
        };
    }
    write_alone(text, fault, output)
}

// The value of one attribute, to the front of the output. The output stays where the number is not 0.
pub fn kaukslini_value(
    text: &[u8],
    kind: &[u8],
    name: &[u8],
    path: &[u8],
    output: &mut [u8],
) -> Told
    ensures { ValueByRules text.now kind.now name.now path.now output.old output.new result }
{
    let fault = fault_of(text);
    if fault == refusals::LONG_TEXTS {
        return Told {
            number: sources::refusals::LONG_TEXTS,
            place: 0,
            length: 0,
        };
    }
    let v = attribute_values::value(text, kind, name, path, output);
    value_told(v, fault, text.len())
}

// The heading of a text with this fault.
fn heading_alone(text: &[u8], fault: u8) -> Heading
    ensures { HeadingWith fault text.now result }
{
    match heading::heading(text) {
        Ok(h) => Heading {
            number: 0,
            place: 0,
            version: cells::least_of(h.version_at, text.len()),
            version_length: h.version_len,
            name: cells::least_of(h.name_at, text.len()),
            name_length: h.name_len,
        },
        Err(f) => {
            let r = refusal(f.number, f.place, fault, text.len());
            Heading {
                number: r.number,
                place: r.place,
                version: 0,
                version_length: 0,
                name: 0,
                name_length: 0,
            }
        }
    }
}

// The version string and the implementation's name of a text, told from its front alone.
pub fn kaukslini_heading(text: &[u8]) -> Heading
    ensures { HeadingByRules text.now result }
{
    let fault = fault_of(text);
    if fault == refusals::LONG_TEXTS {
        return Heading {
            number: sources::refusals::LONG_TEXTS,
            place: 0,
            version: 0,
            version_length: 0,
            name: 0,
            name_length: 0,
        };
    }
    heading_alone(text, fault)
}

// Line and column of a place of a text, and the two lines that show it, to the front of the output as far as it reaches. A place past the text is its end.
pub fn kaukslini_explain(text: &[u8], place: usize, output: &mut [u8]) -> Position
    ensures { ExplainsByRules text.now place output.old output.new result }
{
    let e = explaining::explain(text, place, output);
    Position {
        line: e.line,
        column: e.column,
        length: e.len,
    }
}
