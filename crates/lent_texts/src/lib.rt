// Lent texts in one expanded text, in lent memory: what the calls that take lent texts share (document 02, Q-10).
#![tactic(auto)]

ghost use Rattle.std.specs.Prelude.{◌≡◌, eqb};
ghost use Rattle.token.specs.Find.{pick};
ghost use Rattle.lent_texts.specs.Expanded.{refusal_in, ExpandsTexts};

use rows::{Fault, refusals};

// The expanded text: the number of its first fault of 3 and 27 to 29, 0 for none; how long it is; and how long the main text is.
#[derive(Clone, Copy, Debug, PartialEq, Eq)]
pub struct Expanded {
    pub fault: u8,
    pub length: usize,
    pub main: usize,
}

// Refusal 3 takes the number of the fault that stands there.
pub fn renumbered(number: u8, fault: u8) -> u8
    ensures { result ≡ pick (eqb number 3) fault number }
{
    if number == refusals::NO_TOKEN {
        return fault;
    }
    number
}

// A refusal of the expanded text, as that of the lent texts.
pub fn refused(origins: &[usize], e: Expanded, f: Fault) -> Fault
    ensures { result ≡ refusal_in origins.now e f.number f.place }
{
    let number = renumbered(f.number, e.fault);
    let place = placing::place_refused(origins, e.length, e.main, number, f.place);
    Fault { number, place }
}

// Expands lent texts into lent memory, with the origins of its bytes, 65,535 of each; where one is shorter, nothing is touched. They are refused at
// once by 1 or 30, at 0. In the buffer stand
// a name, its text, the next name and so on, the main text first; lengths has their lengths in that order.
pub fn expand(
    buffer: &[u8],
    lengths: &[usize],
    expanded: &mut [u8],
    origins: &mut [usize],
) -> Result<Expanded, Fault>
    ensures { ExpandsTexts buffer.now lengths.now expanded.old origins.old
        expanded.new origins.new result }
{
    if expanded.len() < token::LONGEST {
        return Err(Fault {
            number: refusals::SHORT_TABLES,
            place: 0,
        });
    }
    if origins.len() < token::LONGEST {
        return Err(Fault {
            number: refusals::SHORT_TABLES,
            place: 0,
        });
    }
    let e = sources::expand(buffer, lengths, expanded, origins);
    if e.number == sources::refusals::LONG_TEXTS {
        return Err(Fault {
            number: refusals::LONG_TEXTS,
            place: 0,
        });
    }
    let text = Expanded {
        fault: e.number as u8,
        length: e.length,
        main: lengths[1],
    };
    Ok(text)
}
