// Mends what can be mended and says so (document 02, Q-11): the statements at fault by 13 or 14 are dropped.
#![tactic(auto)]

ghost use Rattle.std.specs.Prelude.{◌≡◌};
ghost use Rattle.mending.specs.Results.{MendsText};
ghost use Rattle.mending.specs.Rules.{MendsByRules};
ghost use Rattle.mending.specs.Promises.{place_by, AnswersTo, PutsOut, DropsKept, MarksDrops};

use layout::{definition, enumerator, object, statement, value};
use lookups::names;
use reading::{Answer, Decision};
use rows::{Fault, refusals};
use scopes::Sizes;
use writing::bytes;

mod statements;
mod telling;
mod walking;

// How long the mended text and the lines are.
#[derive(Clone, Copy, Debug, PartialEq, Eq)]
pub struct Mended {
    pub text: usize,
    pub lines: usize,
}

// Why there is no mended text.
#[derive(Clone, Copy)]
pub enum Unmended {
    // The text's own refusal, from a stage before 13.
    Refused(Fault),
    // The refusal of the mended text, with its place in the original, or 20 where an output is too short.
    NotMended(Fault),
}

// Marks what is dropped of a text that passes the stages before 13, whose rows are in the tables.
fn drop_kept(
    text: &[u8],
    d: &[usize],
    e: &[usize],
    o: &[usize],
    s: &[usize],
    decision: Decision,
    marks: &mut [u8],
)
    ensures { DropsKept text.now (record { definitions = d.now; enumerators = e.now; objects = o.now; statements = s.now }) decision marks.old marks.new }
{
    let w = decision.walked;
    let places = w.places;
    let z = Sizes {
        definitions: w.definitions,
        enumerators: w.enumerators,
        objects: decision.objects,
    };
    let mut table = [0; names::CELLS];
    names::note(text, d, e, o, s, z, w.statements, &mut table);
    dropping::drop_all(text, d, e, o, s, &table, z, places, marks);
}

// Marks what is dropped, at the places of the names, by 13 or 14; the fault of a stage before 13, where there is one. The rows are freed with the frame.
fn mark_drops(text: &[u8], marks: &mut [u8]) -> Result<(), Fault>
    ensures { MarksDrops text.now marks.old marks.new result }
{
    if token::LONGEST < text.len() {
        return Err(Fault {
            number: refusals::LONG_TEXT,
            place: 0,
        });
    }
    let mut d = [0; definition::KEPT];
    let mut e = [0; enumerator::KEPT];
    let mut o = [0; object::KEPT];
    let mut s = [0; statement::KEPT];
    let r = reading::decide(text, &mut d, &mut e, &mut o, &mut s);
    if let Some(f) = r.fault {
        return Err(f);
    }
    drop_kept(text, &d, &e, &o, &s, r, marks);
    Ok(())
}

// The answer to a text. The tables are freed with the frame.
fn answer_to(text: &[u8]) -> Answer
    ensures { AnswersTo text.now result }
{
    let mut d = [0usize; definition::LENT];
    let mut e = [0usize; enumerator::LENT];
    let mut o = [0usize; object::LENT];
    let mut v = [0usize; value::LENT];
    let r = reading::read(text, &mut d, &mut e, &mut o, &mut v);
    r.answer
}

// The place in the text of a refusal of the mended text; 0 of those that the table of refusals places there.
fn refusal_back(text: &[u8], marks: &[u8], number: u8, place: usize) -> usize
    ensures { result ≡ place_by text.now marks.now number place }
{
    if placing::is_at_start(number as usize) {
        return place;
    }
    walking::place_back(text, marks, place)
}

// The mended text and the lines for what is dropped, to the fronts of the outputs; 20 where one is too short, and then both stay.
fn put_out(
    text: &[u8],
    origins: &[usize],
    marks: &[u8],
    mended: &[u8],
    output: &mut [u8],
    lines: &mut [u8],
) -> Result<Mended, Unmended>
    ensures { PutsOut text.now origins.now marks.now mended.now output.old lines.old output.new lines.new result }
{
    if output.len() < mended.len() {
        return Err(Unmended::NotMended(Fault {
            number: refusals::SHORT_OUTPUT,
            place: 0,
        }));
    }
    let mut scratch = [0u8; 1];
    if lines.len() < telling::put_lines(text, origins, marks, &mut scratch) {
        return Err(Unmended::NotMended(Fault {
            number: refusals::SHORT_OUTPUT,
            place: 0,
        }));
    }
    bytes::put_bytes(output, 0, mended);
    let n = telling::put_lines(text, origins, marks, lines);
    Ok(Mended {
        text: mended.len(),
        lines: n,
    })
}

// Mends a text, whose bytes have these origins: text numbers times 65,536, and places. The mended text goes to the front of one output and a line for
// each drop, in text order, to that of the other. Both stay on any refusal.
pub fn mend(
    text: &[u8],
    origins: &[usize],
    output: &mut [u8],
    lines: &mut [u8],
) -> Result<Mended, Unmended>
    ensures mends { MendsText text.now origins.now output.old lines.old output.new lines.new result }
    ensures rules { MendsByRules text.now origins.now output.old lines.old output.new lines.new result }
{
    let mut marks = [0u8; token::PLACES];
    if let Err(f) = mark_drops(text, &mut marks) {
        return Err(Unmended::Refused(f));
    }
    let mut room = [0u8; token::LONGEST];
    let n = walking::put_mended(text, &marks, &mut room);
    let mended = token::part(&room, 0, n);
    let answer = answer_to(mended);
    match answer {
        Answer::Refused(number, place) => {
            let p = refusal_back(text, &marks, number, place);
            Err(Unmended::NotMended(Fault { number, place: p }))
        }
        Answer::Accepted => put_out(text, origins, &marks, mended, output, lines),
    }
}
