// Reading a text into four lent tables.
#![tactic(auto)]

ghost use Rattle.std.specs.Prelude.{◌≡◌};
ghost use Rattle.meaning.specs.Answers.{refused};
ghost use Rattle.meaning.specs.Rules.{FullRoom};
ghost use Rattle.grammar.specs.Readers.{answer_of};
ghost use Rattle.lookups.specs.Names.{Names};
ghost use Rattle.reading.specs.Results.{reading_of, Reads, ReadsSpanned};
ghost use Rattle.reading.specs.Rules.{ReadsByRules};
ghost use Rattle.reading.specs.Demand.{Demand-3};
ghost use Rattle.reading.specs.Decisions.{grammar_fault, sizes_of, Stages, Decides, Settles, Concludes, RoomSizes, Unspanned, FilledSpanned};

use grammar::{Look, Refusal};
use layout::{definition, enumerator, object, part, statement, value};
use lookups::names;
use rows::{Fault, cells, counts, refusals};
use scopes::Sizes;
use walk::Walked;

// The answer: the text is accepted, or refused with a number and a place.
#[derive(Clone, Copy)]
pub enum Answer {
    Accepted,
    Refused(u8, usize),
}

// The answer, how many rows of each table are used, and how many objects there are of each of the thirteen kinds; all 0 where it is refused.
#[derive(Clone, Copy)]
pub struct Reading {
    pub answer: Answer,
    pub definitions: usize,
    pub enumerators: usize,
    pub objects: usize,
    pub values: usize,
    pub counts: [usize; counts::KINDS],
}

// A reading, with place and length of the implementation and of the CPU's name, and the place of each kind's word in the implementation (0: none);
// all 0 where it is refused.
#[derive(Clone, Copy)]
pub struct Spanned {
    pub reading: Reading,
    pub implementation_at: usize,
    pub implementation_len: usize,
    pub cpu_at: usize,
    pub cpu_len: usize,
    pub places: [usize; counts::KINDS],
}

// The fault up to 12 and 17 by which the text is refused, where there is one, with what the walk tells; where there is none, how many objects there
// are, and how many of each kind.
#[derive(Clone, Copy)]
pub struct Decision {
    pub fault: Option<Fault>,
    pub walked: Walked,
    pub objects: usize,
    pub counts: [usize; counts::KINDS],
}

fn refusal(number: u8, place: usize) -> Reading
    ensures { result ≡ reading_of (refused number place) }
{
    let counts = [0; counts::KINDS];
    Reading {
        answer: Answer::Refused(number, place),
        definitions: 0,
        enumerators: 0,
        objects: 0,
        values: 0,
        counts: counts,
    }
}

fn refused(number: u8, place: usize) -> Spanned
    ensures { Unspanned number place result }
{
    let r = refusal(number, place);
    let places = [0; counts::KINDS];
    Spanned {
        reading: r,
        implementation_at: 0,
        implementation_len: 0,
        cpu_at: 0,
        cpu_len: 0,
        places: places,
    }
}

// What the grammar stage answers at the look after the file, as a fault.
fn grammar_fault(look: Look) -> Option<Fault>
    ensures { result ≡ grammar_fault (answer_of look) }
{
    match grammar::answer_of(look) {
        Ok(()) => None,
        Err(Refusal::NoToken(place)) => Some(Fault {
            number: refusals::NO_TOKEN,
            place,
        }),
        Err(Refusal::NotAdmitted(place)) => Some(Fault {
            number: refusals::NOT_ADMITTED,
            place,
        }),
        Err(Refusal::TooDeep(place)) => Some(Fault {
            number: refusals::TOO_DEEP,
            place,
        }),
    }
}

// The stages of 6 to 12 and of 17: from the rows p and q of parts and their statements come the rows o and s of the objects.
fn stages(
    text: &[u8],
    d: &[usize],
    e: &[usize],
    p: &[usize],
    q: &[usize],
    o: &mut [usize],
    s: &mut [usize],
    w: Walked,
) -> Decision
    ensures { Stages text.now (record { definitions = d.now; enumerators = e.now; parts = p.now; statements = q.now }) o.old s.old o.new s.new w result }
{
    let none = [0; counts::KINDS];
    let a = defining_checks::definition_faults(
        text,
        d,
        e,
        w.definitions,
        w.enumerators,
        w.version_at,
        w.version_len,
        w.again,
    );
    if a.is_some() {
        return Decision {
            fault: a,
            walked: w,
            objects: 0,
            counts: none,
        };
    }
    let n = cells::least_of(w.parts, part::ROWS);
    let x = merging::firsts(text, p, 0, n);
    let of_parts = w.counts;
    let b = checks::objects::object_faults(
        text,
        p,
        q,
        &x,
        w.parts,
        w.statements,
        of_parts,
        w.cpu_at,
    );
    let own = b.fault;
    if own.is_some() {
        return Decision {
            fault: own,
            walked: w,
            objects: 0,
            counts: none,
        };
    }
    merging::objects::merge(p, q, &x, w.parts, o, s);
    let of_kinds = b.counts;
    Decision {
        fault: own,
        walked: w,
        objects: b.objects,
        counts: of_kinds,
    }
}

// The walk of the text and the faults up to 12 and 17. The rows of parts and their statements are freed with its frame, before statements are judged.
pub fn decide(
    text: &[u8],
    d: &mut [usize],
    e: &mut [usize],
    o: &mut [usize],
    s: &mut [usize],
) -> Decision
    ensures { Decides text.now d.old e.old o.old s.old (record { definitions = d.new; enumerators = e.new; objects = o.new; statements = s.new }) result }
{
    let none = [0; counts::KINDS];
    let mut p = [0; part::KEPT];
    let mut q = [0; statement::KEPT];
    let w = walk::walk(text, d, e, &mut p, &mut q);
    let look = w.look;
    let g = grammar_fault(look);
    if g.is_some() {
        return Decision {
            fault: g,
            walked: w,
            objects: 0,
            counts: none,
        };
    }
    stages(text, d, e, &p, &q, o, s, w)
}

// The values, refusal 19, and the rows of the lent tables.
fn settle(
    text: &[u8],
    d: &[usize],
    e: &[usize],
    o: &[usize],
    s: &[usize],
    names: &[usize],
    decision: Decision,
    definitions: &mut [usize],
    enumerators: &mut [usize],
    objects: &mut [usize],
    values: &mut [usize],
) -> Reading
    requires { Names text.now d.now e.now o.now s.now (sizes_of decision) names.now }
    ensures { Settles text.now (record { definitions = d.now; enumerators = e.now; objects = o.now; statements = s.now }) decision definitions.entry.now enumerators.old objects.old values.old definitions.exit.now enumerators.new objects.new values.new result }
{
    let w = decision.walked;
    let places = w.places;
    let z = Sizes {
        definitions: w.definitions,
        enumerators: w.enumerators,
        objects: decision.objects,
    };
    let n = resolving::entering::resolve_all(text, d, e, o, s, names, values, z, places);
    if value::MOST < n {
        cells::clear(values);
        return refusal(refusals::MANY_VALUES, 0);
    }
    copying::copy_definitions(d, w.definitions, definitions);
    copying::copy_enumerators(d, w.definitions, e, w.enumerators, enumerators);
    copying::copy_objects(o, decision.objects, objects);
    let of_kinds = decision.counts;
    Reading {
        answer: Answer::Accepted,
        definitions: w.definitions,
        enumerators: w.enumerators,
        objects: decision.objects,
        values: n,
        counts: of_kinds,
    }
}

// The table of names, the faults of 13 to 16 and 18, for which the room for values is lent, and the rest.
fn conclude(
    text: &[u8],
    d: &[usize],
    e: &[usize],
    o: &[usize],
    s: &[usize],
    decision: Decision,
    definitions: &mut [usize],
    enumerators: &mut [usize],
    objects: &mut [usize],
    values: &mut [usize],
) -> Reading
    ensures { Concludes text.now (record { definitions = d.now; enumerators = e.now; objects = o.now; statements = s.now }) decision definitions.entry.now enumerators.old objects.old values.old definitions.exit.now enumerators.new objects.new values.new result }
{
    let w = decision.walked;
    let places = w.places;
    let z = Sizes {
        definitions: w.definitions,
        enumerators: w.enumerators,
        objects: decision.objects,
    };
    let mut names = [0; names::CELLS];
    lookups::names::note(text, d, e, o, s, z, w.statements, &mut names);
    let f = judging::judge_all(text, d, e, o, s, &mut names, values, z, places);
    if let Some(f) = f {
        return refusal(f.number, f.place);
    }
    settle(
        text,
        d,
        e,
        o,
        s,
        &names,
        decision,
        definitions,
        enumerators,
        objects,
        values,
    )
}

// The text is read into rooms of the stated sizes.
fn fill(
    text: &[u8],
    definitions: &mut [usize],
    enumerators: &mut [usize],
    objects: &mut [usize],
    values: &mut [usize],
) -> Spanned
    requires { RoomSizes definitions.old enumerators.old objects.old values.old }
    ensures { FilledSpanned text.now definitions.new enumerators.new objects.new values.new result }
{
    cells::clear(definitions);
    cells::clear(enumerators);
    cells::clear(objects);
    cells::clear(values);
    if token::LONGEST < text.len() {
        return refused(refusals::LONG_TEXT, 0);
    }
    let mut d = [0; definition::KEPT];
    let mut e = [0; enumerator::KEPT];
    let mut o = [0; object::KEPT];
    let mut s = [0; statement::KEPT];
    let r = decide(text, &mut d, &mut e, &mut o, &mut s);
    if let Some(f) = r.fault {
        return refused(f.number, f.place);
    }
    let w = r.walked;
    let reading = conclude(
        text,
        &d,
        &e,
        &o,
        &s,
        r,
        definitions,
        enumerators,
        objects,
        values,
    );
    let answer = reading.answer;
    match answer {
        Answer::Refused(number, place) => refused(number, place),
        Answer::Accepted => {
            let places = w.places;
            Spanned {
                reading: reading,
                implementation_at: w.implementation_at,
                implementation_len: w.implementation_len,
                cpu_at: w.cpu_at,
                cpu_len: w.cpu_len,
                places: places,
            }
        }
    }
}

// Reads a text into four lent tables, and tells where the implementation, the CPU's name and the kinds' words stand: what the writer of normal
// text and the questions over an accepted text ask.
// Refusal 1 where one of the tables is shorter than its room: nothing is touched then.
pub fn read_spanned(
    text: &[u8],
    definitions: &mut [usize],
    enumerators: &mut [usize],
    objects: &mut [usize],
    values: &mut [usize],
) -> Spanned
    ensures reads { ReadsSpanned text.now definitions.old enumerators.old objects.old values.old definitions.new enumerators.new objects.new values.new result }
    ensures rules { ReadsByRules text.now definitions.old enumerators.old objects.old values.old definitions.new enumerators.new objects.new values.new result.reading }
    ensures demand_3 { FullRoom definitions.old enumerators.old objects.old values.old → Demand-3 text.now result.reading.answer }
{
    if definitions.len() < definition::LENT {
        return refused(refusals::SHORT_TABLES, 0);
    }
    if enumerators.len() < enumerator::LENT {
        return refused(refusals::SHORT_TABLES, 0);
    }
    if objects.len() < object::LENT {
        return refused(refusals::SHORT_TABLES, 0);
    }
    if values.len() < value::LENT {
        return refused(refusals::SHORT_TABLES, 0);
    }
    fill(
        text,
        &mut definitions[..6656],
        &mut enumerators[..3072],
        &mut objects[..2048],
        &mut values[..18432],
    )
}

// Reads a text into four lent tables. Refusal 1 where one of them is shorter than its room: nothing is touched then.
pub fn read(
    text: &[u8],
    definitions: &mut [usize],
    enumerators: &mut [usize],
    objects: &mut [usize],
    values: &mut [usize],
) -> Reading
    ensures reads { Reads text.now definitions.old enumerators.old objects.old values.old definitions.new enumerators.new objects.new values.new result }
    ensures rules { ReadsByRules text.now definitions.old enumerators.old objects.old values.old definitions.new enumerators.new objects.new values.new result }
    ensures demand_3 { FullRoom definitions.old enumerators.old objects.old values.old → Demand-3 text.now result.answer }
{
    let r = read_spanned(text, definitions, enumerators, objects, values);
    r.reading
}
