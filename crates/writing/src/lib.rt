// The normal text of an accepted text, written into a lent output.
#![tactic(auto)]

ghost use Rattle.writing.specs.Promises.{PutsApplication, WritesNormal, Measures, PutsOut};
ghost use Rattle.writing.specs.Results.{Writes};
ghost use Rattle.writing.specs.Rules.{WritesByRules};
ghost use Rattle.meaning.specs.Rules.{FullRoom};
ghost use Rattle.reading.specs.Demand.{Demand-3};

use reading::{Answer, Spanned};
use rows::{cells, refusals};

pub mod bytes;
mod objects;
pub mod values;

// The row after those that were written, and the place after their lines.
#[derive(Clone, Copy)]
pub struct Spot {
    next: usize,
    place: usize,
}

// The answer, and how long the normal text is; 0 where it is refused.
#[derive(Clone, Copy)]
pub struct Written {
    pub answer: Answer,
    pub length: usize,
}

// The application: the CPU's name, which is at a place, and the first m objects with their values, which are the first n.
fn put_application(
    text: &[u8],
    d: &[usize],
    o: &[usize],
    v: &[usize],
    m: usize,
    n: usize,
    cpu: usize,
    size: usize,
    out: &mut [u8],
    at: usize,
) -> usize
    ensures { PutsApplication text.now d.now o.now v.now m n cpu size out.old at out.new result }
{
    let a = bytes::put_bytes(out, at, b"CPU ");
    let b = bytes::put_part(text, cpu, size, out, a);
    let c = bytes::put_bytes(out, b, b" {\n");
    let e = objects::put_objects(text, d, o, v, m, n, out, c);
    bytes::put_bytes(out, e, b"};\n")
}

// The whole normal text, from the rooms of the tables as a reading leaves them, the places and lengths of the implementation and of the CPU's
// name; returns its length.
fn write_normal(
    text: &[u8],
    d: &[usize],
    o: &[usize],
    v: &[usize],
    m: usize,
    n: usize,
    from: usize,
    length: usize,
    cpu: usize,
    size: usize,
    out: &mut [u8],
) -> usize
    ensures { WritesNormal text.now d.now o.now v.now m n from length cpu size out.old out.new result }
{
    let a = bytes::put_bytes(out, 0, b"OIL_VERSION = \"2.5\";\n");
    let b = bytes::put_part(text, from, length, out, a);
    let c = bytes::put_bytes(out, b, b"\n");
    put_application(text, d, o, v, m, n, cpu, size, out, c)
}

// How long the normal text is: it is written into an output of one byte.
fn normal_length(text: &[u8], d: &[usize], o: &[usize], v: &[usize], w: Spanned) -> usize
    ensures { Measures text.now d.now o.now v.now w result }
{
    let r = w.reading;
    let mut scratch = [0u8; 1];
    write_normal(
        text,
        d,
        o,
        v,
        r.objects,
        r.values,
        w.implementation_at,
        w.implementation_len,
        w.cpu_at,
        w.cpu_len,
        &mut scratch,
    )
}

// The normal text of an accepted text whose rows are in the rooms. Refusal 20 where it is longer than the output: the rooms are cleared then.
fn put_out(
    text: &[u8],
    d: &mut [usize],
    e: &mut [usize],
    o: &mut [usize],
    v: &mut [usize],
    w: Spanned,
    out: &mut [u8],
) -> Written
    ensures { PutsOut text.now d.old e.old o.old v.old w out.old d.new e.new o.new v.new out.new result }
{
    if out.len() < normal_length(text, d, o, v, w) {
        cells::clear(d);
        cells::clear(e);
        cells::clear(o);
        cells::clear(v);
        return Written {
            answer: Answer::Refused(refusals::SHORT_OUTPUT, 0),
            length: 0,
        };
    }
    let r = w.reading;
    let n = write_normal(
        text,
        d,
        o,
        v,
        r.objects,
        r.values,
        w.implementation_at,
        w.implementation_len,
        w.cpu_at,
        w.cpu_len,
        out,
    );
    Written {
        answer: Answer::Accepted,
        length: n,
    }
}

// Reads a text into four lent tables and writes its normal text to the front of a lent output. No refusal touches the output.
pub fn write(
    text: &[u8],
    definitions: &mut [usize],
    enumerators: &mut [usize],
    objects: &mut [usize],
    values: &mut [usize],
    out: &mut [u8],
) -> Written
    ensures writes { Writes text.now definitions.old enumerators.old objects.old values.old out.old definitions.new enumerators.new objects.new values.new out.new result }
    ensures rules { WritesByRules text.now definitions.old enumerators.old objects.old values.old out.old definitions.new enumerators.new objects.new values.new out.new result }
    ensures demand_3 { FullRoom definitions.old enumerators.old objects.old values.old → Demand-3 text.now result.answer }
{
    let w = reading::read_spanned(text, definitions, enumerators, objects, values);
    let r = w.reading;
    let answer = r.answer;
    match answer {
        Answer::Refused(number, place) => Written {
            answer: Answer::Refused(number, place),
            length: 0,
        },
        Answer::Accepted => put_out(
            text,
            &mut definitions[..6656],
            &mut enumerators[..3072],
            &mut objects[..2048],
            &mut values[..18432],
            w,
            out,
        ),
    }
}
