// Objects as lines, each with its values.
ghost use Rattle.writing.specs.Wrote.{Wrote};
ghost use Rattle.writing.specs.Lines.{opening_at};
ghost use Rattle.writing.specs.Promises.{PutsObject, PutsObjects};

use super::{Spot, bytes, values};
use layout::object;
use rows::cells;

// The kind word and the name of object i, and ` {`.
fn put_opening(text: &[u8], o: &[usize], i: usize, out: &mut [u8], at: usize) -> usize
    ensures { Wrote out.old at (opening_at text.now o.now i) out.new result }
{
    let word = cells::cell_of(o, object::LENT_WIDTH, i, object::WORD);
    let size = cells::cell_of(o, object::LENT_WIDTH, i, object::WORD_LENGTH);
    let name = cells::cell_of(o, object::LENT_WIDTH, i, object::NAME);
    let length = cells::cell_of(o, object::LENT_WIDTH, i, object::NAME_LENGTH);
    let a = bytes::put_part(text, word, size, out, at);
    let b = bytes::put_bytes(out, a, b" ");
    let c = bytes::put_part(text, name, length, out, b);
    bytes::put_bytes(out, c, b" {\n")
}

// Object i, whose values are the rows from k on.
fn put_object(
    text: &[u8],
    d: &[usize],
    o: &[usize],
    v: &[usize],
    n: usize,
    i: usize,
    k: usize,
    out: &mut [u8],
    at: usize,
) -> Spot
    ensures { PutsObject text.now d.now o.now v.now n i k out.old at out.new result }
{
    let a = put_opening(text, o, i, out, at);
    let s = values::put_lines(text, d, v, n, k, 0, i, out, a);
    let b = bytes::put_bytes(out, s.place, b"};\n");
    Spot {
        next: s.next,
        place: b,
    }
}

// The first m objects.
pub fn put_objects(
    text: &[u8],
    d: &[usize],
    o: &[usize],
    v: &[usize],
    m: usize,
    n: usize,
    out: &mut [u8],
    at: usize,
) -> usize
    ensures { PutsObjects text.now d.now o.now v.now m n out.old at out.new result }
{
    let mut k = 0;
    let mut e = at;
    for i in 0..m {
        let s = put_object(text, d, o, v, n, i, k, out, e);
        k = s.next;
        e = s.place;
    }
    e
}
