// The value of one attribute of a text, by kind, object name and dotted path (document 02, Q-13).
#![tactic(auto)]

ghost use Rattle.attribute_values.specs.Results.{copied, Leaves, ValuesText};
ghost use Rattle.attribute_values.specs.Rows.{row_of, told_at};
ghost use Rattle.attribute_values.specs.Rules.{ValuesByRules};
ghost use Rattle.writing.specs.Lines.{value_at};
ghost use Rattle.std.specs.Prelude.{◌≡◌};

use layout::{definition, enumerator, object, value};
use reading::{Answer, Reading};
use rows::{Fault, refusals};
use writing::values;

mod entries;
mod objects;
mod paths;

// The value of row k, copied to the front of the output; 20 where it is longer.
fn copy_row(text: &[u8], v: &[usize], k: usize, out: &mut [u8]) -> Result<Option<usize>, Fault>
    ensures { Leaves (copied (value_at text.now v.now k) out.old) out.new result }
{
    let mut scratch = [0u8; 1];
    if out.len() < values::put_value(text, v, k, &mut scratch, 0) {
        return Err(Fault {
            number: refusals::SHORT_OUTPUT,
            place: 0,
        });
    }
    let length = values::put_value(text, v, k, out, 0);
    Ok(Some(length))
}

// The row of the value, in the tables of an accepted text: its first m objects and n values.
fn find_row(
    text: &[u8],
    d: &[usize],
    o: &[usize],
    v: &[usize],
    r: Reading,
    kind: &[u8],
    name: &[u8],
    path: &[u8],
) -> Option<usize>
    ensures { result ≡ row_of text.now d.now o.now v.now r.objects r.values kind.now name.now path.now }
{
    let Some(row) = objects::find_object(text, o, r.objects, kind, name) else {
        return None;
    };
    entries::find_value(text, d, v, r.values, row, path)
}

// The answer for an accepted text, whose rows are in the tables.
fn copy_found(
    text: &[u8],
    v: &[usize],
    found: Option<usize>,
    out: &mut [u8],
) -> Result<Option<usize>, Fault>
    ensures { Leaves (told_at text.now v.now found out.old) out.new result }
{
    match found {
        Some(k) => copy_row(text, v, k, out),
        None => Ok(None),
    }
}

// The value of one attribute, by the kind's word, the object's name and a dotted path, copied to the front of the output as normal text writes it,
// without what is under it: how many bytes it takes, if there is such a value. The output stays as it is where the text is refused, nothing is found
// or the value is longer, which is refusal 20 at 0.
pub fn value(
    text: &[u8],
    kind: &[u8],
    name: &[u8],
    path: &[u8],
    out: &mut [u8],
) -> Result<Option<usize>, Fault>
    ensures values { ValuesText text.now kind.now name.now path.now out.old out.new result }
    ensures rules { ValuesByRules text.now kind.now name.now path.now out.old out.new result }
{
    let mut d = [0usize; definition::LENT];
    let mut e = [0usize; enumerator::LENT];
    let mut o = [0usize; object::LENT];
    let mut v = [0usize; value::LENT];
    let w = reading::read_spanned(text, &mut d, &mut e, &mut o, &mut v);
    let r = w.reading;
    let answer = r.answer;
    match answer {
        Answer::Refused(number, place) => Err(Fault { number, place }),
        Answer::Accepted => {
            let found = find_row(text, &d, &o, &v, r, kind, name, path);
            copy_found(text, &v, found, out)
        }
    }
}
