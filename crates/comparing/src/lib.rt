// The comparison of two releases (document 02, Q-8).
#![tactic(auto)]

ghost use Rattle.std.specs.Prelude.{◌≡◌, ◌<◌, min, length, set, get_or, take};
ghost use Rattle.comparing.specs.Lists.{overwrite};
ghost use Rattle.comparing.specs.Records.{no_record};

use layout::value;

mod columns;
pub mod couples;
pub mod gathering;
pub mod matches_of;
pub mod names;
mod ordering;
mod pairs;
mod partners;
mod positions;
mod values;

// A difference, by rows: each is one more than the row, or 0 where that text has none.
#[repr(C)]
#[derive(Clone, Copy)]
pub struct Difference {
    pub first_object: usize,
    pub second_object: usize,
    pub first_value: usize,
    pub second_value: usize,
}

// The answer: which text is refused, 1 or 2, with its number and place, or 0; and how many differences there are.
#[repr(C)]
#[derive(Clone, Copy)]
pub struct Compared {
    pub which: usize,
    pub number: usize,
    pub place: usize,
    pub total: usize,
}

// The most records of a comparison.
pub const RECORDS: usize = 64;

// Few values of an object, for which less room is made.
pub const FEW: usize = 128;

// Half of so many rows, and of the most: sorting needs as much room beside them.
const HALF_FEW: usize = FEW / 2;

const HALF_MOST: usize = value::MOST / 2;

// The first 64 differences, or all where there are fewer, how many there are, and the answer.
#[derive(Clone, Copy)]
pub struct Found {
    pub total: usize,
    pub records: [Difference; RECORDS],
    pub compared: Compared,
}

// A text with the tables of its rows.
#[derive(Clone, Copy)]
pub struct Side<'a> {
    pub text: &'a [u8],
    pub definitions: &'a [usize],
    pub objects: &'a [usize],
    pub values: &'a [usize],
}

// An object of a text, by one more than its row: the numbers of the names of the text's definitions, and the rows of the object's values, which
// are so many from a row on.
#[derive(Clone, Copy)]
pub struct Object<'a> {
    pub side: Side<'a>,
    pub names: &'a [usize],
    pub number: usize,
    pub from: usize,
    pub many: usize,
}

// Stores one record at its place in the lent list.
fn put_difference(list: &mut [Difference], at: usize, d: Difference)
    requires { at < length list.old }
    ensures { list.new ≡ set list.old at d }
{
    list[at] = d;
}

// How many records go into a list of this length.
fn used(total: usize, length: usize) -> usize
    ensures { result ≡ min (min total 64) length }
{
    total.min(RECORDS).min(length)
}

// A record that was found.
fn record_at(found: Found, k: usize) -> Difference
    requires { k < 64 }
    ensures { result ≡ get_or found.records k no_record }
{
    found.records[k]
}

// Stores what was found into the lent list, as far as it reaches.
pub fn put_all(list: &mut [Difference], found: Found)
    ensures { list.new ≡ overwrite (take (min found.total 64) found.records) list.old }
{
    let n = used(found.total, list.len());
    for k in 0..n {
        put_difference(list, k, record_at(found, k));
    }
}
