// The table of ranges, made from the text: each range is read once.
ghost use Rattle.std.specs.Prelude.{◌≡◌, [], ◌∷◌, ◌+◌, ◌*◌, ◌≤◌, ◌<◌, length};
ghost use Rattle.std.proofs.lemmas.List.Edits.{sets};
ghost use Rattle.token.specs.Find.{bit};
ghost use Rattle.scopes.specs.Items.{num};
ghost use Rattle.amounts.specs.Promises.{KeyedBehind, Keyed, Rises, KeyedRising, NotesRow, NotesFloats, Notes};

use super::{keys, ranges};
use layout::{definition, word_codes};
use rows::cells;
use scopes::{Num, floats, numbers};

// Puts after the first cells, so many, those of the numbers that stand from a place on, a comma before each; returns how many cells there are then,
// or 0 where a number has no cell or does not fit.
fn put_rest(text: &[u8], sign: bool, from: usize, count: usize, l: &mut [usize]) -> usize
    requires { count ≤ length l.old }
    ensures { KeyedBehind text.now sign from count l.old l.new result }
{
    let mut i = count;
    let mut at = from;
    // A `while`: the next number stands where the one before it ends.
    while at < text.len() {
        let s = numbers::comma_at(text, at);
        if s.sign != b',' {
            return i;
        }
        let x = numbers::item_at(text, s.next);
        if !keys::has_key(sign, x.number) {
            return 0;
        }
        if l.len() <= i {
            return 0;
        }
        l[i] = keys::key(x.number);
        i += 1;
        at = x.next;
    }
    i
}

// The cells of a first number and of those that stand from a place on, a comma before each; returns how many, or 0 where they do not all fit.
fn put_keys(text: &[u8], sign: bool, first: Num, from: usize, l: &mut [usize]) -> usize
    ensures { Keyed text.now sign (num first) from l.old l.new result }
{
    if !keys::has_key(sign, first) {
        return 0;
    }
    if l.len() == 0 {
        return 0;
    }
    l[0] = keys::key(first);
    put_rest(text, sign, from, 1, l)
}

// Whether no cell is less than the one before it.
fn rises(l: &[usize]) -> bool
    ensures { Rises l.now result }
{
    let mut last = 0;
    for cell in l {
        if *cell < last {
            return false;
        }
        last = *cell;
    }
    true
}

// The same, in rising order; `spare` is room for half of them.
fn put_sorted(
    text: &[u8],
    sign: bool,
    first: Num,
    from: usize,
    l: &mut [usize],
    spare: &mut [usize],
) -> usize
    ensures { KeyedRising text.now sign (num first) from l.old l.new result }
{
    let n = put_keys(text, sign, first, from, l);
    if rises(&l[..n]) {
        return n;
    }
    if spare.len() < n / 2 {
        return 0;
    }
    sorting::sort(&mut l[..n], spare);
    n
}

// The row of the definition of row j, which has two bounds.
fn note_two(t: &mut [usize], j: usize, a: Num, b: Num)
    requires { j < 512 }
    ensures { t.new ≡ sets t.old (512 + j * 5) (1 ∷ bit a.negative ∷ a.amount ∷ bit b.negative ∷ b.amount ∷ []) }
{
    let row = [
        ranges::BOUNDS,
        keys::sign_of(a),
        a.amount as usize,
        keys::sign_of(b),
        b.amount as usize,
    ];
    cells::put_cells(t, ranges::FIRST + j * ranges::WIDTH, &row);
}

// The row of the definition of row j, of an integer type, if it has a range; returns where the lists end.
fn note_row(
    text: &[u8],
    d: &[usize],
    j: usize,
    t: &mut [usize],
    spare: &mut [usize],
    used: usize,
) -> usize
    ensures { NotesRow text.now d.now t.old used t.new result }
{
    if definition::MOST <= j {
        return used;
    }
    let range = cells::cell_of(d, definition::WIDTH, j, definition::RANGE);
    if range == 0 {
        return used;
    }
    let o = numbers::item_at(text, range);
    let a = numbers::item_at(text, o.next);
    let s = numbers::item_at(text, a.next);
    if s.sign == b'.' {
        let b = numbers::item_at(text, s.next);
        note_two(t, j, a.number, b.number);
        return used;
    }
    if t.len() < used {
        return used;
    }
    let sign = keys::is_signed(cells::cell_of(d, definition::WIDTH, j, definition::CODE));
    let n = put_sorted(text, sign, a.number, a.next, &mut t[used..], spare);
    if n == 0 {
        return used;
    }
    let end = used + n;
    cells::put_cells(
        t,
        ranges::FIRST + j * ranges::WIDTH,
        &[ranges::LIST, used, end, 0, 0],
    );
    end
}

// The row of the definition of row j, a FLOAT, if it has a range.
fn note_floats(text: &[u8], d: &[usize], j: usize, t: &mut [usize])
    ensures { NotesFloats text.now d.now t.old t.new }
{
    if definition::MOST <= j {
        return;
    }
    let range = cells::cell_of(d, definition::WIDTH, j, definition::RANGE);
    if range == 0 {
        return;
    }
    let o = numbers::item_at(text, range);
    let a = numbers::item_at(text, o.next);
    let s = numbers::item_at(text, a.next);
    let low = floats::float_at(text, o.next);
    let high = floats::float_at(text, s.next);
    let row = [
        ranges::FLOATS,
        low.digits as usize,
        keys::scale_of(low),
        high.digits as usize,
        keys::scale_of(high),
    ];
    cells::put_cells(t, ranges::FIRST + j * ranges::WIDTH, &row);
}

// The row of the definition of row j, if it has a range and is wanted; returns where the lists end.
fn note_range(
    text: &[u8],
    d: &[usize],
    wanted: &[usize],
    j: usize,
    t: &mut [usize],
    spare: &mut [usize],
    used: usize,
) -> usize
    ensures { NotesRow text.now d.now t.old used t.new result }
{
    if cells::get(wanted, j) == 0 {
        return used;
    }
    if cells::cell_of(d, definition::WIDTH, j, definition::CODE) == word_codes::FLOAT {
        note_floats(text, d, j, t);
        return used;
    }
    note_row(text, d, j, t, spare, used)
}

// The rows of those of the first n definitions that are wanted, in a table that was 0 before.
pub fn note_ranges(
    text: &[u8],
    d: &[usize],
    wanted: &[usize],
    n: usize,
    t: &mut [usize],
    spare: &mut [usize],
)
    ensures { Notes text.now d.now t.old t.new }
{
    let mut used = ranges::LISTED;
    for j in 0..n.min(definition::MOST) {
        used = note_range(text, d, wanted, j, t, spare, used);
    }
}
