// The lines that tell how two releases differ, one for each record: who has it, kind, name, path, and the value of each side, separated by tabs.
ghost use Rattle.std.specs.Prelude.{◌≤◌};

use comparing::Difference;
use console::{Page, write, write_number};
use layout::{definition, object, sorts, value};
use rows::{cells, parts};

// The part of a text that two cells of a row tell.
fn write_cells(
    rt: HostRuntime,
    page: &mut Page,
    text: &[u8],
    t: &[usize],
    width: usize,
    row: usize,
    column: usize,
) {
    let at = cells::cell_of(t, width, row, column);
    let len = cells::cell_of(t, width, row, cells::place_after(64, column, 1));
    write(rt, page, token::part(text, at, len));
}

// The bytes in lower-case hex.
fn write_hex(rt: HostRuntime, page: &mut Page, bytes: &[u8]) {
    for byte in bytes {
        console::write_hex(rt, page, *byte);
    }
}

// What stands between the quotes of a string.
fn write_string(rt: HostRuntime, page: &mut Page, word: &[u8]) {
    if word.len() < 2 {
        return;
    }
    write_hex(rt, page, token::part(word, 1, word.len() - 2));
}

// The value of row k: a number in decimal, a string in hex, any other as its word stands.
fn write_value(rt: HostRuntime, page: &mut Page, text: &[u8], v: &[usize], k: usize) {
    let sort = cells::cell_of(v, value::WIDTH, k, value::SORT);
    if sort == sorts::NUMBER {
        if cells::cell_of(v, value::WIDTH, k, value::NEGATIVE) == 1 {
            write(rt, page, b"-");
        }
        write_number(rt, page, cells::cell_of(v, value::WIDTH, k, value::AMOUNT));
        return;
    }
    if sort == sorts::STRING {
        let at = cells::cell_of(v, value::WIDTH, k, value::WORD);
        let len = cells::cell_of(v, value::WIDTH, k, value::WORD_LENGTH);
        write_string(rt, page, token::part(text, at, len));
        return;
    }
    write_cells(rt, page, text, v, value::WIDTH, k, value::WORD);
}

// Whether two rows have the same owner.
fn same_owner(v: &[usize], j: usize, k: usize) -> bool {
    cells::cell_of(v, value::WIDTH, j, value::OWNER_SORT)
        == cells::cell_of(v, value::WIDTH, k, value::OWNER_SORT)
        && cells::cell_of(v, value::WIDTH, j, value::OWNER)
            == cells::cell_of(v, value::WIDTH, k, value::OWNER)
}

// Whether their attributes have the same name.
fn same_attribute(text: &[u8], d: &[usize], v: &[usize], j: usize, k: usize) -> bool {
    let a = cells::cell_of(v, value::WIDTH, j, value::DEFINITION);
    let b = cells::cell_of(v, value::WIDTH, k, value::DEFINITION);
    let at = cells::cell_of(d, definition::LENT_WIDTH, a, definition::NAME);
    let len = cells::cell_of(d, definition::LENT_WIDTH, a, definition::NAME_LENGTH);
    let at2 = cells::cell_of(d, definition::LENT_WIDTH, b, definition::NAME);
    let len2 = cells::cell_of(d, definition::LENT_WIDTH, b, definition::NAME_LENGTH);
    parts::same_bytes(token::part(text, at, len), token::part(text, at2, len2))
}

// 1 where row j is an entry of the same attribute and owner as row k.
fn entry(text: &[u8], d: &[usize], v: &[usize], j: usize, k: usize) -> usize
    ensures { result ≤ 1 }
{
    if same_owner(v, j, k) && same_attribute(text, d, v, j, k) {
        1
    } else {
        0
    }
}

// The position of row k in its list.
fn position(text: &[u8], d: &[usize], v: &[usize], k: usize) -> usize {
    let mut p = 0;
    for j in 0..k {
        p += entry(text, d, v, j, k);
    }
    p
}

// The attribute of row k, with its position where it is a list.
fn write_step(rt: HostRuntime, page: &mut Page, text: &[u8], d: &[usize], v: &[usize], k: usize) {
    let j = cells::cell_of(v, value::WIDTH, k, value::DEFINITION);
    write_cells(
        rt,
        page,
        text,
        d,
        definition::LENT_WIDTH,
        j,
        definition::NAME,
    );
    if cells::cell_of(d, definition::LENT_WIDTH, j, definition::LIST) == 1 {
        write(rt, page, b"[");
        write_number(rt, page, position(text, d, v, k));
        write(rt, page, b"]");
    }
}

// The row above row k, or k itself where its owner is the object.
fn row_above(v: &[usize], k: usize) -> usize {
    if cells::cell_of(v, value::WIDTH, k, value::OWNER_SORT) == value::OF_VALUE {
        return cells::cell_of(v, value::WIDTH, k, value::OWNER);
    }
    k
}

// How many rows stand above row k. Braces are at most sixteen deep, and so are these.
fn depth(v: &[usize], k: usize) -> usize
    ensures { result ≤ 31 }
{
    let mut row = k;
    for n in 0..31 {
        let above = row_above(v, row);
        if above == row {
            return n;
        }
        row = above;
    }
    31
}

// The row that stands n rows above row k.
fn row_up(v: &[usize], k: usize, n: usize) -> usize {
    let mut row = k;
    for _ in 0..n {
        row = row_above(v, row);
    }
    row
}

// The attribute n rows above row k, and a dot if one follows.
fn write_level(
    rt: HostRuntime,
    page: &mut Page,
    text: &[u8],
    d: &[usize],
    v: &[usize],
    k: usize,
    n: usize,
) {
    write_step(rt, page, text, d, v, row_up(v, k, n));
    if 0 < n {
        write(rt, page, b".");
    }
}

// The path of row k: the attributes from the object down, separated by dots.
fn write_path(rt: HostRuntime, page: &mut Page, text: &[u8], d: &[usize], v: &[usize], k: usize) {
    for n in (0..=depth(v, k)).rev() {
        write_level(rt, page, text, d, v, k, n);
    }
}

// Kind and name of the object whose row is one less than x, each between tabs.
fn write_object(rt: HostRuntime, page: &mut Page, text: &[u8], o: &[usize], x: usize) {
    if x == 0 {
        return;
    }
    write(rt, page, b"\t");
    write_cells(rt, page, text, o, object::LENT_WIDTH, x - 1, object::WORD);
    write(rt, page, b"\t");
    write_cells(rt, page, text, o, object::LENT_WIDTH, x - 1, object::NAME);
    write(rt, page, b"\t");
}

// The value of the row that is one less than k; nothing where there is none.
fn write_side(rt: HostRuntime, page: &mut Page, text: &[u8], v: &[usize], k: usize) {
    if k == 0 {
        return;
    }
    write_value(rt, page, text, v, k - 1);
}

// Who has the object or the value.
fn write_who(rt: HostRuntime, page: &mut Page, a: usize, b: usize) {
    if b == 0 {
        write(rt, page, b"first");
        return;
    }
    if a == 0 {
        write(rt, page, b"second");
        return;
    }
    write(rt, page, b"both");
}

// Whether the record is that of an object which one text has alone.
fn is_alone(r: Difference) -> bool {
    r.first_object == 0 || r.second_object == 0
}

// The line of an object which one text has alone.
fn write_alone(
    rt: HostRuntime,
    page: &mut Page,
    first: &[u8],
    o: &[usize],
    second: &[u8],
    o2: &[usize],
    r: Difference,
) {
    write_who(rt, page, r.first_object, r.second_object);
    write_object(rt, page, first, o, r.first_object);
    write_object(rt, page, second, o2, r.second_object);
    write(rt, page, b"\t\t\n");
}

// The path of a value, from the first text where it has it.
fn write_way(
    rt: HostRuntime,
    page: &mut Page,
    first: &[u8],
    d: &[usize],
    v: &[usize],
    second: &[u8],
    d2: &[usize],
    v2: &[usize],
    r: Difference,
) {
    if r.first_value != 0 {
        write_path(rt, page, first, d, v, r.first_value - 1);
        return;
    }
    if r.second_value != 0 {
        write_path(rt, page, second, d2, v2, r.second_value - 1);
    }
}

// The line of a record.
pub fn write_line(
    rt: HostRuntime,
    page: &mut Page,
    first: &[u8],
    d: &[usize],
    o: &[usize],
    v: &[usize],
    second: &[u8],
    d2: &[usize],
    o2: &[usize],
    v2: &[usize],
    r: Difference,
) {
    if is_alone(r) {
        write_alone(rt, page, first, o, second, o2, r);
        return;
    }
    write_who(rt, page, r.first_value, r.second_value);
    write_object(rt, page, first, o, r.first_object);
    write_way(rt, page, first, d, v, second, d2, v2, r);
    write(rt, page, b"\t");
    write_side(rt, page, first, v, r.first_value);
    write(rt, page, b"\t");
    write_side(rt, page, second, v2, r.second_value);
    write(rt, page, b"\n");
}
