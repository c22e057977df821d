// Names looked up in the kept rows through indexes and noted ranks: each answer is the one that comparing all bytes gives.
#![tactic(auto)]

ghost use Rattle.std.specs.Prelude.{◌≡◌, List, ℕ, ◌+◌, ◌*◌, length, get_or};
ghost use Rattle.blocks.specs.Blocks.{FindsStated};
ghost use Rattle.lookups.specs.Ranks.{NotesRanks, NextRow, Skips, start_of, first_noted, Firsts, FirstsTo, MayState, StatedRanked, RowStated, IsRowStated};
ghost use Rattle.lookups.specs.Links.{Begins, StatedAfter};
ghost use Rattle.lookups.specs.Answers.{DefinitionIndexed, ObjectIndexed, EnumeratorIndexed, WordIndexed};

pub mod links;
pub mod names;
pub mod owners;

use layout::{definition, enumerator, object, statement, word_codes};
use rows::{cells, parts};

// Few ranks: of a text with fewer definitions.
pub const FEW: usize = 64;

// The definition that a name has in the scope of the word at key; x is the index of the definitions.
pub fn find_definition(
    text: &[u8],
    d: &[usize],
    x: &[usize],
    key: usize,
    at: usize,
    len: usize,
) -> Option<usize>
    ensures { DefinitionIndexed text.now d.now x.now key at len result }
{
    indexes::find_indexed(
        text,
        d,
        definition::WIDTH,
        definition::UNDER,
        key,
        definition::NAME,
        at,
        len,
        x,
    )
}

// The object of a kind that has a name; x is the index of the objects.
pub fn find_object(
    text: &[u8],
    o: &[usize],
    x: &[usize],
    kind: usize,
    at: usize,
    len: usize,
) -> Option<usize>
    ensures { ObjectIndexed text.now o.now x.now kind at len result }
{
    indexes::find_indexed(
        text,
        o,
        object::WIDTH,
        object::KIND,
        kind,
        object::NAME,
        at,
        len,
        x,
    )
}

// The enumerator of the list of the ENUM of row j that a word is; x is the index of the enumerators.
pub fn find_enumerator(
    text: &[u8],
    d: &[usize],
    e: &[usize],
    x: &[usize],
    j: usize,
    at: usize,
    len: usize,
) -> Option<usize>
    ensures { EnumeratorIndexed text.now d.now e.now x.now j at len result }
{
    let key = cells::cell_of(d, definition::WIDTH, j, definition::KEY);
    indexes::find_indexed(
        text,
        e,
        enumerator::WIDTH,
        enumerator::LIST,
        key,
        enumerator::NAME,
        at,
        len,
        x,
    )
}

// The value word of the list of the attribute of row j that a word is, 0 for none; x is the index of the enumerators.
pub fn word_under(
    text: &[u8],
    d: &[usize],
    e: &[usize],
    x: &[usize],
    j: usize,
    at: usize,
    len: usize,
) -> usize
    ensures { WordIndexed text.now d.now e.now x.now j at len result }
{
    let code = cells::cell_of(d, definition::WIDTH, j, definition::CODE);
    if code == word_codes::BOOLEAN {
        return scopes::lookups::truth_under(text, d, j, at, len);
    }
    if code != word_codes::ENUM {
        return 0;
    }
    let Some(i) = find_enumerator(text, d, e, x, j, at, len) else {
        return 0;
    };
    cells::cell_of(e, enumerator::WIDTH, i, enumerator::NAME)
}

// Makes h the ranks of the names of the first rows, as many as h has cells, among the names of the definitions; x is the index of these.
pub fn note_ranks(
    text: &[u8],
    d: &[usize],
    x: &[usize],
    t: &[usize],
    width: usize,
    name: usize,
    h: &mut [usize],
)
    ensures { NotesRanks text.now d.now x.now t.now width name h.new }
{
    let second = cells::place_after(t.len(), name, 1);
    let mut start = 0;
    for rank in h.iter_mut() {
        let p = cells::cell(t, start, name);
        let n = cells::cell(t, start, second);
        *rank = indexes::rank(
            text,
            d,
            definition::WIDTH,
            definition::UNDER,
            definition::NAME,
            p,
            n,
            x,
        );
        start = cells::place_after(t.len(), start, width);
    }
}

// The row after the statement of row k and those in its braces, in a block that ends before row `end`; v is its last cell.
fn next_row(k: usize, v: usize, end: usize) -> usize
    ensures { NextRow k v end result }
{
    if v <= k {
        return end;
    }
    if end < v {
        return end;
    }
    v
}

// The first row of a block, which ends before row `end`, that has a rank; h has the statements' ranks. A row that has none, or that the table
// has not, is not passed.
fn skip(st: &[usize], h: &[usize], from: usize, end: usize, rank: usize) -> usize
    ensures { Skips st.now h.now from end rank result }
{
    let limit = end.min(h.len()).min(st.len() / statement::WIDTH);
    let mut k = from;
    // A `while`: the next row is the one that the statement's last cell names.
    while k < limit {
        if h[k] == rank {
            return k;
        }
        k = next_row(k, st[k * statement::WIDTH + statement::AFTER], end);
    }
    k
}

// Notes row k as the first of its rank g, where none is noted.
fn note_first(first: &mut [usize], end: usize, g: usize, k: usize)
    ensures { first.new ≡ first_noted first.old end g k }
{
    if first.len() <= g {
        return;
    }
    if first[g] == end {
        first[g] = k;
    }
}

// Notes the first row of each rank in a block; all cells of `first` are `end` before. Returns the row after the last one looked at: rows that
// have no rank, or that the table has not, are not looked at.
fn note_firsts(st: &[usize], h: &[usize], first: &mut [usize], from: usize, end: usize) -> usize
    requires { FirstsTo st.now h.now from end from first.old }
    ensures { FirstsTo st.now h.now from end result first.new }
{
    let limit = end.min(h.len()).min(st.len() / statement::WIDTH);
    let mut k = from;
    // A `while`: the next row is the one that the statement's last cell names.
    while k < limit {
        note_first(first, end, h[k], k);
        k = next_row(k, st[k * statement::WIDTH + statement::AFTER], end);
    }
    k
}

// Makes `first` for each of its ranks a row of a block before which no statement has a name of that rank; h has the statements' ranks. All cells are
// `end` before.
pub fn fill_firsts(st: &[usize], h: &[usize], first: &mut [usize], from: usize, end: usize)
    requires { FirstsTo st.now h.now from end from first.old }
    ensures { Firsts st.now h.now from end first.new }
{
    if note_firsts(st, h, first, from, end) == end {
        return;
    }
    first.fill(from);
}

// For each rank below N a row of a block before which no statement has a name of that rank; h has the statements' ranks.
pub fn firsts<const N: usize>(st: &[usize], h: &[usize], from: usize, end: usize) -> [usize; N]
    ensures { Firsts st.now h.now from end result }
{
    let mut first = [end; N];
    fill_firsts(st, h, &mut first, from, end);
    first
}

// Where the search for a name of a rank begins, in a block that begins at row `from`.
fn start(first: &[usize], from: usize, rank: usize) -> usize
    ensures { result ≡ start_of first.now from rank }
{
    if rank < first.len() {
        return first[rank];
    }
    from
}

// Whether a block may have a statement with a name, whose rank is given: no name is read. `first` has the first rows of the ranks.
pub fn may_state(
    st: &[usize],
    h: &[usize],
    first: &[usize],
    from: usize,
    end: usize,
    rank: usize,
) -> bool
    ensures { MayState st.now h.now first.now from end rank result }
{
    if start(first, from, rank) < end {
        return true;
    }
    false
}

// The first statement of a block that has a name, whose rank is given; h has the statements' ranks. Statements of that rank are compared byte
// by byte.
fn stated(
    text: &[u8],
    st: &[usize],
    h: &[usize],
    from: usize,
    end: usize,
    at: usize,
    len: usize,
    rank: usize,
) -> Option<usize>
    ensures { StatedRanked text.now st.now h.now from end at len rank result }
{
    let mut k = skip(st, h, from, end, rank);
    // A `while`: the next row is the next one of the rank.
    while k < end {
        let place = cells::cell_of(st, statement::WIDTH, k, statement::NAME);
        let size = cells::cell_of(st, statement::WIDTH, k, statement::NAME_LENGTH);
        if parts::same_part(text, at, len, place, size) {
            return Some(k);
        }
        k = skip(st, h, blocks::after(st, k, end), end, rank);
    }
    None
}

// The first statement of a block that has the name of row i of a table, found by comparing bytes.
fn searched(
    text: &[u8],
    t: &[usize],
    width: usize,
    name: usize,
    i: usize,
    st: &[usize],
    from: usize,
    end: usize,
) -> Option<usize>
    ensures { FindsStated text.now st.now from end (get_or t.now (i * width + name) 0) (get_or t.now (i * width + (name + 1)) 0) result }
{
    let second = cells::place_after(t.len(), name, 1);
    let start = cells::row_start(t.len(), width, i);
    let at = cells::cell(t, start, name);
    let len = cells::cell(t, start, second);
    blocks::stated(text, st, from, end, at, len)
}

// The same by the ranks: ranks and h have those of the names of the table's rows and of the statements, and `first` the first row of each rank
// in the block; with no cell it tells nothing.
pub fn row_stated(
    text: &[u8],
    t: &[usize],
    width: usize,
    name: usize,
    ranks: &[usize],
    i: usize,
    st: &[usize],
    h: &[usize],
    first: &[usize],
    from: usize,
    end: usize,
) -> Option<usize>
    ensures { RowStated text.now t.now width name ranks.now i st.now h.now first.now from end result }
{
    if ranks.len() <= i {
        return searched(text, t, width, name, i, st, from, end);
    }
    let rank = ranks[i];
    let k = skip(st, h, start(first, from, rank), end, rank);
    if end <= k {
        return None;
    }
    let second = cells::place_after(t.len(), name, 1);
    let start = cells::row_start(t.len(), width, i);
    let at = cells::cell(t, start, name);
    let len = cells::cell(t, start, second);
    stated(text, st, h, k, end, at, len, rank)
}

// Where the search for a name of a rank begins, in a block that ends before row `end`, from row `from` on: this is the row after the statement of row
// `last`, if something is noted in `next` for that.
fn begin(h: &[usize], next: &[usize], last: usize, from: usize, end: usize, rank: usize) -> usize
    ensures { (st : List ℕ) → Begins st h.now next.now last from end rank result }
{
    let row = cells::get(next, last);
    if row == 0 {
        return from;
    }
    if h.len() <= last {
        return from;
    }
    if h[last] != rank {
        return from;
    }
    if h.len() < end {
        return from;
    }
    row.min(end)
}

// The first statement from row `from` on, in a block that ends before row `end`, that has the name of row i of a table: the one noted in `next` as that
// after the statement of row `last`, if something is noted for it.
pub fn stated_after(
    text: &[u8],
    t: &[usize],
    width: usize,
    name: usize,
    ranks: &[usize],
    i: usize,
    st: &[usize],
    h: &[usize],
    next: &[usize],
    last: usize,
    from: usize,
    end: usize,
) -> Option<usize>
    ensures { StatedAfter text.now t.now width name ranks.now i st.now h.now next.now last from end result }
{
    if ranks.len() <= i {
        return searched(text, t, width, name, i, st, from, end);
    }
    let rank = ranks[i];
    let k = skip(st, h, begin(h, next, last, from, end, rank), end, rank);
    if end <= k {
        return None;
    }
    let second = cells::place_after(t.len(), name, 1);
    let start = cells::row_start(t.len(), width, i);
    let at = cells::cell(t, start, name);
    let len = cells::cell(t, start, second);
    stated(text, st, h, k, end, at, len, rank)
}

// Whether a block has a statement with the name of row i of a table; ranks and h have the ranks of the names of its rows and of the
// statements.
pub fn is_row_stated(
    text: &[u8],
    t: &[usize],
    width: usize,
    name: usize,
    ranks: &[usize],
    i: usize,
    st: &[usize],
    h: &[usize],
    first: &[usize],
    from: usize,
    end: usize,
) -> bool
    ensures { IsRowStated text.now t.now width name ranks.now i st.now h.now first.now from end result }
{
    match row_stated(text, t, width, name, ranks, i, st, h, first, from, end) {
        Some(_) => true,
        None => false,
    }
}
