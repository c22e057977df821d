// Which attributes need to be stated: a mark for each row of definitions, and what a block lacks by the marks.
ghost use Rattle.std.specs.Prelude.{◌≡◌, ◌+◌, ◌*◌, eqb, get_or};
ghost use Rattle.token.specs.Find.{bit};
ghost use Rattle.rows.specs.Search.{find_row};
ghost use Rattle.lookups.specs.Ranks.{Firsts};
ghost use Rattle.lookups.specs.Names.{IndexAt, Ranks, statement_ranks};
ghost use Rattle.judging.specs.Promises.{LacksRow, Lacks, Needs, Marks};

use layout::{definition, word_codes};
use lookups::names;
use rows::{cells, finding};
use scopes::Sizes;

// Whether the attribute of row i, which stands under the word at key, is marked, and the block does not state it; `first` has the first row of
// each rank in the block.
fn lacks_row(
    text: &[u8],
    d: &[usize],
    st: &[usize],
    names: &[usize],
    missing: &[usize],
    first: &[usize],
    i: usize,
    from: usize,
    end: usize,
) -> bool
    requires { Ranks text.now d.now st.now names.now × Firsts st.now (statement_ranks names.now) from end first.now }
    ensures { LacksRow text.now d.now st.now missing.now i from end result }
{
    if cells::get(missing, i) == 0 {
        return false;
    }
    !names::is_stated(text, d, st, names, first, i, from, end)
}

// The first row from i on, among the first n, that stands under the word at key: `find_row`, without its tests where all rows lie inside.
fn find_under(d: &[usize], n: usize, key: usize, i: usize) -> Option<usize>
    ensures { result ≡ find_row d.now 19 n 0 key i }
{
    if definition::MOST < n {
        return finding::find_row(d, definition::WIDTH, n, definition::UNDER, key, i);
    }
    if d.len() < definition::MOST_CELLS {
        return finding::find_row(d, definition::WIDTH, n, definition::UNDER, key, i);
    }
    if n <= i {
        return None;
    }
    let mut p = i * definition::WIDTH;
    for k in i..n {
        if d[p] == key {
            return Some(k);
        }
        p += definition::WIDTH;
    }
    None
}

// Whether a block lacks one of the attributes under the word at key, among the first n rows.
pub fn lacks(
    text: &[u8],
    d: &[usize],
    st: &[usize],
    names: &[usize],
    first: &[usize],
    missing: &[usize],
    n: usize,
    key: usize,
    from: usize,
    end: usize,
) -> bool
    requires { Ranks text.now d.now st.now names.now × Firsts st.now (statement_ranks names.now) from end first.now }
    ensures { Lacks text.now d.now st.now missing.now n key from end result }
{
    let mut i = 0;
    // A `while`: the search goes on behind the row that was found.
    while i < n {
        let Some(j) = find_under(d, n, key, i) else {
            return false;
        };
        if lacks_row(text, d, st, names, missing, first, j, from, end) {
            return true;
        }
        i = j + 1;
    }
    false
}

// 1 where the attribute of row j is single, 0 for a list.
fn single(d: &[usize], j: usize) -> usize
    ensures { result ≡ bit (eqb (get_or d.now (j * 19 + 6) 0) 0) }
{
    if cells::cell_of(d, definition::WIDTH, j, definition::LIST) == 0 {
        return 1;
    }
    0
}

// 1 where the attribute of row j needs to be stated, by its default and the marks of the rows before it.
fn needs(
    text: &[u8],
    d: &[usize],
    e: &[usize],
    st: &[usize],
    names: &[usize],
    missing: &[usize],
    z: Sizes,
    j: usize,
) -> usize
    requires { IndexAt text.now e.now 3 1 z.enumerators 512 names.now × Ranks text.now d.now st.now names.now }
    ensures { Needs text.now d.now e.now st.now missing.now z j result }
{
    let len = cells::cell_of(d, definition::WIDTH, j, definition::DEFAULT_LENGTH);
    if len == 0 {
        return single(d, j);
    }
    let code = cells::cell_of(d, definition::WIDTH, j, definition::DEFAULT_CODE);
    if code == word_codes::NO_DEFAULT {
        return single(d, j);
    }
    let at = cells::cell_of(d, definition::WIDTH, j, definition::DEFAULT);
    let key = names::word_under(text, d, e, names, z.enumerators, j, at, len);
    if key == 0 {
        return 0;
    }
    if lacks(text, d, st, names, &names[..0], missing, j, key, 0, 0) {
        return 1;
    }
    0
}

// The marks of all rows.
pub fn marks(
    text: &[u8],
    d: &[usize],
    e: &[usize],
    st: &[usize],
    names: &[usize],
    z: Sizes,
) -> [usize; definition::MOST]
    requires { IndexAt text.now e.now 3 1 z.enumerators 512 names.now × Ranks text.now d.now st.now names.now }
    ensures { Marks text.now d.now e.now st.now z result }
{
    let mut missing = [0; definition::MOST];
    for j in 0..z.definitions {
        if definition::MOST <= j {
            return missing;
        }
        let m = needs(text, d, e, st, names, &missing, z, j);
        missing[j] = m;
    }
    missing
}
