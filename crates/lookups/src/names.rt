// The names of all rows in one table, 6916 cells, made once in a reading: the index of the definitions, from 0 on, that of the enumerators, from 512, that
// of the objects, from 1536, the ranks of the statements' names, from 1792, those of the definitions' names, from 3841, and, put there when the rows are
// marked, the words under which something must be stated, from 4353. Cells 4865 and 4866 say how many ranks there are of each.
// From 4867 on stands for each statement the next one of its rank.
ghost use Rattle.std.specs.Prelude.{◌≡◌, ◌+◌, ◌*◌, ◌≤◌, length, get_or};
ghost use Rattle.rows.specs.Table.{part};
ghost use Rattle.blocks.specs.Blocks.{IsStated, IsBefore};
ghost use Rattle.sorting.specs.Sorted.{Tells};
ghost use Rattle.lookups.specs.Ranks.{Firsts, FirstsTo};
ghost use Rattle.scopes.specs.Promises.{FindsDefinition, FindsObject, FindsWord};
ghost use Rattle.lookups.specs.Names.{IndexAt, Ranks, PutsIndex, PutsRanks, FewRows, Named, Names, Rooms, statement_ranks, definition_ranks, owner_words, next_rows, PutsLinks};

use super::links;
use layout::{definition, enumerator, object, statement};
use rows::cells;
use scopes::Sizes;

// Where the index of the enumerators begins, after that of the definitions; that of the objects; the ranks of the statements' names and of the
// definitions' names; the owners; how many ranks there are of each; and the next statements of a rank.
pub const ENUMERATORS: usize = definition::MOST;

pub const OBJECTS: usize = ENUMERATORS + enumerator::MOST;

pub const STATEMENT_RANKS: usize = OBJECTS + object::MOST;

pub const DEFINITION_RANKS: usize = STATEMENT_RANKS + statement::ROWS;

pub const OWNERS: usize = DEFINITION_RANKS + definition::MOST;

pub const STATEMENT_COUNT: usize = OWNERS + definition::MOST;

pub const DEFINITION_COUNT: usize = STATEMENT_COUNT + 1;

pub const NEXT_ROWS: usize = DEFINITION_COUNT + 1;

pub const CELLS: usize = NEXT_ROWS + statement::ROWS;

// The cells from a place on, so many.
fn cells_from(t: &[usize], at: usize, n: usize) -> &[usize]
    ensures { result.now ≡ part t.now at n }
{
    if t.len() <= at {
        &t[..0]
    } else if t.len() - at <= n {
        &t[at..]
    } else {
        &t[at..at + n]
    }
}

// The index of the first n enumerators.
pub fn enumerators(names: &[usize], n: usize) -> &[usize]
    ensures { result.now ≡ part names.now 512 n }
{
    cells_from(names, ENUMERATORS, n)
}

// The index of the first n objects.
pub fn objects(names: &[usize], n: usize) -> &[usize]
    ensures { result.now ≡ part names.now 1536 n }
{
    cells_from(names, OBJECTS, n)
}

// The ranks of the statements' names.
pub fn statement_ranks(names: &[usize]) -> &[usize]
    ensures { result.now ≡ statement_ranks names.now }
{
    let n = cells::get(names, STATEMENT_COUNT);
    cells_from(names, STATEMENT_RANKS, n)
}

// The ranks of the definitions' names.
pub fn definition_ranks(names: &[usize]) -> &[usize]
    ensures { result.now ≡ definition_ranks names.now }
{
    let n = cells::get(names, DEFINITION_COUNT);
    cells_from(names, DEFINITION_RANKS, n)
}

// For each statement the next one of its rank.
pub fn next_rows(names: &[usize]) -> &[usize]
    ensures { result.now ≡ next_rows names.now }
{
    let n = cells::get(names, STATEMENT_COUNT);
    cells_from(names, NEXT_ROWS, n)
}

// The definition that a name has in the scope of the word at key.
pub fn find_definition(
    text: &[u8],
    d: &[usize],
    names: &[usize],
    definitions: usize,
    key: usize,
    at: usize,
    len: usize,
) -> Option<usize>
    requires { IndexAt text.now d.now 19 2 definitions 0 names.now }
    ensures { FindsDefinition text.now d.now definitions key at len result }
{
    super::find_definition(text, d, cells_from(names, 0, definitions), key, at, len)
}

// The object of a kind that has a name.
pub fn find_object(
    text: &[u8],
    o: &[usize],
    names: &[usize],
    objects: usize,
    kind: usize,
    at: usize,
    len: usize,
) -> Option<usize>
    requires { IndexAt text.now o.now 10 3 objects 1536 names.now }
    ensures { FindsObject text.now o.now objects kind at len result }
{
    super::find_object(text, o, cells_from(names, OBJECTS, objects), kind, at, len)
}

// The value word of the list of the attribute of row j that a word is; 0 for none.
pub fn word_under(
    text: &[u8],
    d: &[usize],
    e: &[usize],
    names: &[usize],
    enumerators: usize,
    j: usize,
    at: usize,
    len: usize,
) -> usize
    requires { IndexAt text.now e.now 3 1 enumerators 512 names.now }
    ensures { FindsWord text.now d.now e.now enumerators j at len result }
{
    super::word_under(
        text,
        d,
        e,
        cells_from(names, ENUMERATORS, enumerators),
        j,
        at,
        len,
    )
}

// Makes `first` the first row of each of its ranks in a block; all cells are `end` before.
pub fn fill_firsts(st: &[usize], names: &[usize], first: &mut [usize], from: usize, end: usize)
    requires { FirstsTo st.now (statement_ranks names.now) from end from first.old }
    ensures { Firsts st.now (statement_ranks names.now) from end first.new }
{
    super::fill_firsts(st, statement_ranks(names), first, from, end);
}

// The first row of each rank below N in a block.
pub fn firsts<const N: usize>(st: &[usize], names: &[usize], from: usize, end: usize) -> [usize; N]
    ensures { Firsts st.now (statement_ranks names.now) from end result }
{
    super::firsts(st, statement_ranks(names), from, end)
}

// Whether a block states the attribute of row i; `first` has the first row of each rank in the block.
pub fn is_stated(
    text: &[u8],
    d: &[usize],
    st: &[usize],
    names: &[usize],
    first: &[usize],
    i: usize,
    from: usize,
    end: usize,
) -> bool
    requires { Ranks text.now d.now st.now names.now × Firsts st.now (statement_ranks names.now) from end first.now }
    ensures { IsStated text.now st.now from end (get_or d.now (i * 19 + 2) 0) (get_or d.now (i * 19 + 3) 0) result }
{
    let ranks = definition_ranks(names);
    super::is_row_stated(
        text,
        d,
        definition::WIDTH,
        definition::NAME,
        ranks,
        i,
        st,
        statement_ranks(names),
        first,
        from,
        end,
    )
}

// Whether a block has the name of the statement of row k before that row; `first` has the first row of each rank in the block.
pub fn is_before(
    text: &[u8],
    d: &[usize],
    st: &[usize],
    names: &[usize],
    first: &[usize],
    from: usize,
    k: usize,
    end: usize,
) -> bool
    requires { Ranks text.now d.now st.now names.now × Firsts st.now (statement_ranks names.now) from end first.now }
    ensures { IsBefore text.now st.now from k end result }
{
    let ranks = statement_ranks(names);
    match super::row_stated(
        text,
        st,
        statement::WIDTH,
        statement::NAME,
        ranks,
        k,
        st,
        ranks,
        first,
        from,
        end,
    ) {
        Some(i) => i != k,
        None => false,
    }
}

// Whether something that must be stated stands under the word at key.
pub fn is_owner(names: &[usize], key: usize) -> bool
    ensures { Tells (owner_words names.now) key result }
{
    sorting::has(cells_from(names, OWNERS, definition::MOST), key)
}

// Puts the index of the first n rows at a place; `spare` is room for half of them.
fn put_index(
    text: &[u8],
    t: &[usize],
    width: usize,
    name: usize,
    n: usize,
    at: usize,
    names: &mut [usize],
    spare: &mut [usize],
)
    requires { at + n ≤ length names.old }
    ensures { PutsIndex text.now t.now width name n at (length spare.old) names.old names.new }
{
    indexes::index(text, t, width, 0, name, &mut names[at..at + n], spare);
}

// Puts the ranks of the names of the first n rows of t at a place; x is the index of the definitions.
fn put_ranks(
    text: &[u8],
    d: &[usize],
    x: &[usize],
    t: &[usize],
    width: usize,
    name: usize,
    n: usize,
    at: usize,
    names: &mut [usize],
)
    requires { at + n ≤ length names.old }
    ensures { PutsRanks text.now d.now x.now t.now width name n at names.old names.new }
{
    super::note_ranks(text, d, x, t, width, name, &mut names[at..at + n]);
}

// Puts for each statement the next one of its rank; h has the ranks.
fn put_links(st: &[usize], h: &[usize], names: &mut [usize])
    requires { 4867 + length h.now ≤ length names.old }
    ensures { PutsLinks st.now h.now names.old names.new }
{
    links::note_next(st, h, &mut names[NEXT_ROWS..NEXT_ROWS + h.len()]);
}

// Makes the table; v is room for the index of the definitions, h for the ranks of the statements' names, and `spare` for sorting.
fn put_names(
    text: &[u8],
    d: &[usize],
    e: &[usize],
    o: &[usize],
    st: &[usize],
    z: Sizes,
    v: &mut [usize],
    h: &mut [usize],
    spare: &mut [usize],
    names: &mut [usize],
)
    requires { Rooms z v.old h.old spare.old names.old }
    ensures { Named text.now d.now e.now o.now st.now z names.new }
{
    indexes::index(
        text,
        d,
        definition::WIDTH,
        definition::UNDER,
        definition::NAME,
        v,
        spare,
    );
    cells::put_cells(names, 0, v);
    put_index(
        text,
        e,
        enumerator::WIDTH,
        enumerator::NAME,
        z.enumerators,
        ENUMERATORS,
        names,
        spare,
    );
    put_index(
        text,
        o,
        object::WIDTH,
        object::NAME,
        z.objects,
        OBJECTS,
        names,
        spare,
    );
    super::note_ranks(text, d, v, st, statement::WIDTH, statement::NAME, h);
    cells::put_cells(names, STATEMENT_RANKS, h);
    put_ranks(
        text,
        d,
        v,
        d,
        definition::WIDTH,
        definition::NAME,
        z.definitions,
        DEFINITION_RANKS,
        names,
    );
    let counts = [h.len(), z.definitions];
    cells::put_cells(names, STATEMENT_COUNT, &counts);
    put_links(st, h, names);
}

// Makes the table of the names of a text with so many statements.
pub fn note(
    text: &[u8],
    d: &[usize],
    e: &[usize],
    o: &[usize],
    st: &[usize],
    z: Sizes,
    statements: usize,
    names: &mut [usize],
)
    requires { length names.old ≡ 6916 }
    ensures { Names text.now d.now e.now o.now st.now z names.new }
{
    if definition::MOST < z.definitions {
        return;
    }
    if enumerator::MOST < z.enumerators {
        return;
    }
    if object::MOST < z.objects {
        return;
    }
    let mut v = [0; definition::MOST];
    let mut h = [0; statement::ROWS];
    let mut spare = [0; enumerator::MOST / 2];
    let n = cells::least_of(statements, statement::ROWS);
    put_names(
        text,
        d,
        e,
        o,
        st,
        z,
        &mut v[..z.definitions],
        &mut h[..n],
        &mut spare,
        names,
    );
}
