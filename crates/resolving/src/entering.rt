// Resolved values, each followed by what is under it. Each function returns the number of the row after those that it puts.
ghost use Rattle.std.specs.Prelude.{◌≤◌, ◌<◌};
ghost use Rattle.lookups.specs.Names.{Names};
ghost use Rattle.lookups.specs.Ranks.{Firsts};
ghost use Rattle.resolving.specs.Noted.{InNotes, Lent};
ghost use Rattle.resolving.specs.Promises.{Enters, EntersStated, ResolvesStated, ResolvesDefault, ResolvesUnder, Resolves, ResolvesAll};

use super::{Notes, Owner, Tables, scanning, values, words};
use amounts::defaults;
use layout::{definition, enumerator, object, statement, value, word_codes};
use lookups::names;
use rows::{cells, counts};
use scopes::Sizes;

// The value of the word at a place, of the attribute of row j, and what is under it; the statements in its braces are the rows from one up to
// another.
#[cycle(enter_enter_stated_resolve_resolve_default_resolve_row_resolve_scope_resolve_stated)]
fn enter(
    t: Notes,
    v: &mut [usize],
    j: usize,
    stated: usize,
    at: usize,
    len: usize,
    code: usize,
    from: usize,
    end: usize,
    w: Owner,
    n: usize,
) -> usize
    requires { InNotes t }
    ensures { let x = t.entry.tables in Enters x.text.now x.definitions.now x.enumerators.now x.objects.now x.statements.now v.old x.sizes j stated at len code from end w n v.new result }
{
    if value::MOST < n {
        return n;
    }
    values::put_value(t, v, n, w, j, stated, at, len, code);
    let key = words::word_of(t, j, at, len);
    resolve(t, v, j, key, from, end, Owner::Value(n), n + 1)
}

// The value of the statement of row k, which has the name of the attribute of row j; the statements in its braces are the rows from `inner` up
// to `next`.
#[cycle(enter_enter_stated_resolve_resolve_default_resolve_row_resolve_scope_resolve_stated)]
fn enter_stated(
    t: Notes,
    v: &mut [usize],
    j: usize,
    k: usize,
    inner: usize,
    next: usize,
    w: Owner,
    n: usize,
) -> usize
    requires { InNotes t }
    ensures { let x = t.entry.tables in EntersStated x.text.now x.definitions.now x.enumerators.now x.objects.now x.statements.now v.old x.sizes j k inner next w n v.new result }
{
    let at = cells::cell_of(t.tables.statements, statement::WIDTH, k, statement::VALUE);
    let len = cells::cell_of(
        t.tables.statements,
        statement::WIDTH,
        k,
        statement::VALUE_LENGTH,
    );
    let code = cells::cell_of(t.tables.statements, statement::WIDTH, k, statement::CODE);
    enter(t, v, j, 1, at, len, code, inner, next, w, n)
}

// The values that a block states of the attribute of row j, in the order of the text.
#[cycle(enter_enter_stated_resolve_resolve_default_resolve_row_resolve_scope_resolve_stated)]
fn resolve_stated(
    t: Notes,
    v: &mut [usize],
    j: usize,
    from: usize,
    end: usize,
    w: Owner,
    n: usize,
) -> usize
    requires { InNotes t }
    ensures { let x = t.entry.tables in ResolvesStated x.text.now x.definitions.now x.enumerators.now x.objects.now x.statements.now v.old x.sizes j from end w n v.new result }
{
    let mut m = n;
    let mut last = t.next_rows.len();
    let mut k = from;
    // A `while`: the next row to look at is the one after those in the braces of the statement found.
    while k < end {
        let Some(i) = lookups::stated_after(
            t.tables.text,
            t.tables.definitions,
            definition::WIDTH,
            definition::NAME,
            t.definition_ranks,
            j,
            t.tables.statements,
            t.statement_ranks,
            t.next_rows,
            last,
            k,
            end,
        ) else {
            return m;
        };
        if i < k {
            return m;
        }
        if end <= i {
            return m;
        }
        let next = blocks::after(t.tables.statements, i, end);
        m = enter_stated(t, v, j, i, i + 1, next, w, m);
        last = i;
        k = next;
    }
    m
}

// The value that the attribute of row j takes where it is not stated, if there is one.
#[cycle(enter_enter_stated_resolve_resolve_default_resolve_row_resolve_scope_resolve_stated)]
fn resolve_default(t: Notes, v: &mut [usize], j: usize, w: Owner, n: usize) -> usize
    requires { InNotes t }
    ensures { let x = t.entry.tables in ResolvesDefault x.text.now x.definitions.now x.enumerators.now x.objects.now x.statements.now v.old x.sizes j w n v.new result }
{
    let len = cells::cell_of(
        t.tables.definitions,
        definition::WIDTH,
        j,
        definition::DEFAULT_LENGTH,
    );
    if len == 0 {
        return n;
    }
    let code = cells::cell_of(
        t.tables.definitions,
        definition::WIDTH,
        j,
        definition::DEFAULT_CODE,
    );
    if code == word_codes::NO_DEFAULT {
        return n;
    }
    let at = cells::cell_of(
        t.tables.definitions,
        definition::WIDTH,
        j,
        definition::DEFAULT,
    );
    enter(t, v, j, 0, at, len, code, 0, 0, w, n)
}

// The values of the attribute of row j, which stands under the word at key; `first` has the first row of each rank in the block.
#[cycle(enter_enter_stated_resolve_resolve_default_resolve_row_resolve_scope_resolve_stated)]
fn resolve_row(
    t: Notes,
    first: &[usize],
    v: &mut [usize],
    j: usize,
    key: usize,
    from: usize,
    end: usize,
    w: Owner,
    n: usize,
) -> usize
    requires { InNotes t × Firsts t.tables.statements.now t.statement_ranks.now from end first.now }
    ensures { let x = t.entry.tables in ResolvesUnder x.text.now x.definitions.now x.enumerators.now x.objects.now x.statements.now v.old x.sizes j key from end w n v.new result }
{
    let Some(k) = lookups::row_stated(
        t.tables.text,
        t.tables.definitions,
        definition::WIDTH,
        definition::NAME,
        t.definition_ranks,
        j,
        t.tables.statements,
        t.statement_ranks,
        first,
        from,
        end,
    ) else {
        return resolve_default(t, v, j, w, n);
    };
    resolve_stated(t, v, j, k, end, w, n)
}

// The values of the scope of the word at key, in the order of its definitions, whose rows are below a limit; `first` has the first row of each rank in
// the block.
#[cycle(enter_enter_stated_resolve_resolve_default_resolve_row_resolve_scope_resolve_stated)]
fn resolve_scope(
    t: Notes,
    first: &[usize],
    v: &mut [usize],
    limit: usize,
    key: usize,
    from: usize,
    end: usize,
    w: Owner,
    n: usize,
) -> usize
    requires { (0 < key) × ((limit ≤ 512) × (InNotes t × Firsts t.tables.statements.now t.statement_ranks.now from end first.now)) }
    ensures { let x = t.entry.tables in Resolves x.text.now x.definitions.now x.enumerators.now x.objects.now x.statements.now v.old x.sizes limit key from end w n v.new result }
{
    let mut m = n;
    let mut j = scanning::next_row(t, first, limit, key, from, end, 0);
    // A `while`: `next_row` passes the rows that give no value.
    while j < limit {
        m = resolve_row(t, first, v, j, key, from, end, w, m);
        j = scanning::next_row(t, first, limit, key, from, end, j + 1);
    }
    m
}

// The same; the place 0 has no scope.
#[cycle(enter_enter_stated_resolve_resolve_default_resolve_row_resolve_scope_resolve_stated)]
pub fn resolve(
    t: Notes,
    v: &mut [usize],
    limit: usize,
    key: usize,
    from: usize,
    end: usize,
    w: Owner,
    n: usize,
) -> usize
    requires { InNotes t }
    ensures { let x = t.entry.tables in Resolves x.text.now x.definitions.now x.enumerators.now x.objects.now x.statements.now v.old x.sizes limit key from end w n v.new result }
{
    if key == 0 {
        return n;
    }
    if definition::MOST < limit {
        return n;
    }
    if value::MOST < n {
        return n;
    }
    if scanning::is_quiet(t.owners, key, from, end) {
        return n;
    }
    if end <= from {
        return resolve_scope(t, &t.statement_ranks[..0], v, limit, key, from, end, w, n);
    }
    if t.tables.sizes.definitions < lookups::FEW {
        let mut few = [end; lookups::FEW];
        lookups::fill_firsts(t.tables.statements, t.statement_ranks, &mut few, from, end);
        return resolve_scope(t, &few, v, limit, key, from, end, w, n);
    }
    let mut first = [end; definition::ROWS];
    lookups::fill_firsts(
        t.tables.statements,
        t.statement_ranks,
        &mut first,
        from,
        end,
    );
    resolve_scope(t, &first, v, limit, key, from, end, w, n)
}

// The values of all objects, object by object; returns how many there are, or 2049 where there are more than 2048.
fn resolve_objects(t: Notes, v: &mut [usize], places: [usize; counts::KINDS]) -> usize
    requires { InNotes t }
    ensures { let x = t.entry.tables in ResolvesAll x.text.now x.definitions.now x.enumerators.now x.objects.now x.statements.now v.old x.sizes places v.new result }
{
    let mut n = 0;
    for i in 0..t.tables.sizes.objects {
        let kind = cells::cell_of(t.tables.objects, object::WIDTH, i, object::KIND);
        if counts::KINDS <= kind {
            return n;
        }
        let key = places[kind];
        let from = cells::cell_of(t.tables.objects, object::WIDTH, i, object::FIRST);
        let end = cells::cell_of(t.tables.objects, object::WIDTH, i, object::END);
        n = resolve(
            t,
            v,
            t.tables.sizes.definitions,
            key,
            from,
            end,
            Owner::Object(i),
            n,
        );
    }
    n
}

// The same; the enumerators that defaults are are looked up before.
fn resolve_noted(
    text: &[u8],
    d: &[usize],
    e: &[usize],
    o: &[usize],
    st: &[usize],
    names: &[usize],
    known: &[usize],
    noted: &mut [usize],
    owners: &[usize],
    v: &mut [usize],
    z: Sizes,
    places: [usize; counts::KINDS],
) -> usize
    requires { Lent text.now d.now e.now o.now st.now z names.now known.now owners.now }
    ensures { ResolvesAll text.now d.now e.now o.now st.now v.old z places v.new result }
{
    let enumerator_index = names::enumerators(names, z.enumerators);
    words::note_words(text, d, e, enumerator_index, noted);
    let t = Notes {
        tables: Tables {
            text,
            definitions: d,
            enumerators: e,
            objects: o,
            statements: st,
            sizes: z,
        },
        known,
        words: noted,
        enumerator_index,
        object_index: names::objects(names, z.objects),
        statement_ranks: names::statement_ranks(names),
        next_rows: names::next_rows(names),
        definition_ranks: names::definition_ranks(names),
        owners,
    };
    resolve_objects(t, v, places)
}

// The same; the defaults that are numbers are read once before.
pub fn resolve_all(
    text: &[u8],
    d: &[usize],
    e: &[usize],
    o: &[usize],
    st: &[usize],
    names: &[usize],
    v: &mut [usize],
    z: Sizes,
    places: [usize; counts::KINDS],
) -> usize
    requires { Names text.now d.now e.now o.now st.now z names.now }
    ensures { ResolvesAll text.now d.now e.now o.now st.now v.old z places v.new result }
{
    if d.len() != definition::KEPT {
        return 0;
    }
    if definition::MOST < z.definitions {
        return 0;
    }
    if enumerator::MOST < z.enumerators {
        return 0;
    }
    if object::MOST < z.objects {
        return 0;
    }
    let mut known = [0; defaults::CELLS];
    amounts::defaults::note_defaults(text, d, z.definitions, &mut known);
    let mut noted = [0; definition::MOST];
    let owners = scanning::default_owners(d);
    resolve_noted(
        text,
        d,
        e,
        o,
        st,
        names,
        &known,
        &mut noted[..z.definitions],
        &owners,
        v,
        z,
        places,
    )
}
