// The faults 14, 15 and 18 of one statement.
ghost use Rattle.std.specs.Prelude.{◌≡◌, ◌+◌, ◌*◌, get_or};
ghost use Rattle.lookups.specs.Ranks.{Firsts};
ghost use Rattle.amounts.specs.Known.{Known};
ghost use Rattle.scopes.specs.Promises.{FindsWord};
ghost use Rattle.lookups.specs.Names.{IndexAt, Ranks, Named, statement_ranks};
ghost use Rattle.judging.specs.Promises.{name_code, ReferenceFault, ValueFault, Again, OwnFault};

use amounts::asking::takes;
use layout::{definition, statement, word_codes};
use lookups::names;
use rows::{Fault, cells, faults, refusals};
use scopes::Sizes;

// Whether a word with this code is a name.
fn is_name(code: usize) -> bool
    ensures { result ≡ name_code code }
{
    if code == word_codes::NUMERAL {
        return false;
    }
    if code == word_codes::QUOTED {
        return false;
    }
    if code == 0 {
        return true;
    }
    if code == word_codes::FLOATING {
        return false;
    }
    word_codes::WITH_AUTO <= code
}

// 15 and 18 at the value of a reference to a kind.
fn reference_fault(
    text: &[u8],
    o: &[usize],
    names: &[usize],
    objects: usize,
    kind: usize,
    at: usize,
    len: usize,
    code: usize,
) -> Option<Fault>
    requires { IndexAt text.now o.now 10 3 objects 1536 names.now }
    ensures { ReferenceFault text.now o.now objects kind at len code result }
{
    if !is_name(code) {
        return Some(Fault {
            number: refusals::WRONG_VALUE,
            place: at,
        });
    }
    let Some(_) = names::find_object(text, o, names, objects, kind, at, len) else {
        return Some(Fault {
            number: refusals::NO_OBJECT,
            place: at,
        });
    };
    None
}

// 15 and 18 of the statement of row k, whose attribute has the row j.
pub fn value_fault(
    text: &[u8],
    d: &[usize],
    e: &[usize],
    o: &[usize],
    st: &[usize],
    names: &[usize],
    known: &[usize],
    z: Sizes,
    k: usize,
    j: usize,
    under: usize,
) -> Option<Fault>
    requires { Known text.now d.now known.now × Named text.now d.now e.now o.now st.now z names.now × FindsWord text.now d.now e.now z.enumerators j (get_or st.now (k * 7 + 2) 0) (get_or st.now (k * 7 + 3) 0) under }
    ensures { ValueFault text.now d.now e.now o.now st.now z k j result }
{
    let at = cells::cell_of(st, statement::WIDTH, k, statement::VALUE);
    let len = cells::cell_of(st, statement::WIDTH, k, statement::VALUE_LENGTH);
    let code = cells::cell_of(st, statement::WIDTH, k, statement::CODE);
    let kind = cells::cell_of(d, definition::WIDTH, j, definition::CODE);
    if kind < word_codes::FIRST_TYPE {
        return Some(Fault {
            number: refusals::WRONG_VALUE,
            place: at,
        });
    }
    if kind < word_codes::UINT32 {
        let a = reference_fault(
            text,
            o,
            names,
            z.objects,
            kind - word_codes::FIRST_TYPE,
            at,
            len,
            code,
        );
        let brace = cells::cell_of(st, statement::WIDTH, k, statement::BRACE);
        let b = faults::fault_if(brace != 0, refusals::WRONG_VALUE, brace);
        return faults::sooner(a, b);
    }
    faults::fault_if(
        !takes(text, d, known, j, at, code, under),
        refusals::WRONG_VALUE,
        at,
    )
}

// Whether the attribute of row j is single and stated before the statement of row k, in the block from `from` to `end`; here and below `first`
// has the first row of each rank in the block.
pub fn again(
    text: &[u8],
    d: &[usize],
    e: &[usize],
    o: &[usize],
    st: &[usize],
    names: &[usize],
    first: &[usize],
    z: Sizes,
    from: usize,
    k: usize,
    end: usize,
    j: usize,
) -> bool
    requires { Ranks text.now d.now st.now names.now × Firsts st.now (statement_ranks names.now) from end first.now }
    ensures { Again text.now d.now e.now o.now st.now z from k end j result }
{
    if cells::cell_of(d, definition::WIDTH, j, definition::LIST) != 0 {
        return false;
    }
    names::is_before(text, d, st, names, first, from, k, end)
}

// 14, 15 and 18 of the statement of row k.
pub fn own_fault(
    text: &[u8],
    d: &[usize],
    e: &[usize],
    o: &[usize],
    st: &[usize],
    names: &[usize],
    first: &[usize],
    known: &[usize],
    z: Sizes,
    from: usize,
    k: usize,
    end: usize,
    j: usize,
    under: usize,
) -> Option<Fault>
    requires { Known text.now d.now known.now × Named text.now d.now e.now o.now st.now z names.now × Firsts st.now (statement_ranks names.now) from end first.now × FindsWord text.now d.now e.now z.enumerators j (get_or st.now (k * 7 + 2) 0) (get_or st.now (k * 7 + 3) 0) under }
    ensures { OwnFault text.now d.now e.now o.now st.now z from k end j result }
{
    let name = cells::cell_of(st, statement::WIDTH, k, statement::NAME);
    let a = faults::fault_if(
        again(text, d, e, o, st, names, first, z, from, k, end, j),
        refusals::STATED_AGAIN,
        name,
    );
    let b = value_fault(text, d, e, o, st, names, known, z, k, j, under);
    faults::sooner(a, b)
}
