// The walk of the implementation: it reads the definitions of a kind and puts a row for each definition and each enumerator, in the order of
// their names.
#![tactic(auto)]

ghost use Rattle.std.specs.Prelude.{◌≡◌};
ghost use Rattle.grammar.specs.Grammar.{◌▸◌, ∎, P, enumerator, definition, definitions};
ghost use Rattle.filling.specs.Fills.{Walks};
ghost use Rattle.definitions.specs.Rows.{Fill, Rows, EnumeratorRows, one};

use grammar::lookahead::{
    BOOLEAN, COMMA, ENUM, FALSE, FLOAT, LBRACE, LSQUARE, RBRACE, RSQUARE, STRING, TRUE,
};
use grammar::parts::Sort;
use grammar::{Look, lookahead, parts};
use layout::enumerator;

pub mod attributes;

// A look, and how many definitions and enumerators have been counted before it.
#[derive(Clone, Copy)]
pub struct Spot {
    pub look: Look,
    pub definitions: usize,
    pub enumerators: usize,
}

// What definitions stand under: the word, and the first value word of the list that it is a value of (0: it is a kind's).
#[derive(Clone, Copy)]
pub struct Under {
    pub at: usize,
    pub len: usize,
    pub list: usize,
}

// A definition before its name: type word, WITH_AUTO, range, first value word, the length of TRUE, FALSE.
#[derive(Clone, Copy)]
pub struct Head {
    pub word: usize,
    pub length: usize,
    pub code: usize,
    pub auto: usize,
    pub range: usize,
    pub extent: usize,
    pub key: usize,
    pub truth: usize,
    pub falsity: usize,
    pub width: usize,
}

// The look after a part that may be left out, and 1 where it is there.
#[derive(Clone, Copy)]
pub struct Marked {
    pub look: Look,
    pub bit: usize,
}

// The look after a range, with its place and length.
#[derive(Clone, Copy)]
pub struct Ranged {
    pub look: Look,
    pub at: usize,
    pub len: usize,
}

// The look after a default, with its place, length and code.
#[derive(Clone, Copy)]
pub struct Given {
    pub look: Look,
    pub at: usize,
    pub len: usize,
    pub code: usize,
}

// A look, and how many definitions have been counted before it.
#[derive(Clone, Copy)]
pub struct Put {
    pub look: Look,
    pub n: usize,
}

// P: nothing, or `{` definitions `}`.
#[cycle(definition_definitions_enumerator_parameters)]
pub fn parameters(
    text: &[u8],
    d: &mut [usize],
    e: &mut [usize],
    a: Look,
    n: usize,
    m: usize,
    under: Under,
) -> Spot
    ensures { Walks Fill 0 (P ▸ ∎) (λ w x. Rows under w x.0) text.now a result.look ((d.old, n), (e.old, m)) ((d.new, result.definitions), (e.new, result.enumerators)) }
{
    if a.code != LBRACE {
        return Spot {
            look: a,
            definitions: n,
            enumerators: m,
        };
    }
    let b = lookahead::advance(text, a);
    let c = definitions(text, d, e, b, n, m, under);
    let f = lookahead::expect(text, c.look, RBRACE);
    Spot {
        look: f,
        definitions: c.definitions,
        enumerators: c.enumerators,
    }
}

// A name, P and D: a value of the list whose first value word is at `list`.
#[cycle(definition_definitions_enumerator_parameters)]
pub fn enumerator(
    text: &[u8],
    d: &mut [usize],
    e: &mut [usize],
    a: Look,
    n: usize,
    m: usize,
    list: usize,
) -> Spot
    ensures { Walks Fill 1 (enumerator ▸ ∎) (λ w x. EnumeratorRows text.now a list w x.0) text.now a result.look ((d.old, n), (e.old, m)) ((d.new, result.definitions), (e.new, result.enumerators)) }
{
    let len = filling::length(a);
    let cells = [list, a.at, len];
    filling::put_row(e, enumerator::WIDTH, m, &cells);
    let k = filling::next(m);
    let b = lookahead::expect_name(text, a);
    let c = parameters(
        text,
        d,
        e,
        b,
        n,
        k,
        Under {
            at: a.at,
            len,
            list,
        },
    );
    let f = parts::description(text, c.look);
    Spot {
        look: f,
        definitions: c.definitions,
        enumerators: c.enumerators,
    }
}

// An attribute or a reference, whole.
#[cycle(definition_definitions_enumerator_parameters)]
pub fn definition(
    text: &[u8],
    d: &mut [usize],
    e: &mut [usize],
    a: Look,
    n: usize,
    m: usize,
    under: Under,
) -> Spot
    ensures { Walks Fill 1 (definition ▸ ∎) (λ w x. Rows under w (λ i j. one (x.0 i j))) text.now a result.look ((d.old, n), (e.old, m)) ((d.new, result.definitions), (e.new, result.enumerators)) }
{
    let code = a.code;
    if code == BOOLEAN {
        let b = lookahead::advance(text, a);
        let w = attributes::auto(text, b);
        let c = w.look;
        if c.code != LSQUARE {
            let h = attributes::head(a, w.bit, 0, 0);
            let x = attributes::named(text, d, c, n, under, h, Sort::Truth);
            return Spot {
                look: x.look,
                definitions: x.n,
                enumerators: m,
            };
        }
        let f = lookahead::advance(text, c);
        let g = lookahead::expect(text, f, TRUE);
        let truth = filling::length(f);
        let p = parameters(
            text,
            d,
            e,
            g,
            n,
            m,
            Under {
                at: f.at,
                len: truth,
                list: f.at,
            },
        );
        let i = parts::description(text, p.look);
        let j = lookahead::expect(text, i, COMMA);
        let k = lookahead::expect(text, j, FALSE);
        let width = filling::length(j);
        let q = parameters(
            text,
            d,
            e,
            k,
            p.definitions,
            p.enumerators,
            Under {
                at: j.at,
                len: width,
                list: f.at,
            },
        );
        let l = parts::description(text, q.look);
        let o = lookahead::expect(text, l, RSQUARE);
        let extent = filling::through(c.at, l);
        let h = attributes::with_list(a, w.bit, c.at, extent, f.at, truth, j.at, width);
        let x = attributes::named(text, d, o, q.definitions, under, h, Sort::Truth);
        return Spot {
            look: x.look,
            definitions: x.n,
            enumerators: q.enumerators,
        };
    }
    if code == ENUM {
        let b = lookahead::advance(text, a);
        let w = attributes::auto(text, b);
        let c = w.look;
        let f = lookahead::expect(text, c, LSQUARE);
        let key = f.at;
        let mut spot = enumerator(text, d, e, f, n, m, key);
        // A `while`: the look says whether another value comes, so no range counts it.
        while spot.look.code == COMMA {
            let k = lookahead::advance(text, spot.look);
            spot = enumerator(text, d, e, k, spot.definitions, spot.enumerators, key);
        }
        let o = lookahead::expect(text, spot.look, RSQUARE);
        let extent = filling::through(c.at, spot.look);
        let h = attributes::with_list(a, w.bit, c.at, extent, key, 0, 0, 0);
        let x = attributes::named(text, d, o, spot.definitions, under, h, Sort::Enumerator);
        return Spot {
            look: x.look,
            definitions: x.n,
            enumerators: spot.enumerators,
        };
    }
    if code == STRING {
        let b = lookahead::advance(text, a);
        let x = attributes::string(text, d, a, b, n, under);
        return Spot {
            look: x.look,
            definitions: x.n,
            enumerators: m,
        };
    }
    if lookahead::is_integer(code) {
        let b = lookahead::advance(text, a);
        let x = attributes::integer(text, d, a, b, n, under);
        return Spot {
            look: x.look,
            definitions: x.n,
            enumerators: m,
        };
    }
    if lookahead::is_type(code) {
        let b = lookahead::advance(text, a);
        let x = attributes::reference(text, d, a, b, n, under);
        return Spot {
            look: x.look,
            definitions: x.n,
            enumerators: m,
        };
    }
    if code == FLOAT {
        let b = lookahead::advance(text, a);
        let x = attributes::float(text, d, a, b, n, under);
        return Spot {
            look: x.look,
            definitions: x.n,
            enumerators: m,
        };
    }
    let b = lookahead::refuse(a);
    Spot {
        look: b,
        definitions: n,
        enumerators: m,
    }
}

#[cycle(definition_definitions_enumerator_parameters)]
pub fn definitions(
    text: &[u8],
    d: &mut [usize],
    e: &mut [usize],
    from: Look,
    n: usize,
    m: usize,
    under: Under,
) -> Spot
    ensures { Walks Fill 0 (definitions ▸ ∎) (λ w x. Rows under w x.0) text.now from result.look ((d.old, n), (e.old, m)) ((d.new, result.definitions), (e.new, result.enumerators)) }
{
    let mut spot = Spot {
        look: from,
        definitions: n,
        enumerators: m,
    };
    // A `while`: the look says whether another definition comes, so no range counts it.
    while lookahead::is_definition(spot.look.code) {
        spot = definition(
            text,
            d,
            e,
            spot.look,
            spot.definitions,
            spot.enumerators,
            under,
        );
    }
    spot
}
