// The walk of the implementation: its specs, with the place of each kind's word.
#![tactic(auto)]

ghost use Rattle.std.specs.Prelude.{◌≡◌, get_or, set, replicate};
ghost use Rattle.grammar.specs.Grammar.{◌▸◌, ∎, spec, specs, implementation};
ghost use Rattle.filling.specs.Fills.{Walks};
ghost use Rattle.definitions.specs.Rows.{Fill};
ghost use Rattle.implementation.specs.Places.{placed, again_after, SpecRows, AllRows, FillAll, ImplementationRows};

use definitions::{Spot, Under};
use grammar::lookahead::{IMPLEMENTATION, LBRACE, RBRACE, SEMICOLON};
use grammar::{Look, lookahead, parts};
use rows::counts;

// A look, how many definitions and enumerators have been counted before it, and of each kind: 1 where it has come, the place of its word; the
// place of the first kind's word that came again, if one has. Marks stand beside places: what a walk tells has the places
// alone, and one array of Options would be taken apart again for it.
#[derive(Drop)]
pub struct Specified {
    pub look: Look,
    pub definitions: usize,
    pub enumerators: usize,
    pub marks: [usize; counts::KINDS],
    pub places: [usize; counts::KINDS],
    pub again: Option<usize>,
}

// With the place and length of the implementation.
#[derive(Drop)]
pub struct Implemented {
    pub look: Look,
    pub at: usize,
    pub len: usize,
    pub definitions: usize,
    pub enumerators: usize,
    pub marks: [usize; counts::KINDS],
    pub places: [usize; counts::KINDS],
    pub again: Option<usize>,
}

fn cell(cells: [usize; counts::KINDS], i: usize) -> usize
    ensures { result ≡ get_or cells i 0 }
{
    if counts::KINDS <= i { 0 } else { cells[i] }
}

fn with_cell(cells: [usize; counts::KINDS], i: usize, v: usize) -> [usize; counts::KINDS]
    ensures { result ≡ set cells i v }
{
    if counts::KINDS <= i {
        return cells;
    }
    let mut c = cells;
    c[i] = v;
    c
}

fn with_place(
    places: [usize; counts::KINDS],
    mark: usize,
    kind: usize,
    at: usize,
) -> [usize; counts::KINDS]
    ensures { result ≡ placed places mark kind at }
{
    if mark == 0 {
        with_cell(places, kind, at)
    } else {
        places
    }
}

fn again_at(mark: usize, again: Option<usize>, at: usize) -> Option<usize>
    ensures { result ≡ again_after mark again at }
{
    if mark == 0 { again } else { again.or(Some(at)) }
}

pub fn spec(text: &[u8], d: &mut [usize], e: &mut [usize], a: Look, n: usize, m: usize) -> Spot
    ensures { Walks Fill 1 (spec ▸ ∎) (λ w x. SpecRows text.now a w x.0) text.now a result.look ((d.old, n), (e.old, m)) ((d.new, result.definitions), (e.new, result.enumerators)) }
{
    let len = filling::length(a);
    let b = lookahead::expect_kind(text, a);
    let c = lookahead::expect(text, b, LBRACE);
    let f = definitions::definitions(
        text,
        d,
        e,
        c,
        n,
        m,
        Under {
            at: a.at,
            len,
            list: 0,
        },
    );
    let g = parts::close(text, f.look);
    Spot {
        look: g,
        definitions: f.definitions,
        enumerators: f.enumerators,
    }
}

pub fn specs(text: &[u8], d: &mut [usize], e: &mut [usize], from: Look) -> Specified
    ensures { Walks FillAll 0 (specs ▸ ∎) (λ w x. AllRows w x.0) text.now from result.look (record { marks = replicate 13 0; places = replicate 13 0; again = None }, ((d.old, 0), (e.old, 0))) (record { marks = result.marks; places = result.places; again = result.again }, ((d.new, result.definitions), (e.new, result.enumerators))) }
{
    let mut spot = Spot {
        look: from,
        definitions: 0,
        enumerators: 0,
    };
    let mut marks = [0; counts::KINDS];
    let mut places = [0; counts::KINDS];
    let mut again = None;
    // A `while`: the look says whether another spec comes, so no range counts it.
    while lookahead::is_kind(spot.look.code) {
        let kind = filling::kind_number(spot.look.code);
        let mark = cell(marks, kind);
        let p = with_place(places, mark, kind, spot.look.at);
        let g = again_at(mark, again, spot.look.at);
        let q = with_cell(marks, kind, 1);
        marks = q;
        places = p;
        again = g;
        spot = spec(text, d, e, spot.look, spot.definitions, spot.enumerators);
    }
    Specified {
        look: spot.look,
        definitions: spot.definitions,
        enumerators: spot.enumerators,
        marks,
        places,
        again,
    }
}

pub fn implementation(text: &[u8], d: &mut [usize], e: &mut [usize], a: Look) -> Implemented
    ensures { Walks FillAll 1 (implementation ▸ ∎) (λ w x. ImplementationRows result.at result.len w x.0) text.now a result.look (record { marks = replicate 13 0; places = replicate 13 0; again = None }, ((d.old, 0), (e.old, 0))) (record { marks = result.marks; places = result.places; again = result.again }, ((d.new, result.definitions), (e.new, result.enumerators))) }
{
    let b = lookahead::expect(text, a, IMPLEMENTATION);
    let c = lookahead::expect_name(text, b);
    let f = lookahead::expect(text, c, LBRACE);
    let x = specs(text, d, e, f);
    let g = lookahead::expect(text, x.look, RBRACE);
    let h = parts::description(text, g);
    let i = lookahead::expect(text, h, SEMICOLON);
    let len = filling::through(a.at, h);
    let marks = x.marks;
    let places = x.places;
    Implemented {
        look: i,
        at: a.at,
        len,
        definitions: x.definitions,
        enumerators: x.enumerators,
        marks,
        places,
        again: x.again,
    }
}
