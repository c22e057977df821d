// The walk of the application: it reads the parts of objects and puts a row for each part and each statement, in text order.
#![tactic(auto)]

ghost use Rattle.std.specs.Prelude.{◌≡◌, replicate};
ghost use Rattle.grammar.specs.Grammar.{◌▸◌, ∎, block, value, statement, statements, object, objects};
ghost use Rattle.filling.specs.Fills.{Walks};
ghost use Rattle.object_parts.specs.Rows.{Fill, StatementRows, StatedRows, BlockRows, ValueRows, FillBoth, FillAll, PartRows, AllRows};

use grammar::lookahead::{AUTO, EQUALS, FALSE, FLOATING, LBRACE, NUMERAL, QUOTED, RBRACE, TRUE};
use grammar::{Look, lookahead, parts};
use layout::{object, statement};
use rows::counts;

// A look, and how many statements have been counted before it.
#[derive(Clone, Copy)]
pub struct Spot {
    pub look: Look,
    pub statements: usize,
}

// With the place of a `{` that was read; 0: there is none.
#[derive(Clone, Copy)]
pub struct Braced {
    pub look: Look,
    pub statements: usize,
    pub brace: usize,
}

// A look, and how many parts and statements have been counted before it.
#[derive(Clone, Copy)]
pub struct Passed {
    pub look: Look,
    pub parts: usize,
    pub statements: usize,
}

// With the parts of each kind.
#[derive(Drop)]
pub struct Counted {
    pub look: Look,
    pub parts: usize,
    pub statements: usize,
    pub counts: [usize; counts::KINDS],
}

// Nothing, or `{` statements `}`.
#[cycle(block_statement_statements_value)]
pub fn block(text: &[u8], s: &mut [usize], a: Look, m: usize) -> Braced
    ensures { Walks Fill 0 (block ▸ ∎) (λ w x. BlockRows result.brace w x.0) text.now a result.look (s.old, m) (s.new, result.statements) }
{
    if a.code != LBRACE {
        return Braced {
            look: a,
            statements: m,
            brace: 0,
        };
    }
    let b = lookahead::advance(text, a);
    let c = statements(text, s, b, m);
    let d = lookahead::expect(text, c.look, RBRACE);
    Braced {
        look: d,
        statements: c.statements,
        brace: a.at,
    }
}

#[cycle(block_statement_statements_value)]
pub fn value(text: &[u8], s: &mut [usize], a: Look, m: usize) -> Braced
    ensures { Walks Fill 1 (value ▸ ∎) (λ w x. ValueRows text.now a result.brace w x.0) text.now a result.look (s.old, m) (s.new, result.statements) }
{
    let code = a.code;
    if code == NUMERAL {
        let b = lookahead::advance(text, a);
        return Braced {
            look: b,
            statements: m,
            brace: 0,
        };
    }
    if code == QUOTED {
        let b = lookahead::advance(text, a);
        return Braced {
            look: b,
            statements: m,
            brace: 0,
        };
    }
    if code == AUTO {
        let b = lookahead::advance(text, a);
        return Braced {
            look: b,
            statements: m,
            brace: 0,
        };
    }
    if code == TRUE {
        let b = lookahead::advance(text, a);
        return block(text, s, b, m);
    }
    if code == FALSE {
        let b = lookahead::advance(text, a);
        return block(text, s, b, m);
    }
    if lookahead::is_name(code) {
        let b = lookahead::advance(text, a);
        return block(text, s, b, m);
    }
    if code == FLOATING {
        let b = lookahead::advance(text, a);
        return Braced {
            look: b,
            statements: m,
            brace: 0,
        };
    }
    let b = lookahead::refuse(a);
    Braced {
        look: b,
        statements: m,
        brace: 0,
    }
}

// A statement's row is put when those in its braces have been counted.
#[cycle(block_statement_statements_value)]
pub fn statement(text: &[u8], s: &mut [usize], a: Look, m: usize) -> Spot
    ensures { Walks Fill 1 (statement ▸ ∎) (λ w x. StatedRows w x.0) text.now a result.look (s.old, m) (s.new, result.statements) }
{
    let b = lookahead::expect_name(text, a);
    let c = lookahead::expect(text, b, EQUALS);
    let k = filling::next(m);
    let v = value(text, s, c, k);
    let size = filling::length(a);
    let len = filling::length(c);
    let code = c.code;
    let cells = [a.at, size, c.at, len, code as usize, v.brace, v.statements];
    filling::put_row(s, statement::WIDTH, m, &cells);
    let d = parts::finish(text, v.look);
    Spot {
        look: d,
        statements: v.statements,
    }
}

#[cycle(block_statement_statements_value)]
pub fn statements(text: &[u8], s: &mut [usize], from: Look, m: usize) -> Spot
    ensures { Walks Fill 0 (statements ▸ ∎) (λ w x. StatementRows w x.0) text.now from result.look (s.old, m) (s.new, result.statements) }
{
    let mut spot = Spot {
        look: from,
        statements: m,
    };
    // A `while`: the look says whether another statement comes, so no range counts it.
    while lookahead::is_name(spot.look.code) {
        spot = statement(text, s, spot.look, spot.statements);
    }
    spot
}

pub fn part(text: &[u8], p: &mut [usize], s: &mut [usize], a: Look, n: usize, m: usize) -> Passed
    ensures { Walks FillBoth 1 (object ▸ ∎) (λ w x. PartRows a w x.0) text.now a result.look ((p.old, n), (s.old, m)) ((p.new, result.parts), (s.new, result.statements)) }
{
    let kind = filling::kind_number(a.code);
    let b = lookahead::expect_kind(text, a);
    let c = lookahead::expect_name(text, b);
    let size = filling::length(a);
    let len = filling::length(b);
    let k = filling::next(n);
    if c.code != LBRACE {
        let cells = [kind, a.at, size, b.at, len, 0, 0, 1, m, m];
        filling::put_row(p, object::WIDTH, n, &cells);
        let d = parts::finish(text, c);
        return Passed {
            look: d,
            parts: k,
            statements: m,
        };
    }
    let d = lookahead::advance(text, c);
    let e = statements(text, s, d, m);
    let last = e.look;
    let extent = filling::through(c.at, last);
    let cells = [
        kind,
        a.at,
        size,
        b.at,
        len,
        c.at,
        extent,
        1,
        m,
        e.statements,
    ];
    filling::put_row(p, object::WIDTH, n, &cells);
    let f = lookahead::expect(text, last, RBRACE);
    let g = parts::finish(text, f);
    Passed {
        look: g,
        parts: k,
        statements: e.statements,
    }
}

pub fn parts(text: &[u8], p: &mut [usize], s: &mut [usize], from: Look) -> Counted
    ensures { Walks FillAll 0 (objects ▸ ∎) (λ w x. AllRows w x.0) text.now from result.look (replicate 13 0, ((p.old, 0), (s.old, 0))) (result.counts, ((p.new, result.parts), (s.new, result.statements))) }
{
    let mut passed = Passed {
        look: from,
        parts: 0,
        statements: 0,
    };
    let mut counts = [0; counts::KINDS];
    // A `while`: the look says whether another part comes, so no range counts it.
    while lookahead::is_kind(passed.look.code) {
        let kind = filling::kind_number(passed.look.code);
        let more = rows::counts::one_more(counts, kind);
        counts = more;
        passed = part(text, p, s, passed.look, passed.parts, passed.statements);
    }
    Counted {
        look: passed.look,
        parts: passed.parts,
        statements: passed.statements,
        counts,
    }
}
