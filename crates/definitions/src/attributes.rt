// Definitions from the end of their type on, and the parts that they have: readers that hold no definitions again.
ghost use Rattle.std.specs.Prelude.{◌≡◌};
ghost use Rattle.std.proofs.Math.Option.{none};
ghost use Rattle.token.specs.Find.{bit};
ghost use Rattle.grammar.specs.Grammar.{◌·◌, ◌▸◌, ∎, sg, semicolon, name, D, auto, mark, integer_range, float_range, default, integers, strings, floats};
ghost use Rattle.grammar.specs.Readers.{sort_at};
ghost use Rattle.filling.specs.Fills.{Fills, Walks};
ghost use Rattle.definitions.specs.Rows.{Puts, Named, head_of, list_head};
ghost use Rattle.definitions.specs.Parts.{Spanned, Defaulted};

use super::{Given, Head, Marked, Put, Ranged, Under};
use grammar::lookahead::{DOTS, EQUALS, FLOATING, LSQUARE, NUMERAL, RSQUARE, WITH_AUTO};
use grammar::parts::Sort;
use grammar::{Look, lookahead, parts};
use layout::definition;

// WITH_AUTO or nothing.
pub fn auto(text: &[u8], a: Look) -> Marked
    ensures { Fills 0 (auto ▸ ∎) text.now a result.look (λ m. bit m.0 ≡ result.bit) }
{
    if a.code != WITH_AUTO {
        return Marked { look: a, bit: 0 };
    }
    let b = lookahead::advance(text, a);
    Marked { look: b, bit: 1 }
}

// `[` `]` or nothing.
pub fn mark(text: &[u8], a: Look) -> Marked
    ensures { Fills 0 (mark ▸ ∎) text.now a result.look (λ m. bit m.0 ≡ result.bit) }
{
    if a.code != LSQUARE {
        return Marked { look: a, bit: 0 };
    }
    let b = lookahead::advance(text, a);
    let c = lookahead::expect(text, b, RSQUARE);
    Marked { look: c, bit: 1 }
}

// The range of an integer.
pub fn range(text: &[u8], a: Look) -> Ranged
    ensures { Fills 0 (integer_range ▸ ∎) text.now a result.look (λ m. Spanned m.0.span result.at result.len) }
{
    if a.code != LSQUARE {
        return Ranged {
            look: a,
            at: 0,
            len: 0,
        };
    }
    let b = lookahead::advance(text, a);
    let c = lookahead::expect(text, b, NUMERAL);
    let d = parts::span(text, c);
    let e = lookahead::expect(text, d, RSQUARE);
    let len = filling::through(a.at, d);
    Ranged {
        look: e,
        at: a.at,
        len,
    }
}

// The range of a float.
pub fn float_range(text: &[u8], a: Look) -> Ranged
    ensures { Fills 0 (float_range ▸ ∎) text.now a result.look (λ m. Spanned m.0.span result.at result.len) }
{
    if a.code != LSQUARE {
        return Ranged {
            look: a,
            at: 0,
            len: 0,
        };
    }
    let b = lookahead::advance(text, a);
    let c = lookahead::expect(text, b, FLOATING);
    let d = lookahead::expect(text, c, DOTS);
    let e = lookahead::expect(text, d, FLOATING);
    let f = lookahead::expect(text, e, RSQUARE);
    let len = filling::through(a.at, e);
    Ranged {
        look: f,
        at: a.at,
        len,
    }
}

// `=` and a default, or nothing.
pub fn default(text: &[u8], a: Look, sort: Sort) -> Given
    ensures { Fills 0 (default (sort_at sort) ▸ ∎) text.now a result.look (λ m. Defaulted m.0 result.at result.len result.code) }
{
    if a.code != EQUALS {
        return Given {
            look: a,
            at: 0,
            len: 0,
            code: 0,
        };
    }
    let b = lookahead::advance(text, a);
    let c = parts::own(text, b, sort);
    let len = filling::length(b);
    Given {
        look: c,
        at: b.at,
        len,
        code: b.code as usize,
    }
}

// What is known of a definition after its type, without a list of values and with one.
pub fn head(t: Look, auto: usize, range: usize, extent: usize) -> Head
    ensures { result ≡ head_of t auto range extent }
{
    with_list(t, auto, range, extent, 0, 0, 0, 0)
}

pub fn with_list(
    t: Look,
    auto: usize,
    range: usize,
    extent: usize,
    key: usize,
    truth: usize,
    falsity: usize,
    width: usize,
) -> Head
    ensures { result ≡ list_head t auto range extent key truth falsity width }
{
    let length = filling::length(t);
    Head {
        word: t.at,
        length,
        code: t.code as usize,
        auto,
        range,
        extent,
        key,
        truth,
        falsity,
        width,
    }
}

// An attribute from its name on: its row.
pub fn named(
    text: &[u8],
    d: &mut [usize],
    a: Look,
    n: usize,
    under: Under,
    h: Head,
    sort: Sort,
) -> Put
    ensures { Walks (Puts 19) 1 (name · mark ▸ default (sort_at sort) ▸ D ▸ sg semicolon · ∎) (λ w m. Named under h w m.0 m.1.0 m.1.1.0) text.now a result.look (d.old, n) (d.new, result.n) }
{
    let b = lookahead::expect_name(text, a);
    let c = mark(text, b);
    let x = default(text, c.look, sort);
    let f = parts::finish(text, x.look);
    let len = filling::length(a);
    let cells = [
        under.at, under.len, a.at, len, h.word, h.length, c.bit, h.auto, h.range, h.extent, x.at,
        x.len, h.code, under.list, h.key, h.truth, h.falsity, h.width, x.code,
    ];
    filling::put_row(d, definition::WIDTH, n, &cells);
    let m = filling::next(n);
    Put { look: f, n: m }
}

// A reference after its type: its row.
pub fn reference(text: &[u8], d: &mut [usize], t: Look, a: Look, n: usize, under: Under) -> Put
    ensures { Walks (Puts 19) 1 (name · mark ▸ D ▸ sg semicolon · ∎) (λ w m. Named under (head_of t 0 0 0) w m.0 m.1.0 none) text.now a result.look (d.old, n) (d.new, result.n) }
{
    let b = lookahead::expect_name(text, a);
    let c = mark(text, b);
    let f = parts::finish(text, c.look);
    let len = filling::length(a);
    let h = head(t, 0, 0, 0);
    let cells = [
        under.at, under.len, a.at, len, h.word, h.length, c.bit, h.auto, h.range, h.extent, 0, 0,
        h.code, under.list, h.key, h.truth, h.falsity, h.width, 0,
    ];
    filling::put_row(d, definition::WIDTH, n, &cells);
    let m = filling::next(n);
    Put { look: f, n: m }
}

// An integer after its type, and a string.
pub fn integer(text: &[u8], d: &mut [usize], t: Look, a: Look, n: usize, under: Under) -> Put
    ensures { Walks (Puts 19) 0 (auto ▸ integer_range ▸ name · mark ▸ default integers ▸ D ▸ sg semicolon · ∎) (λ w m. Named under (head_of t (bit m.0) m.1.0.span.place m.1.0.span.length) w m.1.1.0 m.1.1.1.0 m.1.1.1.1.0) text.now a result.look (d.old, n) (d.new, result.n) }
{
    let b = auto(text, a);
    let c = range(text, b.look);
    let h = head(t, b.bit, c.at, c.len);
    named(text, d, c.look, n, under, h, Sort::Integer)
}

pub fn string(text: &[u8], d: &mut [usize], t: Look, a: Look, n: usize, under: Under) -> Put
    ensures { Walks (Puts 19) 0 (auto ▸ name · mark ▸ default strings ▸ D ▸ sg semicolon · ∎) (λ w m. Named under (head_of t (bit m.0) 0 0) w m.1.0 m.1.1.0 m.1.1.1.0) text.now a result.look (d.old, n) (d.new, result.n) }
{
    let b = auto(text, a);
    let h = head(t, b.bit, 0, 0);
    named(text, d, b.look, n, under, h, Sort::Text)
}

// A float after its type.
pub fn float(text: &[u8], d: &mut [usize], t: Look, a: Look, n: usize, under: Under) -> Put
    ensures { Walks (Puts 19) 0 (auto ▸ float_range ▸ name · mark ▸ default floats ▸ D ▸ sg semicolon · ∎) (λ w m. Named under (head_of t (bit m.0) m.1.0.span.place m.1.0.span.length) w m.1.1.0 m.1.1.1.0 m.1.1.1.1.0) text.now a result.look (d.old, n) (d.new, result.n) }
{
    let b = auto(text, a);
    let c = float_range(text, b.look);
    let h = head(t, b.bit, c.at, c.len);
    named(text, d, c.look, n, under, h, Sort::Float)
}
