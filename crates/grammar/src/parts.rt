// The readers of what no rows are kept of: descriptions, what ends a definition or an object, the numbers of a range, the own form of a default.
ghost use Rattle.std.specs.Prelude.{◌≡◌};
ghost use Rattle.grammar.specs.Grammar.{◌·◌, ◌▸◌, ∎, sg, semicolon, rbrace, D, numbers, own};
ghost use Rattle.grammar.specs.Factored.{span};
ghost use Rattle.grammar.specs.Readers.{Meets, Reads, sort_at, sort_numbered, fitting};

use super::lookahead::{
    AUTO, COLON, COMMA, DOTS, FALSE, FLOATING, NO_DEFAULT, NUMERAL, QUOTED, RBRACE, SEMICOLON, TRUE,
};
use super::{Look, lookahead};

// D: nothing, or `:` and a string.
pub fn description(text: &[u8], a: Look) -> Look
    ensures { Meets 0 (D ▸ ∎) text.now a result }
{
    if a.code != COLON {
        return a;
    }
    let b = lookahead::advance(text, a);
    lookahead::expect(text, b, QUOTED)
}

// D `;`
pub fn finish(text: &[u8], a: Look) -> Look
    ensures { Meets 0 (D ▸ sg semicolon · ∎) text.now a result }
{
    let b = description(text, a);
    lookahead::expect(text, b, SEMICOLON)
}

// `}` D `;`
pub fn close(text: &[u8], a: Look) -> Look
    ensures { Meets 1 (sg rbrace · D ▸ sg semicolon · ∎) text.now a result }
{
    let b = lookahead::expect(text, a, RBRACE);
    finish(text, b)
}

// `,` and a number, any number of times.
pub fn numbers(text: &[u8], from: Look) -> Look
    ensures { Meets 0 (numbers ▸ ∎) text.now from result }
{
    let mut a = from;
    // A `while`: the look says whether another number comes, so no range counts it.
    while a.code == COMMA {
        let b = lookahead::advance(text, a);
        a = lookahead::expect(text, b, NUMERAL);
    }
    a
}

// After the first number of a range: `..` and a number, or more numbers.
pub fn span(text: &[u8], a: Look) -> Look
    ensures { Reads 0 (span ▸ ∎) text.now a result }
{
    match a.code {
        DOTS => {
            let b = lookahead::advance(text, a);
            lookahead::expect(text, b, NUMERAL)
        }
        COMMA => {
            let b = lookahead::advance(text, a);
            let c = lookahead::expect(text, b, NUMERAL);
            numbers(text, c)
        }
        _ => a,
    }
}

// What a default is of.
#[derive(Clone, Copy, PartialEq, Eq)]
pub enum Sort {
    Integer,
    Text,
    Truth,
    Enumerator,
    Float,
}

impl Sort {
    // The sort of a number: 0 to 4 in the order above, and an enumerator for any number past them.
    #[tactic(auto, unfolding(crate::specs::Readers::sort_at, crate::specs::Readers::sort_numbered))]
    pub fn of(number: u8) -> Sort
        ensures { sort_at result ≡ sort_numbered number }
    {
        match number {
            0 => Sort::Integer,
            1 => Sort::Text,
            2 => Sort::Truth,
            4 => Sort::Float,
            _ => Sort::Enumerator,
        }
    }
}

// Whether the token is the own form of a default.
#[tactic(auto, unfolding(crate::specs::Readers::sort_at, crate::specs::Readers::fitting))]
pub fn is_own(sort: Sort, code: u8) -> bool
    ensures { result ≡ fitting (sort_at sort) code }
{
    match sort {
        Sort::Integer => code == NUMERAL,
        Sort::Text => code == QUOTED,
        Sort::Truth => code == TRUE || code == FALSE,
        Sort::Enumerator => lookahead::is_name(code),
        Sort::Float => code == FLOATING,
    }
}

// AUTO, NO_DEFAULT, or the own form of a default.
pub fn own(text: &[u8], a: Look, sort: Sort) -> Look
    ensures { Meets 1 (own (sort_at sort) ▸ ∎) text.now a result }
{
    match a.code {
        AUTO | NO_DEFAULT => lookahead::advance(text, a),
        code => {
            if is_own(sort, code) {
                lookahead::advance(text, a)
            } else {
                lookahead::refuse(a)
            }
        }
    }
}
