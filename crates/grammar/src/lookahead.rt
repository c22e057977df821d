// Looks at the next token: what is seen, one step on, and a terminal that is expected.
ghost use Rattle.std.specs.Prelude.{◌≡◌};
ghost use Rattle.grammar.specs.Grammar.{◌·◌, ∎, matches, name, kind, type, integer, definition};
ghost use Rattle.grammar.specs.Machine.{starts};
ghost use Rattle.grammar.specs.Factored.{paper};
ghost use Rattle.grammar.specs.Readers.{punctuator_code, code_of, class_at, Meets, look_at, advanced, refusal, expected, between};

use super::Look;
use token::{Cursor, Sort, Step};

// The codes of the words that a form names, of numbers, strings and floats. Tokens have the codes below END, and END + n is refusal n.
// They are numbers and no enum: the cells of rows hold them, and kinds and types are ranges of them.
pub const TRUE: u8 = 1;

pub const FALSE: u8 = 2;

pub const AUTO: u8 = 3;

pub const NO_DEFAULT: u8 = 4;

pub const WITH_AUTO: u8 = 5;

pub const OIL_VERSION: u8 = 6;

pub const IMPLEMENTATION: u8 = 7;

pub const CPU: u8 = 8;

// The thirteen kinds, and after them each followed by `_TYPE`.
pub const FIRST_KIND: u8 = 9;

pub const LAST_KIND: u8 = 21;

pub const FIRST_TYPE: u8 = 22;

pub const LAST_TYPE: u8 = 34;

pub const UINT32: u8 = 35;

pub const INT32: u8 = 36;

pub const UINT64: u8 = 37;

pub const INT64: u8 = 38;

pub const STRING: u8 = 39;

pub const BOOLEAN: u8 = 40;

pub const ENUM: u8 = 41;

pub const FLOAT: u8 = 42;

pub const NUMERAL: u8 = 43;

pub const QUOTED: u8 = 44;

pub const LBRACE: u8 = 45;

pub const RBRACE: u8 = 46;

pub const LSQUARE: u8 = 47;

pub const RSQUARE: u8 = 48;

pub const EQUALS: u8 = 49;

pub const SEMICOLON: u8 = 50;

pub const COLON: u8 = 51;

pub const COMMA: u8 = 52;

pub const DOTS: u8 = 53;

pub const FLOATING: u8 = 54;

// A token that the grammar has no terminal for.
pub const OTHER: u8 = 55;

pub const END: u8 = 56;

pub const NO_TOKEN: u8 = 59;

pub const NOT_ADMITTED: u8 = 60;

pub const TOO_DEEP: u8 = 61;

// The most braces that may be open.
pub const DEEPEST: u8 = 16;

// A punctuator's code, by its byte.
#[tactic(auto, unfolding(crate::specs::Readers::punctuator_code))]
pub fn punctuator_code(b: u8) -> u8
    ensures { result ≡ punctuator_code b }
{
    match b {
        b'{' => LBRACE,
        b'}' => RBRACE,
        b'[' => LSQUARE,
        b']' => RSQUARE,
        b'=' => EQUALS,
        b';' => SEMICOLON,
        b':' => COLON,
        b',' => COMMA,
        b'.' => DOTS,
        _ => OTHER,
    }
}

// A token's code: a word's own code, 0 for one that no form names; OTHER for a token that the grammar has no terminal for.
#[tactic(auto, unfolding(crate::specs::Readers::code_of))]
pub fn code_of(sort: Sort) -> u8
    ensures { result ≡ code_of sort }
{
    match sort {
        Sort::Word(c) => { if c < NUMERAL { c } else { OTHER } }
        Sort::Number(_, _) => NUMERAL,
        Sort::String => QUOTED,
        Sort::Punctuator(b) => punctuator_code(b),
        Sort::Float(_, _, _) => FLOATING,
    }
}

// What stands at a place, with so many braces open.
#[tactic(auto, unfolding(crate::specs::Readers::look_at, crate::specs::Readers::look_of))]
pub fn look_at(text: &[u8], at: usize, depth: u8) -> Look
    ensures { result ≡ look_at text.now at depth }
{
    let cursor = Cursor { at };
    match cursor.step(text) {
        Step::Found(t, c) => Look {
            code: code_of(t.sort),
            at: t.at,
            next: c.at,
            depth,
        },
        Step::Refused(p) => Look {
            code: NO_TOKEN,
            at: p,
            next: p,
            depth,
        },
        Step::End(n) => Look {
            code: END,
            at: n,
            next: n,
            depth,
        },
    }
}

// Past the token that is seen. A `{` that would be the seventeenth open is refusal 5.
#[tactic(auto, unfolding(crate::specs::Readers::advanced))]
pub fn advance(text: &[u8], a: Look) -> Look
    ensures { result ≡ advanced text.now a }
{
    match a.code {
        LBRACE => {
            if a.depth < DEEPEST {
                look_at(text, a.next, a.depth + 1)
            } else {
                Look {
                    code: TOO_DEEP,
                    ..a
                }
            }
        }
        RBRACE => look_at(text, a.next, a.depth.saturating_sub(1)),
        _ => look_at(text, a.next, a.depth),
    }
}

// The refusal of what is seen: 4, at the token or at the end. A refusal stays what it is.
#[tactic(auto, unfolding(crate::specs::Readers::refusal))]
pub fn refuse(a: Look) -> Look
    ensures { result ≡ refusal a }
{
    if a.code <= END {
        Look {
            code: NOT_ADMITTED,
            ..a
        }
    } else {
        a
    }
}

// The token with a code.
#[tactic(auto, unfolding(crate::specs::Readers::expected))]
pub fn expect(text: &[u8], a: Look, code: u8) -> Look
    ensures { result ≡ expected text.now a code }
{
    if a.code == code {
        advance(text, a)
    } else {
        refuse(a)
    }
}

// Whether a code is at least low and at most high.
#[tactic(auto, unfolding(crate::specs::Readers::between))]
pub fn is_between(low: u8, code: u8, high: u8) -> bool
    ensures { result ≡ between low code high }
{
    low <= code && code <= high
}

// Whether a token may be a name: any word but the five reserved.
#[tactic(auto, using(crate::proofs::Codes::name_zero, crate::proofs::Codes::name_is))]
pub fn is_name(code: u8) -> bool
    ensures { result ≡ matches name (class_at code) }
{
    code == 0 || is_between(OIL_VERSION, code, FLOAT)
}

// Whether a token is one of the thirteen kinds.
#[tactic(auto, using(crate::proofs::Codes::kind_is))]
pub fn is_kind(code: u8) -> bool
    ensures { result ≡ matches kind (class_at code) }
{
    is_between(FIRST_KIND, code, LAST_KIND)
}

// Whether a token is a kind followed by `_TYPE`.
#[tactic(auto, using(crate::proofs::Codes::type_is))]
pub fn is_type(code: u8) -> bool
    ensures { result ≡ matches type (class_at code) }
{
    is_between(FIRST_TYPE, code, LAST_TYPE)
}

// Whether a token is one of the four integer types.
#[tactic(auto, using(crate::proofs::Codes::integer_is))]
pub fn is_integer(code: u8) -> bool
    ensures { result ≡ matches integer (class_at code) }
{
    is_between(UINT32, code, INT64)
}

// Whether a definition begins with the token.
#[tactic(auto, using(crate::proofs::Codes::definition_is))]
pub fn is_definition(code: u8) -> bool
    ensures { result ≡ starts (paper definition) (class_at code) }
{
    is_between(FIRST_TYPE, code, FLOAT)
}

// A name.
pub fn expect_name(text: &[u8], a: Look) -> Look
    ensures { Meets 1 (name · ∎) text.now a result }
{
    if is_name(a.code) {
        advance(text, a)
    } else {
        refuse(a)
    }
}

// A kind.
pub fn expect_kind(text: &[u8], a: Look) -> Look
    ensures { Meets 1 (kind · ∎) text.now a result }
{
    if is_kind(a.code) {
        advance(text, a)
    } else {
        refuse(a)
    }
}
