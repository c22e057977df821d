// Tokens of OIL 2.5: a cursor by value, whose step method returns the token at it and the next cursor.
#![tactic(auto)]

ghost use Rattle.std.specs.Prelude.{◌≡◌, ◌+◌};
ghost use Rattle.token.specs.Tokens.{step_at, part_of, part_place};

mod floats;
mod lexeme;
mod numbers;
mod scan;
mod skipping;
mod words;

pub use scan::{find_byte, find_close, pair};

// The most bytes of a text.
pub const LONGEST: usize = 65535;

// A place in several texts is the text's number times this, and the byte: no text has as many.
pub const PLACES: usize = LONGEST + 1;

// A place of a text.
#[derive(Clone, Copy)]
pub struct Cursor {
    pub at: usize,
}

// What a token is.
#[derive(Clone, Copy)]
pub enum Sort {
    // A word, by its code: 0, or the number of a known word.
    Word(u8),
    // A number: whether it is negative, and its amount.
    Number(bool, u64),
    // A string.
    String,
    // `{ } [ ] = ; : ,` by its byte, and `..` as `.`.
    Punctuator(u8),
    // A float: whether it is negative, its digits as one whole number, and the power of ten by which they count, plus 82.
    Float(bool, u64, u8),
}

#[derive(Clone, Copy)]
pub struct Token {
    pub sort: Sort,
    pub at: usize,
    pub len: usize,
}

// What a step finds. Three things, each with a place, so neither an Option nor a Result is plainer; `Lexing` and the theorems above name them.
#[derive(Clone, Copy)]
pub enum Step {
    // A token, and the cursor after it.
    Found(Token, Cursor),
    // Refusal 3 at a place: no token, or a string or a comment that is not ended.
    Refused(usize),
    // No token is left; the place is the length of the text.
    End(usize),
}

// The exponent of a float: whether it is below 0, its amount, and the place after the float.
#[derive(Clone, Copy)]
pub struct Power {
    pub below: bool,
    pub amount: u64,
    pub end: usize,
}

impl Cursor {
    pub fn new() -> Self
        ensures { result.at ≡ 0 }
    {
        Cursor { at: 0 }
    }

    // The token at the cursor and the cursor after it, or the refusal, or the end.
    #[tactic(auto, unfolding(crate::specs::Tokens::step_at))]
    pub fn step(self, text: &[u8]) -> Step
        ensures { result ≡ step_at text.now self.at }
    {
        match skipping::skip_gaps(text, self.at) {
            Ok(q) => lexeme::token_at(text, q),
            Err(q) => Step::Refused(q),
        }
    }
}

// A part of the text itself; where it does not lie inside, the empty part at the start. A slice points to a block of memory and to a place in it:
// the part's block is the text's, and its place is so many bytes after the text's.
#[tactic(auto, unfolding(crate::specs::Tokens::part_of, crate::specs::Tokens::part_place))]
pub fn part(text: &[u8], at: usize, len: usize) -> &[u8]
    ensures bytes { result.now ≡ part_of text.now at len }
    ensures block { result.ref_ptr.0 ≡ text.entry.ref_ptr.0 }
    ensures place { result.ref_ptr.1 ≡ text.entry.ref_ptr.1 + part_place text.now at len }
{
    if at <= text.len() {
        if len <= text.len() - at {
            &text[at..at + len]
        } else {
            &text[..0]
        }
    } else {
        &text[..0]
    }
}
