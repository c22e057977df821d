// The grammar stage of a reading: refusals 3, 4 and 5. A look at the next token goes from reader to reader, and a look that is a refusal goes
// through every reader unchanged. Here are the readers of which no rows are kept; those of definitions, objects and statements are in the crates
// `definitions`, `implementation`, `object_parts` and `walk`, which has the call `stage`.
#![tactic(auto)]

ghost use Rattle.std.specs.Prelude.{◌≡◌};
ghost use Rattle.grammar.specs.Readers.{answer_of};

use lookahead::{END, NO_TOKEN, NOT_ADMITTED};

pub mod lookahead;
pub mod parts;

// A look at the next token: its code, its place, the place after it, and how many braces are open before it. The code 56 is the text's end,
// and 56 + n is refusal n at the place.
#[derive(Clone, Copy)]
pub struct Look {
    pub code: u8,
    pub at: usize,
    pub next: usize,
    pub depth: u8,
}

// A refusal of the stage, with its place.
#[derive(Clone, Copy, Debug, PartialEq, Eq)]
pub enum Refusal {
    // 3: no token, or a string or comment that is not ended.
    NoToken(usize),
    // 4: a token that the grammar does not admit, or the text ends early.
    NotAdmitted(usize),
    // 5: a `{` that the grammar admits, where sixteen are open.
    TooDeep(usize),
}

// What the stage answers at the look after the file.
pub fn answer_of(a: Look) -> Result<(), Refusal>
    ensures { result ≡ answer_of a }
{
    let code = a.code;
    let at = a.at;
    if code == END {
        return Ok(());
    }
    if code < END {
        return Err(Refusal::NotAdmitted(at));
    }
    if code == NO_TOKEN {
        return Err(Refusal::NoToken(at));
    }
    if code == NOT_ADMITTED {
        return Err(Refusal::NotAdmitted(at));
    }
    Err(Refusal::TooDeep(at))
}
