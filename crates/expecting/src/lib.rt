// What the grammar admits at a place where it refuses a text: see specs/Expected and specs/Flags. For each terminal the grammar stage is asked
// whether it goes on after the text before the place with a token of that terminal.
#![tactic(auto)]

ghost use Rattle.std.specs.Prelude.{◌≡◌, true, ◌↔◌, ◌+◌, length};
ghost use Rattle.grammar.specs.Stage.{Answers};
ghost use Rattle.grammar.specs.declared.Refusal.TheVariants.{NotAdmitted};
ghost use Rattle.expecting.specs.Flags.{RefusedAt, Tells};
ghost use Rattle.expecting.specs.Samples.{asking, Room, AdmitsLast, Asks};

use grammar::Refusal;

mod samples;
pub mod words;

// The place of the flag for the text's end. Those before it are the terminals'.
pub const END: usize = 28;

// How many flags there are.
pub const TERMINALS: usize = END + 1;

// Whether the stage refuses the text with 4 at the place.
fn is_refused(text: &[u8], place: usize) -> bool
    ensures { (result ≡ true) ↔ Answers text.now (Err (NotAdmitted place)) }
{
    match walk::stage(text) {
        Ok(()) => false,
        Err(Refusal::NoToken(_)) => false,
        Err(Refusal::NotAdmitted(p)) => p == place,
        Err(Refusal::TooDeep(_)) => false,
    }
}

// Whether the stage passes the text.
fn passes(text: &[u8]) -> bool
    ensures { (result ≡ true) ↔ Answers text.now (Ok tt) }
{
    walk::stage(text).is_ok()
}

// Whether the last token of a text, at the place, goes on with the tokens before it.
fn admitted(text: &[u8], place: usize) -> bool
    ensures { AdmitsLast text.now place result }
{
    match walk::stage(text) {
        Ok(()) => true,
        Err(Refusal::NoToken(_)) => false,
        Err(Refusal::NotAdmitted(p)) => p != place,
        Err(Refusal::TooDeep(_)) => true,
    }
}

// Whether the text before the place goes on with the sample i.
fn goes_on(text: &[u8], place: usize, i: usize, scratch: &mut [u8]) -> bool
    requires { Room text.now place i (length scratch.old) }
    ensures { AdmitsLast (asking text.now place i) (place + 1) result }
{
    samples::lay(text, place, i, scratch);
    admitted(&scratch[..place + samples::ROOM], place + 1)
}

// Whether it goes on with the sample i and not as a name, where named says whether a name goes on.
fn is_expected(text: &[u8], place: usize, i: usize, named: bool, scratch: &mut [u8]) -> bool
    requires { Room text.now place i (length scratch.old) }
    ensures { Asks text.now place i named result }
{
    if named {
        if i < 11 {
            return false;
        }
    }
    goes_on(text, place, i, scratch)
}

// Whether the text before the place is a whole file.
fn ends(text: &[u8], place: usize, scratch: &mut [u8]) -> bool
    requires { Room text.now place 28 (length scratch.old) }
    ensures { (result ≡ true) ↔ Answers (asking text.now place 28) (Ok tt) }
{
    samples::lay(text, place, END, scratch);
    passes(&scratch[..place + samples::ROOM])
}

// The flags at the place, with the scratch to ask in.
fn flags(text: &[u8], place: usize, scratch: &mut [u8]) -> [bool; TERMINALS]
    requires { RefusedAt text.now place × Room text.now place 28 (length scratch.old) }
    ensures { Tells text.now place result }
{
    let mut flags = [false; TERMINALS];
    let named = goes_on(text, place, 0, scratch);
    flags[0] = named;
    for i in 1..END {
        flags[i] = is_expected(text, place, i, named, scratch);
    }
    flags[END] = ends(text, place, scratch);
    flags
}

// What the grammar admits at the place, where it refuses the text with 4 there: a flag for each terminal in the order of `words`, and one for
// the text's end. For any other text or place no flag is set.
pub fn expected(text: &[u8], place: usize) -> [bool; TERMINALS]
    ensures { Tells text.now place result }
{
    if text.len() > token::LONGEST {
        return [false; TERMINALS];
    }
    if is_refused(text, place) {
        let mut scratch = [0; token::LONGEST + samples::ROOM];
        return flags(text, place, &mut scratch);
    }
    [false; TERMINALS]
}
