// Where a statement ends.
ghost use Rattle.std.specs.Prelude.{◌≡◌, ◌<◌};
ghost use Rattle.mending.specs.Ends.{punctuator_of, open_after, is_last, end_of};

use token::{Cursor, Sort, Step};

// The byte of a punctuator; 0 for another token.
fn punctuator_of(sort: Sort) -> u8
    ensures { result ≡ punctuator_of sort }
{
    match sort {
        Sort::Punctuator(b) => b,
        _ => 0,
    }
}

// How many braces are open after a punctuator.
fn open_after(depth: usize, b: u8) -> usize
    requires { depth < 18446744073709551615 }
    ensures { result ≡ open_after depth b }
{
    if b == b'{' {
        depth + 1
    } else if b == b'}' {
        depth.saturating_sub(1)
    } else {
        depth
    }
}

// Whether a punctuator is the semicolon, and no brace is open.
fn is_last(depth: usize, b: u8) -> bool
    ensures { result ≡ is_last depth b }
{
    b == b';' && depth == 0
}

// The place after the semicolon of the statement whose name stands at a place; the text's end where there is none.
pub fn statement_end(text: &[u8], at: usize) -> usize
    ensures { result ≡ end_of text.now at }
{
    let mut depth = 0;
    let mut cursor = Cursor { at };
    while let Step::Found(t, next) = cursor.step(text) {
        let b = punctuator_of(t.sort);
        if is_last(depth, b) {
            return next.at;
        }
        depth = open_after(depth, b);
        cursor = next;
    }
    text.len()
}
