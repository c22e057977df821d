// Which fault refusal 21 is given for at a place.
ghost use Rattle.std.specs.Prelude.{◌≡◌};
ghost use Rattle.explaining.specs.Bounds.{code_after, type_before, outside_type};

use grammar::lookahead;
use scopes::numbers;
use token::{Cursor, Sort, Step};

// The code of the last word, except WITH_AUTO, after a token of a sort; before it was the given one.
fn code_after(code: u8, sort: Sort) -> u8
    ensures { result ≡ code_after code sort }
{
    match sort {
        Sort::Word(n) => {
            if n == 5 {
                return code;
            }
            n
        }
        Sort::Number(_, _) => code,
        Sort::String => code,
        Sort::Punctuator(_) => code,
        Sort::Float(_, _, _) => code,
    }
}

// The code of the type's word before a place: of the last word, except WITH_AUTO.
fn type_before(text: &[u8], place: usize) -> u8
    ensures { result ≡ type_before text.now place }
{
    let mut code = 0;
    let mut at = 0;
    // A `while`: the next place is where the token found ends, so no range counts it.
    while at < place {
        let cursor = Cursor { at };
        match cursor.step(text) {
            Step::Found(t, c) => {
                if place <= t.at {
                    return code;
                }
                let sort = t.sort;
                code = code_after(code, sort);
                at = c.at;
            }
            Step::Refused(_) => {
                return code;
            }
            Step::End(_) => {
                return code;
            }
        }
    }
    code
}

// Whether the number at a place lies outside the integer type whose word stands before it.
pub fn outside_type(text: &[u8], place: usize) -> bool
    ensures { result ≡ outside_type text.now place }
{
    let code = type_before(text, place);
    if code < lookahead::UINT32 {
        return false;
    }
    if lookahead::INT64 < code {
        return false;
    }
    let n = numbers::number_at(text, place);
    !numbers::in_type(code as usize, n)
}
