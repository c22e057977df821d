// The question of the standard attributes.
ghost use Rattle.std.specs.Prelude.{◌≡◌};
ghost use Rattle.standard_texts.specs.Checking.{ChecksTexts};
ghost use Rattle.testing.specs.SetQuestions.{StandardSet};
ghost use Rattle.testing.specs.Standards.{told_case, StandardTold};

use rows::{Fault, cells};
use standard::Wrong;

// An answer as numbers: which case it is, and the three numbers that it has, 0 where it has none.
#[derive(Clone, Copy)]
struct Found {
    number: u8,
    first: usize,
    second: usize,
    third: usize,
}

fn told_case(answer: Result<Option<Wrong>, Fault>) -> Found
    ensures { result ≡ told_case answer }
{
    match answer {
        Err(f) => Found {
            number: 0,
            first: f.number as usize,
            second: f.place,
            third: 0,
        },
        Ok(told) => {
            match told {
                None => Found {
                    number: 1,
                    first: 0,
                    second: 0,
                    third: 0,
                },
                Some(w) => Found {
                    number: 2,
                    first: w.number as usize,
                    second: w.place,
                    third: w.attribute,
                },
            }
        }
    }
}

// The answer: 0 refused, 1 nothing wrong, 2 something wrong. The number, its place and the standard attribute are told in three cells, else 0.
#[unsafe(no_mangle)]
pub extern "C" fn kaukslini_check_standard(text: &[u8], told: &mut [usize]) -> u8
    ensures { StandardTold text.now told.old told.new result }
{
    let c = told_case(standard::check_standard(text));
    let numbers = [c.first, c.second, c.third];
    cells::put_cells(told, 0, &numbers);
    c.number
}

// The answer to lent texts.
#[unsafe(no_mangle)]
pub extern "C" fn kaukslini_check_standard_texts(
    buffer: &[u8],
    lengths: &[usize],
    expanded: &mut [u8],
    origins: &mut [usize],
    told: &mut [usize],
) -> u8
    ensures { StandardSet
        (ChecksTexts buffer.now lengths.now expanded.old origins.old
        expanded.new origins.new)
        told.old told.new result }
{
    let c = told_case(standard_texts::check_standard(buffer, lengths, expanded, origins));
    let numbers = [c.first, c.second, c.third];
    cells::put_cells(told, 0, &numbers);
    c.number
}
