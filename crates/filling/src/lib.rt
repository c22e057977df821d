// What the walks have in common: rows put into a lent table, their counts, and spans of looks.
#![tactic(auto)]

ghost use Rattle.std.specs.Prelude.{◌≡◌, ◌+◌, ◌-◌, ◌*◌, min};
ghost use Rattle.std.proofs.lemmas.List.Edits.{sets};

use grammar::{Look, lookahead};
use rows::cells;

// A row by its number. What is past the table's end is not stored.
#[tactic(auto, using(crate::proofs::Tables::sets_start))]
pub fn put_row(t: &mut [usize], width: usize, row: usize, r: &[usize])
    ensures { t.new ≡ sets t.old (row * width) r.now }
{
    let at = cells::row_start(t.len(), width, row);
    cells::put_cells(t, at, r);
}

// The most rows that are counted.
pub const COUNTED: usize = 65536;

// One row more; no more than 65,536 are counted.
pub fn next(n: usize) -> usize
    ensures { result ≡ n + min 1 (65536 - n) }
{
    if n < COUNTED { n + 1 } else { n }
}

// The length of the token that is seen.
pub fn length(a: Look) -> usize
    ensures { result ≡ a.next - a.at }
{
    a.next.saturating_sub(a.at)
}

// From a place through the token that is seen.
pub fn through(at: usize, a: Look) -> usize
    ensures { result ≡ (a.at + (a.next - a.at)) - at }
{
    a.next.max(a.at).saturating_sub(at)
}

// The number of a kind, by the code of its word.
pub fn kind_number(code: u8) -> usize
    ensures { result ≡ code - 9 }
{
    usize::from(code.saturating_sub(lookahead::FIRST_KIND))
}
