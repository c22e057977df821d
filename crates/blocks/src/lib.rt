// The statements of a block, a range of the rows kept while a text is read.
#![tactic(auto)]

ghost use Rattle.std.specs.Prelude.{◌≡◌};
ghost use Rattle.blocks.specs.Blocks.{row_after, FindsStated};

use layout::statement;
use rows::{cells, parts};

// The row after the statement of row k and those in its braces, in a block that ends before row `end`.
pub fn after(st: &[usize], k: usize, end: usize) -> usize
    ensures { result ≡ row_after st.now k end }
{
    let next = cells::cell_of(st, statement::WIDTH, k, statement::AFTER);
    if next <= k {
        return end;
    }
    if end < next {
        return end;
    }
    next
}

// The first statement of a block that has a name.
pub fn stated(
    text: &[u8],
    st: &[usize],
    from: usize,
    end: usize,
    at: usize,
    len: usize,
) -> Option<usize>
    ensures { FindsStated text.now st.now from end at len result }
{
    let mut k = from;
    // A `while`: the next row is the one after those in the statement's braces, so no range counts it.
    while k < end {
        let place = cells::cell_of(st, statement::WIDTH, k, statement::NAME);
        let size = cells::cell_of(st, statement::WIDTH, k, statement::NAME_LENGTH);
        if parts::same_part(text, at, len, place, size) {
            return Some(k);
        }
        k = after(st, k, end);
    }
    None
}
