// Which ranges are noted before statements are judged. No answer depends on this: where a range is not noted the text is read.
ghost use Rattle.std.specs.Prelude.{◌≤◌};

use amounts::ranges;
use layout::{definition, statement, word_codes};
use lookups::names;
use rows::cells;
use scopes::numbers;

// Whether a word with this code is a number or a float.
fn is_number(code: usize) -> bool {
    code == word_codes::NUMERAL || code == word_codes::FLOATING
}

// Counts a rank, up to 2, if the word that is stated is a number or a float.
fn count(counts: &mut [usize], rank: usize, code: usize) {
    if !is_number(code) {
        return;
    }
    if counts.len() <= rank {
        return;
    }
    if counts[rank] < 2 {
        counts[rank] += 1;
    }
}

// Counts the rank of each such statement, up to 2.
fn count_all(st: &[usize], ranks: &[usize], counts: &mut [usize]) {
    for (i, rank) in ranks.iter().enumerate() {
        let code = cells::cell_of(st, statement::WIDTH, i, statement::CODE);
        count(counts, *rank, code);
    }
}

// 1 for a rank that was counted twice, 0 for another.
fn mark_of(counts: &[usize], rank: usize) -> usize {
    if cells::get(counts, rank) == 2 {
        return 1;
    }
    0
}

// Marks the rows whose rank was counted twice.
fn mark(ranks: &[usize], counts: &[usize], marks: &mut [usize]) {
    for (i, m) in marks.iter_mut().enumerate() {
        *m = mark_of(counts, cells::get(ranks, i));
    }
}

// Marks the definitions whose name at least two statements of numbers have: it is their ranges that are worth noting.
pub fn wanted(st: &[usize], names: &[usize]) -> [usize; definition::MOST] {
    let mut counts = [0; definition::ROWS];
    count_all(st, names::statement_ranks(names), &mut counts);
    let mut marks = [0; definition::MOST];
    mark(names::definition_ranks(names), &counts, &mut marks);
    marks
}

// How many numbers stand in the range of the definition of row i, or more: half of its bytes, and one more; none where the row is not marked.
fn listed_of(d: &[usize], mark: usize, i: usize) -> usize
    ensures { result ≤ 65535 }
{
    if mark == 0 {
        return 0;
    }
    cells::least_of(
        cells::cell_of(d, definition::WIDTH, i, definition::RANGE_LENGTH),
        token::LONGEST,
    ) / 2
        + 1
}

// The same of all marked definitions; 65,535 where there are more.
pub fn listed(d: &[usize], marks: &[usize]) -> usize {
    let mut numbers = 0;
    for (i, m) in marks.iter().enumerate() {
        numbers = cells::least_of(numbers + listed_of(d, *m, i), token::LONGEST);
    }
    numbers
}

// Whether the range whose `[` stands at a place has two bounds.
fn has_bounds(text: &[u8], range: usize) -> bool {
    let open = numbers::item_at(text, range);
    let low = numbers::item_at(text, open.next);
    let sign = numbers::item_at(text, low.next);
    sign.sign == b'.'
}

// How many numbers stand in the list of the definition of row i, or more: as many as in its range, and none where a range so long has two bounds.
fn in_list(text: &[u8], d: &[usize], mark: usize, i: usize) -> usize
    ensures { result ≤ 65535 }
{
    let n = listed_of(d, mark, i);
    if n < ranges::FEW {
        return n;
    }
    if has_bounds(
        text,
        cells::cell_of(d, definition::WIDTH, i, definition::RANGE),
    ) {
        return 0;
    }
    n
}

// The same of all marked definitions; 65,535 where there are more.
pub fn in_lists(text: &[u8], d: &[usize], marks: &[usize]) -> usize {
    let mut count = 0;
    for (i, m) in marks.iter().enumerate() {
        count = cells::least_of(count + in_list(text, d, *m, i), token::LONGEST);
    }
    count
}
