// The rows of the definitions of a scope that give values.
ghost use Rattle.std.specs.Prelude.{◌≡◌, ◌+◌, ◌≤◌, ◌<◌, length};
ghost use Rattle.lookups.specs.Ranks.{Firsts};
ghost use Rattle.resolving.specs.Noted.{InRanks, Taken, NotesTaken, DefaultOwners, IsQuiet, Defaults, Stirs, NextUnder, NextRow};

use super::Notes;
use layout::{definition, word_codes};
use rows::cells;

// 1 where the attribute of row i has a default that is taken, 0 where it has none.
fn taken(d: &[usize], i: usize) -> usize
    ensures { Taken d.now i result }
{
    if cells::cell_of(d, definition::WIDTH, i, definition::DEFAULT_LENGTH) == 0 {
        return 0;
    }
    if cells::cell_of(d, definition::WIDTH, i, definition::DEFAULT_CODE) == word_codes::NO_DEFAULT {
        return 0;
    }
    1
}

// Marks the rows that have such a default, as many rows as there are cells.
fn note_taken(d: &[usize], marks: &mut [usize])
    ensures { NotesTaken d.now (length marks.old) marks.new }
{
    for (i, mark) in marks.iter_mut().enumerate() {
        *mark = taken(d, i);
    }
}

// The words under which attributes with such a default stand, in rising order.
pub fn default_owners(d: &[usize]) -> [usize; definition::MOST]
    ensures { DefaultOwners d.now result }
{
    let mut marks = [0; definition::MOST];
    note_taken(d, &mut marks);
    lookups::owners::owners(d, &marks)
}

// Whether a block is empty, and no attribute under the word at key has a default that is taken.
pub fn is_quiet(owners: &[usize], key: usize, from: usize, end: usize) -> bool
    ensures { IsQuiet owners.now key from end result }
{
    if from < end {
        return false;
    }
    if sorting::has(owners, key) {
        return false;
    }
    true
}

// Whether the attribute whose cells begin at p has a default that is taken.
fn has_default(d: &[usize], p: usize) -> bool
    requires { p + 18 < length d.now }
    ensures { Defaults d.now p result }
{
    if d[p + definition::DEFAULT_LENGTH] == 0 {
        return false;
    }
    if d[p + definition::DEFAULT_CODE] == word_codes::NO_DEFAULT {
        return false;
    }
    true
}

// Whether the attribute of row j, whose cells begin at p, has a default or may be stated in a block; `first` has the first row of each rank in
// the block.
fn stirs(t: Notes, first: &[usize], key: usize, from: usize, end: usize, j: usize, p: usize) -> bool
    requires { (p + 18 < length t.tables.definitions.now) × InRanks t × Firsts t.tables.statements.now t.statement_ranks.now from end first.now }
    ensures { let x = t.entry.tables in Stirs x.text.now x.definitions.now x.statements.now key from end j p result }
{
    if has_default(t.tables.definitions, p) {
        return true;
    }
    if end <= from {
        return false;
    }
    if t.definition_ranks.len() <= j {
        return true;
    }
    lookups::may_state(
        t.tables.statements,
        t.statement_ranks,
        first,
        from,
        end,
        t.definition_ranks[j],
    )
}

// The first row from j on, below a limit, that stands under the word at key; the limit for none.
fn next_under(d: &[usize], limit: usize, key: usize, j: usize) -> usize
    requires { (limit ≤ 512) × ((j ≤ limit) × (length d.now ≡ 9747)) }
    ensures { NextUnder d.now limit key j result }
{
    for i in j..limit {
        if d[i * definition::WIDTH] == key {
            return i;
        }
    }
    limit
}

// The first of these rows that may have a default or be stated in a block: those before it have and are not.
pub fn next_row(
    t: Notes,
    first: &[usize],
    limit: usize,
    key: usize,
    from: usize,
    end: usize,
    j: usize,
) -> usize
    requires { (limit ≤ 512) × ((j ≤ limit) × (InRanks t × Firsts t.tables.statements.now t.statement_ranks.now from end first.now)) }
    ensures { let x = t.entry.tables in NextRow x.text.now x.definitions.now x.statements.now limit key from end j result }
{
    let mut i = next_under(t.tables.definitions, limit, key, j);
    // A `while`: `next_under` passes the rows that stand under another word.
    while i < limit {
        if stirs(t, first, key, from, end, i, i * definition::WIDTH) {
            return i;
        }
        i = next_under(t.tables.definitions, limit, key, i + 1);
    }
    limit
}
