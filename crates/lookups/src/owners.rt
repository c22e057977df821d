// The words under which marked rows of definitions stand.
ghost use Rattle.std.specs.Prelude.{length};
ghost use Rattle.lookups.specs.Owners.{IsOwner, NotesOwners, Owners};

use layout::definition;
use rows::cells;

// The word under which row i stands, if it is marked.
fn owner(d: &[usize], marks: &[usize], i: usize) -> usize
    ensures { IsOwner d.now marks.now i result }
{
    if cells::get(marks, i) == 0 {
        return 0;
    }
    cells::cell_of(d, definition::WIDTH, i, definition::UNDER)
}

// Notes the word under which each marked row stands, as many rows as there are cells.
fn note_owners(d: &[usize], marks: &[usize], owners: &mut [usize])
    ensures { NotesOwners d.now marks.now (length owners.old) owners.new }
{
    for (i, cell) in owners.iter_mut().enumerate() {
        *cell = owner(d, marks, i);
    }
}

// The words under which marked rows stand, in rising order, and 0 for the other rows.
pub fn owners(d: &[usize], marks: &[usize]) -> [usize; definition::MOST]
    ensures { Owners d.now marks.now result }
{
    let mut owners = [0; definition::MOST];
    let mut spare = [0; definition::MOST / 2];
    note_owners(d, marks, &mut owners);
    sorting::sort(&mut owners, &mut spare);
    owners
}
