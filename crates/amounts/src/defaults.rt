// The numbers that are defaults, read once.
ghost use Rattle.std.specs.Prelude.{◌≡◌};
ghost use Rattle.token.specs.Tokens.{step_at};
ghost use Rattle.meaning.specs.Actions.{num_of_step};
ghost use Rattle.amounts.specs.Known.{KnownDefaults, InCells};
ghost use Rattle.amounts.specs.Promises.{NotesDefault, NotesDefaults};

use super::keys;
use layout::{definition, word_codes};
use rows::cells;
use scopes::numbers;

// The cells of a row: 1 where the default is a number, 1 where that is negative, and its amount; and the cells of the table.
const WIDTH: usize = 3;

const KNOWN: usize = 0;

const NEGATIVE: usize = 1;

const AMOUNT: usize = 2;

pub const CELLS: usize = definition::MOST * WIDTH;

// A number in two cells: 1 where it is negative, and its amount.
#[derive(Clone, Copy)]
pub struct Cells {
    pub negative: usize,
    pub amount: usize,
}

// The row of the definition of row j, if its default is a number.
fn note_default(text: &[u8], d: &[usize], j: usize, t: &mut [usize])
    ensures { NotesDefault text.now d.now t.old t.new }
{
    if definition::MOST <= j {
        return;
    }
    if cells::cell_of(d, definition::WIDTH, j, definition::DEFAULT_CODE) != word_codes::NUMERAL {
        return;
    }
    let n = numbers::number_at(
        text,
        cells::cell_of(d, definition::WIDTH, j, definition::DEFAULT),
    );
    let negative = keys::sign_of(n);
    let row = [1, negative, n.amount as usize];
    cells::put_cells(t, j * WIDTH, &row);
}

// The rows of the first n definitions, in a table that was 0 before.
pub fn note_defaults(text: &[u8], d: &[usize], n: usize, t: &mut [usize])
    ensures { NotesDefaults text.now d.now t.old t.new }
{
    for j in 0..n.min(definition::MOST) {
        note_default(text, d, j, t);
    }
}

// The number at a place of the text.
fn read_number(text: &[u8], at: usize) -> Cells
    ensures { InCells (num_of_step (step_at text.now at)) result.negative result.amount }
{
    let n = numbers::number_at(text, at);
    let negative = keys::sign_of(n);
    Cells {
        negative,
        amount: n.amount as usize,
    }
}

// The number at a place, of the text or, where this is the default's of row j, of the table.
pub fn number_at(text: &[u8], d: &[usize], known: &[usize], j: usize, at: usize) -> Cells
    requires { KnownDefaults text.now d.now known.now }
    ensures { InCells (num_of_step (step_at text.now at)) result.negative result.amount }
{
    if definition::MOST <= j {
        return read_number(text, at);
    }
    if at != cells::cell_of(d, definition::WIDTH, j, definition::DEFAULT) {
        return read_number(text, at);
    }
    let row = j * WIDTH;
    if cells::cell(known, row, KNOWN) != 1 {
        return read_number(text, at);
    }
    let negative = cells::cell(known, row, NEGATIVE);
    let amount = cells::cell(known, row, AMOUNT);
    Cells { negative, amount }
}
