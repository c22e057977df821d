// Type, list mark and WITH_AUTO of a kept row, compared with those of a standard attribute.
ghost use Rattle.standard.specs.Shapes.{ShapeDiffers};
ghost use Rattle.standard.specs.Findings.{DefaultDiffers};

use layout::{definition, word_codes};
use rows::cells;

// Whether row j has another type than the code tells or another list mark, or WITH_AUTO where there is none.
pub fn shape_differs(d: &[usize], j: usize, code: usize, list: usize, auto: usize) -> bool
    ensures { ShapeDiffers d.now j code list auto result }
{
    if cells::cell_of(d, definition::WIDTH, j, definition::CODE) != code {
        return true;
    }
    if cells::cell_of(d, definition::WIDTH, j, definition::LIST) != list {
        return true;
    }
    if cells::cell_of(d, definition::WIDTH, j, definition::AUTO) != 1 {
        return false;
    }
    if auto == 0 {
        return true;
    }
    false
}

// Whether row j has a default where there is none; `has` is 1 where there is one.
pub fn default_differs(d: &[usize], j: usize, has: usize) -> bool
    ensures { DefaultDiffers d.now j has result }
{
    if cells::cell_of(d, definition::WIDTH, j, definition::DEFAULT) == 0 {
        return false;
    }
    if cells::cell_of(d, definition::WIDTH, j, definition::DEFAULT_CODE) == word_codes::NO_DEFAULT {
        return false;
    }
    if has == 1 {
        return false;
    }
    true
}
