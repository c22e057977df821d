// The rows of the parts of objects: their columns are those of objects.
use super::object;

// The most parts of a text; rows are kept of one more.
pub const MOST: usize = 512;

pub const ROWS: usize = MOST + 1;

// The cells of the kept table.
pub const KEPT: usize = ROWS * object::WIDTH;
