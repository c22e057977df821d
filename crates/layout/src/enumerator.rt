// The rows of enumerators; those kept and those lent differ in one column.

pub const WIDTH: usize = 3;

// The most enumerators of a text; rows are kept of one more.
pub const MOST: usize = 1024;

pub const ROWS: usize = MOST + 1;

// The cells of the kept table, and of the lent one.
pub const KEPT: usize = ROWS * WIDTH;

pub const LENT: usize = MOST * WIDTH;

// Kept: the key of its list. Lent: the row of its attribute.
pub const LIST: usize = 0;

pub const NAME: usize = 1;

pub const NAME_LENGTH: usize = 2;
