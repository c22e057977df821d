// The rows of statements. They are kept, never lent.

pub const WIDTH: usize = 7;

// The most statements of a text; rows are kept of one more.
pub const MOST: usize = 2048;

pub const ROWS: usize = MOST + 1;

// The cells of the kept table.
pub const KEPT: usize = ROWS * WIDTH;

pub const NAME: usize = 0;

pub const NAME_LENGTH: usize = 1;

// The value's word.
pub const VALUE: usize = 2;

pub const VALUE_LENGTH: usize = 3;

// The code of the value's word.
pub const CODE: usize = 4;

// The `{` after the value; 0 where there is none.
pub const BRACE: usize = 5;

// The row after the last one in its braces.
pub const AFTER: usize = 6;
