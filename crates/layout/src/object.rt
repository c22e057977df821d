// The rows of objects; parts of objects have kept rows of the same form.

// The cells of a kept row, and of a lent one.
pub const WIDTH: usize = 10;

pub const LENT_WIDTH: usize = 8;

// The most objects of a text; rows are kept of one more.
pub const MOST: usize = 256;

pub const ROWS: usize = MOST + 1;

// The cells of the kept table, and of the lent one.
pub const KEPT: usize = ROWS * WIDTH;

pub const LENT: usize = MOST * LENT_WIDTH;

// The kind's number, in document 01's order of kinds.
pub const KIND: usize = 0;

// The kind's word.
pub const WORD: usize = 1;

pub const WORD_LENGTH: usize = 2;

pub const NAME: usize = 3;

pub const NAME_LENGTH: usize = 4;

// From `{` through `}`.
pub const BLOCK: usize = 5;

pub const BLOCK_LENGTH: usize = 6;

// How many parts it has.
pub const PARTS: usize = 7;

// Those of the kept row alone. The row of its first statement, and the one after its last.
pub const FIRST: usize = 8;

pub const END: usize = 9;

// Two kinds' numbers.
pub const TASK: usize = 2;

pub const EVENT: usize = 7;
