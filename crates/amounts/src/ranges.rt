// The table of ranges: the caller's cells, a row for each definition, and the numbers of lists.
use layout::definition;

// Where the rows begin, the cells of a row, and where the numbers of lists begin.
pub const FIRST: usize = definition::MOST;

pub const WIDTH: usize = 5;

pub const LISTED: usize = FIRST + definition::MOST * WIDTH;

// The most numbers in the lists of a text, and the table with room for them.
pub const MOST: usize = 32768;

pub const ROOM: usize = LISTED + MOST;

// The same of a text with few.
pub const FEW: usize = 1024;

pub const FEW_ROOM: usize = LISTED + FEW;

// What a row is of: two bounds, a list, two floats; 0 where the text is to be read.
pub const SORT: usize = 0;

pub const BOUNDS: usize = 1;

pub const LIST: usize = 2;

pub const FLOATS: usize = 3;

// Two bounds: 1 where it is negative, and its amount.
pub const LOW_NEGATIVE: usize = 1;

pub const LOW: usize = 2;

pub const HIGH_NEGATIVE: usize = 3;

pub const HIGH: usize = 4;

// A list: the cell of its first number, and the one after its last.
pub const FROM: usize = 1;

pub const END: usize = 2;

// Two floats: the digits and the scale of each.
pub const LOW_DIGITS: usize = 1;

pub const LOW_SCALE: usize = 2;

pub const HIGH_DIGITS: usize = 3;

pub const HIGH_SCALE: usize = 4;
