// The rows of resolved values. They are lent, never kept.

pub const WIDTH: usize = 9;

// The most resolved values of a text.
pub const MOST: usize = 2048;

// The cells of the lent table.
pub const LENT: usize = MOST * WIDTH;

// The row of its definition.
pub const DEFINITION: usize = 0;

// What it stands under, by the sort of the owner, and the owner's row.
pub const OWNER_SORT: usize = 1;

pub const OWNER: usize = 2;

// The value: its sort, 1 where it is negative, and its amount.
pub const SORT: usize = 3;

pub const NEGATIVE: usize = 4;

pub const AMOUNT: usize = 5;

// 1 where it was stated.
pub const STATED: usize = 6;

// The value's word.
pub const WORD: usize = 7;

pub const WORD_LENGTH: usize = 8;

// The sorts of owners: an object, a resolved value.
pub const OF_OBJECT: usize = 0;

pub const OF_VALUE: usize = 1;
