// The rows of definitions.

// The cells of a kept row, and of a lent one.
pub const WIDTH: usize = 19;

pub const LENT_WIDTH: usize = 13;

// The most definitions of a text; rows are kept of one more, so that the first too many is kept too.
pub const MOST: usize = 512;

pub const ROWS: usize = MOST + 1;

// The cells of the kept table, and of the lent one.
pub const KEPT: usize = ROWS * WIDTH;

pub const LENT: usize = MOST * LENT_WIDTH;

// The cells of the kept rows without the one more.
pub const MOST_CELLS: usize = MOST * WIDTH;

// The kind or value word that it stands under.
pub const UNDER: usize = 0;

pub const UNDER_LENGTH: usize = 1;

pub const NAME: usize = 2;

pub const NAME_LENGTH: usize = 3;

// The type's word.
pub const TYPE: usize = 4;

pub const TYPE_LENGTH: usize = 5;

// 1 for a list.
pub const LIST: usize = 6;

// 1 for WITH_AUTO.
pub const AUTO: usize = 7;

// From `[` through `]`.
pub const RANGE: usize = 8;

pub const RANGE_LENGTH: usize = 9;

// The word after `=`.
pub const DEFAULT: usize = 10;

pub const DEFAULT_LENGTH: usize = 11;

// The code of the type's word.
pub const CODE: usize = 12;

// Those of the kept row alone. The key of the list that the word it stands under is a value of; 0 for a kind's word.
pub const OUTER: usize = 13;

// The key of its own list of values: the place of the first, which of a BOOLEAN is TRUE; 0 where it has none.
pub const KEY: usize = 14;

// The words TRUE and FALSE of a BOOLEAN's list.
pub const TRUE_LENGTH: usize = 15;

pub const FALSE: usize = 16;

pub const FALSE_LENGTH: usize = 17;

// The code of the default's word; 0 where there is none.
pub const DEFAULT_CODE: usize = 18;
