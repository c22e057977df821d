// The rows of the standard attributes.

pub const WIDTH: usize = 14;

pub const COUNT: usize = 36;

// The number of the kind that it is under.
pub const KIND: usize = 0;

// Its name in the section's text.
pub const NAME: usize = 1;

pub const NAME_LENGTH: usize = 2;

// The type's code.
pub const CODE: usize = 3;

// 1 for a list.
pub const LIST: usize = 4;

// 1 for WITH_AUTO.
pub const AUTO: usize = 5;

// 1 where it has a default.
pub const DEFAULT: usize = 6;

// The attribute that it is under, if that is not a kind, and its value.
pub const ABOVE: usize = 7;

pub const ABOVE_LENGTH: usize = 8;

pub const VALUE: usize = 9;

pub const VALUE_LENGTH: usize = 10;

// 1 for the range from 1 to 2.
pub const RANGE: usize = 11;

// The first of its words, and the one after its last.
pub const FIRST: usize = 12;

pub const END: usize = 13;
