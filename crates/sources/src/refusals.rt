// The refusals of an expansion, as it numbers them.
use rows::refusals;

pub const NO_TOKEN: usize = refusals::NO_TOKEN as usize;

pub const OPEN_TEXT: usize = refusals::OPEN_TEXT as usize;

pub const NO_TEXT: usize = refusals::NO_TEXT as usize;

pub const NO_INCLUDE: usize = refusals::NO_INCLUDE as usize;

pub const LONG_TEXTS: usize = refusals::LONG_TEXTS as usize;
