// The numbers and floats of the definitions, read once from the text into tables: the ranges, for judging, and the defaults that are numbers, for
// resolving. Where a table says nothing, the text is read.
//
// The table of ranges has 512 cells that are the caller's, 512 rows of five cells, and the numbers of lists; 35,840 cells are enough for every text
// of 65,535 bytes, in which at most 32,768 numbers are listed. The table of defaults has 512 rows of three cells.
#![tactic(auto)]

pub mod asking;
pub mod defaults;
mod keys;
pub mod noting;
pub mod ranges;
