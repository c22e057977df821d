// How the syntax of a text lies in rows of numbers: of each table the width of a row, its columns, and how many rows and cells there are. A table is
// kept while a text is read, or lent and filled in the end (docs/TABLES.md); a lent row has the first cells of the kept one. What the cells hold is
// in specs/.
#![tactic(auto)]

pub mod definition;
pub mod enumerator;
pub mod object;
pub mod part;
pub mod sorts;
pub mod statement;
pub mod value;
pub mod word_codes;

// The widths of the kept rows, each under one name.
pub const DEFINITION_CELLS: usize = definition::WIDTH;

pub const ENUMERATOR_CELLS: usize = enumerator::WIDTH;

pub const OBJECT_CELLS: usize = object::WIDTH;

pub const STATEMENT_CELLS: usize = statement::WIDTH;

// How many rows are kept while reading: one more than may be, so that the first too many is kept too.
pub const DEFINITION_ROOM: usize = definition::ROWS;

pub const ENUMERATOR_ROOM: usize = enumerator::ROWS;

pub const OBJECT_ROOM: usize = object::ROWS;

pub const PART_ROOM: usize = part::ROWS;

pub const STATEMENT_ROOM: usize = statement::ROWS;
