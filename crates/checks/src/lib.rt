// The faults 11, 17 and 24, over the rows of parts kept while a text is read.
#![tactic(auto)]

pub mod objects;
pub mod parts;
