// Rows of numbers in lent slices, parts of a text, the fault that answers, thirteen counts, and lookups by key.
#![tactic(auto)]

pub mod cells;
pub mod counts;
pub mod faults;
pub mod finding;
pub mod parts;
pub mod refusals;

// A refusal's place and number, which order it among others.
#[derive(Clone, Copy, PartialEq, Eq, PartialOrd, Ord)]
pub struct Fault {
    pub place: usize,
    pub number: u8,
}
