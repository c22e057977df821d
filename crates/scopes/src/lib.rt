// Values over the rows kept while a text is read: numbers and ranges, and the values that an attribute takes.
#![tactic(auto)]

pub mod bounds;
pub mod floats;
pub mod lookups;
pub mod numbers;

// A number: zero is not negative.
#[derive(Clone, Copy)]
pub struct Num {
    pub negative: bool,
    pub amount: u64,
}

pub const ZERO: Num = Num {
    negative: false,
    amount: 0,
};

// A float: whether it is negative, its digits as one whole number, and the power of ten by which they count, plus 82.
#[derive(Clone, Copy)]
pub struct Float {
    pub negative: bool,
    pub digits: u64,
    pub scale: u8,
}

// What a step finds: a number, or 0; a sign's byte, or 0; its place and the place after it.
#[derive(Clone, Copy)]
pub struct Item {
    pub number: Num,
    pub sign: u8,
    pub at: usize,
    pub next: usize,
}

// How many rows the tables of definitions, enumerators and objects have.
#[derive(Clone, Copy)]
pub struct Sizes {
    pub definitions: usize,
    pub enumerators: usize,
    pub objects: usize,
}
