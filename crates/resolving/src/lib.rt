// The resolved values of a text, written as rows over the rows that were kept while it was read.
#![tactic(auto)]

ghost use Rattle.std.specs.Prelude.{◌≡◌};
ghost use Rattle.resolving.specs.Written.{sort_cell, row_cell, held_sort, held_negative, held_amount};

pub mod entering;
pub mod scanning;
pub mod values;
pub mod words;

use layout::sorts;
use scopes::Sizes;

// A text, the rows that were kept of it, and how many there are.
#[derive(Clone, Copy)]
pub struct Tables<'a> {
    pub text: &'a [u8],
    pub definitions: &'a [usize],
    pub enumerators: &'a [usize],
    pub objects: &'a [usize],
    pub statements: &'a [usize],
    pub sizes: Sizes,
}

// The tables, and what is noted of them before values are resolved: the defaults that are numbers, the words that defaults are, the indexes of the
// enumerators and of the objects, the ranks of the statements' names, for each statement the next one of its rank, the ranks of the definitions'
// names, and the words under which attributes with a default stand.
#[derive(Clone, Copy)]
pub struct Notes<'a> {
    pub tables: Tables<'a>,
    pub known: &'a [usize],
    pub words: &'a [usize],
    pub enumerator_index: &'a [usize],
    pub object_index: &'a [usize],
    pub statement_ranks: &'a [usize],
    pub next_rows: &'a [usize],
    pub definition_ranks: &'a [usize],
    pub owners: &'a [usize],
}

// Whose a value is: an object's, or one that is under another value; by the row.
#[derive(Clone, Copy)]
pub enum Owner {
    Object(usize),
    Value(usize),
}

impl Owner {
    // 0 for an object and 1 for a value, as a cell has it.
    fn sort(self) -> usize
        ensures { result ≡ sort_cell self }
    {
        match self {
            Owner::Object(_) => 0,
            Owner::Value(_) => 1,
        }
    }

    // The row of the object or the value.
    fn row(self) -> usize
        ensures { result ≡ row_cell self }
    {
        match self {
            Owner::Object(i) => i,
            Owner::Value(k) => k,
        }
    }
}

// A value: of a number 1 where it is negative, and its amount; of an enumerator and of an object its row.
#[derive(Clone, Copy)]
pub enum Held {
    Number(usize, usize),
    Truth(bool),
    Auto,
    String,
    Enumerator(usize),
    Object(usize),
    Float,
}

impl Held {
    // The number of the sort, as a cell has it.
    fn sort(self) -> usize
        ensures { result ≡ held_sort self }
    {
        match self {
            Held::Number(_, _) => sorts::NUMBER,
            Held::Truth(_) => sorts::TRUTH,
            Held::Auto => sorts::AUTO,
            Held::String => sorts::STRING,
            Held::Enumerator(_) => sorts::ENUMERATOR,
            Held::Object(_) => sorts::OBJECT,
            Held::Float => sorts::FLOAT,
        }
    }

    // 1 for a negative number.
    fn negative(self) -> usize
        ensures { result ≡ held_negative self }
    {
        match self {
            Held::Number(negative, _) => negative,
            _ => 0,
        }
    }

    // The amount of a number, 1 for TRUE, and the row of an enumerator and of an object.
    #[tactic(auto, unfolding(token::specs::Find::bit))]
    fn amount(self) -> usize
        ensures { result ≡ held_amount self }
    {
        match self {
            Held::Number(_, amount) => amount,
            Held::Truth(is_true) => usize::from(is_true),
            Held::Enumerator(row) => row,
            Held::Object(row) => row,
            _ => 0,
        }
    }
}
