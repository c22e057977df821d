// Differences as they are found, by value: the first 64, and how many there are.
ghost use Rattle.comparing.specs.Gathered.{Told, ToldMore};
ghost use Rattle.std.specs.Prelude.{[], ◌∷◌, ◌++◌};

use super::{Compared, Difference, Found};

// No total is as large as this.
const CAP: usize = 0x8000_0000_0000_0000;

// None yet.
pub fn nothing() -> Found
    ensures { Told [] result }
{
    let none = Difference {
        first_object: 0,
        second_object: 0,
        first_value: 0,
        second_value: 0,
    };
    Found {
        total: 0,
        records: [none; super::RECORDS],
        compared: Compared {
            which: 0,
            number: 0,
            place: 0,
            total: 0,
        },
    }
}

// One more.
pub fn and_one(found: Found, d: Difference) -> Found
    ensures { ToldMore found d result }
{
    let at = found.total;
    let mut next = found;
    if at < super::RECORDS {
        next.records[at] = d;
        next.total = at + 1;
        return next;
    }
    if at < CAP {
        next.total = at + 1;
        return next;
    }
    next
}
