// Thirteen counts, by value.
ghost use Rattle.std.specs.Prelude.{◌≡◌};
ghost use Rattle.rows.specs.Tally.{one_more};

// How many kinds there are.
pub const KINDS: usize = 13;

// One more of a kind; a kind past the thirteen is not counted. A full cell stays.
pub fn one_more(mut counts: [usize; KINDS], kind: usize) -> [usize; KINDS]
    ensures { result ≡ one_more counts kind }
{
    if kind < KINDS {
        counts[kind] = counts[kind].saturating_add(1);
    }
    counts
}
