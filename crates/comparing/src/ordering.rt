// Rows in the order of two numbers of each, and search among them.
ghost use Rattle.std.specs.Prelude.{◌≡◌, length};
ghost use Rattle.comparing.specs.Columns.{Holds};
ghost use Rattle.comparing.specs.Ordering.{IsKey, entry_of, Bounded, Orderable, Ordered, FirstPlace};

use layout::value;

// The first number of a pair is below this, the second below that; the number of another pair.
const OWNERS: usize = 131072;

const STEPS: usize = 8589934592;

const NO_KEY: usize = OWNERS * STEPS;

// The number of a pair.
pub fn key_of(a: usize, b: usize) -> usize
    ensures { IsKey a b result }
{
    if OWNERS <= a {
        return NO_KEY;
    }
    if STEPS <= b {
        return NO_KEY;
    }
    a * STEPS + b
}

// The cells of the rows with the numbers in a and b.
fn fill(a: &[usize], b: &[usize], x: &mut [usize])
    requires { Bounded a.now b.now × (length x.old ≡ length a.now) }
    ensures { Holds (entry_of a.now b.now) (length x.new) x.new }
{
    for (i, cell) in x.iter_mut().enumerate() {
        let k = key_of(a[i], b[i]);
        *cell = k * value::MOST + i;
    }
}

// The same in rising order; room holds anything afterwards.
pub fn order(a: &[usize], b: &[usize], x: &mut [usize], room: &mut [usize])
    requires { Bounded a.now b.now × Orderable (length a.now) x.old room.old }
    ensures { Ordered a.now b.now x.new }
{
    fill(a, b, x);
    sorting::sort(x, room);
}

// The first place of x, whose cells rise, with a cell that is no less than v.
pub fn first_place(x: &[usize], v: usize) -> usize
    ensures { FirstPlace x.now v result }
{
    let mut low = 0;
    let mut high = x.len();
    // A `while`: each step halves what is left, so no range counts it.
    while low < high {
        let middle = low + (high - low) / 2;
        if x[middle] < v {
            low = middle + 1;
        } else {
            high = middle;
        }
    }
    low
}
