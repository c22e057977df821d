// Where the rows of each object's values begin and end among those of all objects.
ghost use Rattle.std.specs.Prelude.{◌≡◌, length};
ghost use Rattle.comparing.specs.Columns.{Holds};
ghost use Rattle.releases.specs.Starts.{other_object, object_end, start_at, one_more, first_row, many_rows};

use layout::value;
use rows::cells;

// Whether row j is that of a value of another object than i.
fn is_other(v: &[usize], i: usize, j: usize) -> bool
    ensures { result ≡ other_object v.now i j }
{
    if cells::cell_of(v, value::WIDTH, j, value::OWNER_SORT) != value::OF_OBJECT {
        return false;
    }
    cells::cell_of(v, value::WIDTH, j, value::OWNER) != i
}

// The row after those of object i, which begin at row k, of n rows.
fn object_end(v: &[usize], n: usize, i: usize, k: usize) -> usize
    ensures { result ≡ object_end v.now n i k }
{
    for j in k..n {
        if is_other(v, i, j) {
            return j;
        }
    }
    n.max(k)
}

// Makes st the first rows of the objects' values, of n rows in all: as many objects as there are cells.
pub fn fill_starts(v: &[usize], n: usize, st: &mut [usize])
    ensures { Holds (start_at v.now n) (length st.new) st.new }
{
    let mut k = 0;
    for (i, start) in st.iter_mut().enumerate() {
        *start = k;
        k = object_end(v, n, i, k);
    }
}

// The first row of object i.
pub fn first_row(st: &[usize], i: usize) -> usize
    ensures { result ≡ first_row st.now i }
{
    cells::least_of(cells::get(st, i), value::MOST)
}

// One more than the number of an object.
pub fn one_more(i: usize) -> usize
    ensures { result ≡ one_more i }
{
    cells::place_after(65536, i, 1)
}

// How many rows it has.
pub fn many_rows(st: &[usize], i: usize) -> usize
    ensures { result ≡ many_rows st.now i }
{
    let a = first_row(st, i);
    let b = first_row(st, one_more(i));
    b.saturating_sub(a)
}
