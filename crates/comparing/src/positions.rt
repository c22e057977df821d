// The positions of an object's values among those of the same owner and name, by numbers.
ghost use Rattle.std.specs.Prelude.{◌≡◌, [], ◌≤◌, length};
ghost use Rattle.comparing.specs.Partners.{positions, Small};
ghost use Rattle.comparing.specs.Ordering.{Bounded, Orderable, Ordered, FindsPosition};

use super::ordering;
use layout::value;
use rows::cells;

// The position of a row with this owner and this name, where the rows before it have these positions: one more than that of the last one with
// the same, or 0; x has the cells of all rows.
fn position_of(x: &[usize], before: &[usize], owner: usize, name: usize) -> usize
    requires { Small before.now × (length before.now ≤ 2048) }
    ensures { FindsPosition x.now before.now owner name result }
{
    let k = ordering::key_of(owner, name);
    let i = before.len();
    let p = ordering::first_place(x, k * value::MOST + i);
    if p == 0 {
        return 0;
    }
    let c = x[p - 1];
    if c / value::MOST != k {
        return 0;
    }
    cells::get(before, c % value::MOST) + 1
}

// The positions of all rows, whose cells are x.
fn reckon_positions(owners: &[usize], names: &[usize], x: &[usize], out: &mut [usize])
    requires { Ordered owners.now names.now x.now × (length out.old ≡ length owners.now) }
    ensures { out.new ≡ positions [] [] [] owners.now names.now }
{
    for i in 0..out.len() {
        out[i] = position_of(x, &out[..i], owners[i], names[i]);
    }
}

// The positions of all rows; x and room hold anything afterwards.
pub fn find_positions(
    owners: &[usize],
    names: &[usize],
    x: &mut [usize],
    room: &mut [usize],
    out: &mut [usize],
)
    requires { (Bounded owners.now names.now × Orderable (length owners.now) x.old room.old) × (length out.old ≡ length owners.now) }
    ensures { out.new ≡ positions [] [] [] owners.now names.now }
{
    ordering::order(owners, names, x, room);
    reckon_positions(owners, names, x, out);
}
