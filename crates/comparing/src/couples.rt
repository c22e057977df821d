// The differences of a pair of objects.
ghost use Rattle.std.specs.Prelude.{◌≡◌, [], ◌+◌, ◌*◌, ◌≤◌, length};
ghost use Rattle.comparing.specs.Partners.{partners};
ghost use Rattle.comparing.specs.Gathered.{ToldAlso, pair_partners, pair_records};
ghost use Rattle.comparing.specs.Ordering.{Bounded, Orderable};
ghost use Rattle.comparing.specs.Columns.{Coupled, Partnering};

use super::{Found, Object, columns, ordering, pairs, partners};
use layout::value;

// What is copied of the rows of an object's values: the owner and the step of each.
#[derive(Clone, Copy)]
struct Columns<'a> {
    owners: &'a [usize],
    steps: &'a [usize],
}

// The records of a pair whose second object's rows have the partners ps; back is room for the first object's.
fn gather(found: Found, a: Object, b: Object, ps: &[usize], back: &mut [usize]) -> Found
    requires { (a.from + length back.old ≤ 65536) × (b.from + length ps.now ≤ 65536) }
    ensures { ToldAlso found (pair_records a.entry.side.text.now a.entry.side.definitions.now a.entry.side.values.now b.entry.side.text.now b.entry.side.definitions.now b.entry.side.values.now ps.now a.entry.from (length back.old) b.entry.from a.entry.number b.entry.number) result }
{
    columns::fill_back(ps, b.from, back);
    let all = pairs::first_values(found, a, b, back);
    pairs::second_values(all, b.from, ps, a.number, b.number)
}

// The records of a pair, by the columns of both objects.
fn couple(
    found: Found,
    a: Object,
    first: Columns,
    b: Object,
    second: Columns,
    cells: &mut [usize],
    room: &mut [usize],
    ps: &mut [usize],
    back: &mut [usize],
) -> Found
    requires { Partnering a.from b.from first.owners.now first.steps.now second.owners.now second.steps.now ps.old back.old × Orderable (length first.owners.now) cells.old room.old }
    ensures { ToldAlso found (pair_records a.entry.side.text.now a.entry.side.definitions.now a.entry.side.values.now b.entry.side.text.now b.entry.side.definitions.now b.entry.side.values.now (partners first.entry.owners.now first.entry.steps.now [] second.entry.owners.now second.entry.steps.now) a.entry.from (length back.old) b.entry.from a.entry.number b.entry.number) result }
{
    ordering::order(first.owners, first.steps, cells, room);
    partners::find_partners(cells, second.owners, second.steps, ps);
    gather(found, a, b, ps, back)
}

// The records of a pair, with room for the partners of so many rows each.
fn couple_in<const ROOM: usize, const HALF: usize>(
    found: Found,
    a: Object,
    first: Columns,
    b: Object,
    second: Columns,
) -> Found
    requires { (Coupled a.from first.owners.now first.steps.now × Coupled b.from second.owners.now second.steps.now) × Bounded first.owners.now first.steps.now × ((length first.owners.now ≤ ROOM) × (length second.owners.now ≤ ROOM) × (ROOM ≤ 2 * HALF + 1) × (ROOM ≤ 2048) × (HALF ≤ 1024)) }
    ensures { ToldAlso found (pair_records a.entry.side.text.now a.entry.side.definitions.now a.entry.side.values.now b.entry.side.text.now b.entry.side.definitions.now b.entry.side.values.now (partners first.entry.owners.now first.entry.steps.now [] second.entry.owners.now second.entry.steps.now) a.entry.from (length first.entry.owners.now) b.entry.from a.entry.number b.entry.number) result }
{
    let n = first.owners.len();
    let n2 = second.owners.len();
    let mut cells = [0; ROOM];
    let mut room = [0; HALF];
    let mut ps = [0; ROOM];
    let mut back = [0; ROOM];
    couple(
        found,
        a,
        first,
        b,
        second,
        &mut cells[..n],
        &mut room,
        &mut ps[..n2],
        &mut back[..n],
    )
}

// The same, with no more room than the rows need.
fn couple_of(found: Found, a: Object, first: Columns, b: Object, second: Columns) -> Found
    requires { (Coupled a.from first.owners.now first.steps.now × Coupled b.from second.owners.now second.steps.now) × Bounded first.owners.now first.steps.now }
    ensures { ToldAlso found (pair_records a.entry.side.text.now a.entry.side.definitions.now a.entry.side.values.now b.entry.side.text.now b.entry.side.definitions.now b.entry.side.values.now (partners first.entry.owners.now first.entry.steps.now [] second.entry.owners.now second.entry.steps.now) a.entry.from (length first.entry.owners.now) b.entry.from a.entry.number b.entry.number) result }
{
    if first.owners.len() <= super::FEW && second.owners.len() <= super::FEW {
        couple_in::<{ super::FEW }, { super::HALF_FEW }>(found, a, first, b, second)
    } else {
        couple_in::<{ value::MOST }, { super::HALF_MOST }>(found, a, first, b, second)
    }
}

// The same, where the columns are made in these rooms.
fn pair(
    found: Found,
    a: Object,
    owners: &mut [usize],
    steps: &mut [usize],
    b: Object,
    owners2: &mut [usize],
    steps2: &mut [usize],
) -> Found
    requires { Coupled a.from owners.old steps.old × Coupled b.from owners2.old steps2.old }
    ensures { ToldAlso found (pair_records a.entry.side.text.now a.entry.side.definitions.now a.entry.side.values.now b.entry.side.text.now b.entry.side.definitions.now b.entry.side.values.now (pair_partners a.entry.side.definitions.now a.entry.side.values.now a.entry.names.now a.entry.from (length owners.old) b.entry.side.definitions.now b.entry.side.values.now b.entry.names.now b.entry.from (length owners2.old)) a.entry.from (length owners.old) b.entry.from a.entry.number b.entry.number) result }
{
    columns::columns_of(a, owners, steps);
    columns::columns_of(b, owners2, steps2);
    let first = Columns { owners, steps };
    let second = Columns {
        owners: owners2,
        steps: steps2,
    };
    couple_of(found, a, first, b, second)
}

// The records of a pair of objects of at most so many rows each.
fn pair_in<const ROOM: usize>(found: Found, a: Object, b: Object) -> Found
    requires { ((a.many ≤ ROOM) × (b.many ≤ ROOM) × (ROOM ≤ 2048)) × ((a.from ≤ 2048) × (b.from ≤ 2048)) }
    ensures { ToldAlso found (pair_records a.entry.side.text.now a.entry.side.definitions.now a.entry.side.values.now b.entry.side.text.now b.entry.side.definitions.now b.entry.side.values.now (pair_partners a.entry.side.definitions.now a.entry.side.values.now a.entry.names.now a.entry.from a.entry.many b.entry.side.definitions.now b.entry.side.values.now b.entry.names.now b.entry.from b.entry.many) a.entry.from a.entry.many b.entry.from a.entry.number b.entry.number) result }
{
    let mut owners = [0; ROOM];
    let mut steps = [0; ROOM];
    let mut owners2 = [0; ROOM];
    let mut steps2 = [0; ROOM];
    pair(
        found,
        a,
        &mut owners[..a.many],
        &mut steps[..a.many],
        b,
        &mut owners2[..b.many],
        &mut steps2[..b.many],
    )
}

// The records of a pair of objects, with no more room than their rows need.
pub fn pair_of(found: Found, a: Object, b: Object) -> Found
    requires { ((a.many ≤ 2048) × (b.many ≤ 2048)) × ((a.from ≤ 2048) × (b.from ≤ 2048)) }
    ensures { ToldAlso found (pair_records a.entry.side.text.now a.entry.side.definitions.now a.entry.side.values.now b.entry.side.text.now b.entry.side.definitions.now b.entry.side.values.now (pair_partners a.entry.side.definitions.now a.entry.side.values.now a.entry.names.now a.entry.from a.entry.many b.entry.side.definitions.now b.entry.side.values.now b.entry.names.now b.entry.from b.entry.many) a.entry.from a.entry.many b.entry.from a.entry.number b.entry.number) result }
{
    if a.many <= super::FEW && b.many <= super::FEW {
        pair_in::<{ super::FEW }>(found, a, b)
    } else {
        pair_in::<{ value::MOST }>(found, a, b)
    }
}
