// What is copied out of the tables for the matching, row by row.
ghost use Rattle.std.specs.Prelude.{◌≡◌, ◌+◌, ◌*◌, ◌≤◌, length};
ghost use Rattle.comparing.specs.Ordering.{Orderable};
ghost use Rattle.comparing.specs.Columns.{Holds, owner_cell, owner_from, name_from, step_cell, step_of_row, put_back, Backs, Columned, Roomy, Coupled};

use super::{Object, positions};
use layout::{definition, value};
use rows::cells;

// The numbers of names and rows are at most these.
const NAMES: usize = 1048576;

const ROWS: usize = 65536;

// The owner of row i, where the object's first row is r.
fn owner_at(v: &[usize], r: usize, i: usize) -> usize
    ensures { result ≡ owner_cell v.now r i }
{
    if cells::cell_of(v, value::WIDTH, i, value::OWNER_SORT) == value::OF_OBJECT {
        return 0;
    }
    let m = cells::least_of(cells::cell_of(v, value::WIDTH, i, value::OWNER), ROWS);
    if m < r {
        return 1;
    }
    m - r + 1
}

// The owners of the rows from row r on.
fn copy_owners(v: &[usize], r: usize, out: &mut [usize])
    requires { r + length out.old ≤ 65536 }
    ensures { Holds (owner_from v.now r) (length out.new) out.new }
{
    for (i, cell) in out.iter_mut().enumerate() {
        *cell = owner_at(v, r, r + i);
    }
}

// The numbers of their names, where h has those of the definitions.
fn copy_names(v: &[usize], h: &[usize], r: usize, out: &mut [usize])
    requires { r + length out.old ≤ 65536 }
    ensures { Holds (name_from v.now h.now r) (length out.new) out.new }
{
    for (i, cell) in out.iter_mut().enumerate() {
        let j = cells::cell_of(v, value::WIDTH, r + i, value::DEFINITION);
        *cell = cells::least_of(cells::get(h, j), NAMES);
    }
}

// The step of row i with this name and this position.
fn step_at(d: &[usize], v: &[usize], i: usize, name: usize, p: usize) -> usize
    ensures { result ≡ step_cell d.now v.now i name p }
{
    let j = cells::cell_of(v, value::WIDTH, i, value::DEFINITION);
    let mark = cells::least_of(
        cells::cell_of(d, definition::LENT_WIDTH, j, definition::LIST),
        1,
    );
    let a = cells::least_of(name, NAMES);
    let b = cells::least_of(p, ROWS);
    (a * 2 + mark) * value::MOST + b
}

// The steps of the rows from row r on, with these names and positions.
fn make_steps(
    d: &[usize],
    v: &[usize],
    names: &[usize],
    places: &[usize],
    r: usize,
    out: &mut [usize],
)
    requires { r + length out.old ≤ 65536 }
    ensures { Holds (step_of_row d.now v.now names.now places.now r) (length out.new) out.new }
{
    for (i, cell) in out.iter_mut().enumerate() {
        let a = cells::get(names, i);
        let p = cells::get(places, i);
        *cell = step_at(d, v, r + i, a, p);
    }
}

// One cell of the rows of partners.
fn put_back(back: &mut [usize], p: usize, b: usize)
    ensures { back.new ≡ put_back back.old p b }
{
    if p == 0 {
        return;
    }
    if back.len() < p {
        return;
    }
    back[p - 1] = b;
}

// Makes back the rows of the first object's partners, one more, or 0; r is the first row of the second object, whose partners are ps.
pub fn fill_back(ps: &[usize], r: usize, back: &mut [usize])
    requires { r + length ps.now ≤ 65536 }
    ensures { Backs ps.now r 0 back.new }
{
    cells::clear(back);
    for k in (0..ps.len()).rev() {
        put_back(back, ps[k], r + k + 1);
    }
}

// The owners and the steps of an object's rows, as many as there is room for.
fn object_columns(
    a: Object,
    owners: &mut [usize],
    names: &mut [usize],
    places: &mut [usize],
    steps: &mut [usize],
    x: &mut [usize],
    room: &mut [usize],
)
    requires { Roomy a.from owners.old names.old places.old steps.old × Orderable (length owners.old) x.old room.old }
    ensures { Columned a.entry.side.definitions.now a.entry.side.values.now a.entry.names.now a.entry.from (length owners.old) owners.new steps.new }
{
    copy_owners(a.side.values, a.from, owners);
    copy_names(a.side.values, a.names, a.from, names);
    positions::find_positions(owners, names, x, room, places);
    make_steps(
        a.side.definitions,
        a.side.values,
        names,
        places,
        a.from,
        steps,
    );
}

// The same, with room for the names and positions of so many rows.
fn columns_in<const ROOM: usize, const HALF: usize>(
    a: Object,
    owners: &mut [usize],
    steps: &mut [usize],
)
    requires { Coupled a.from owners.old steps.old × ((length owners.old ≤ ROOM) × (ROOM ≤ 2 * HALF + 1) × (ROOM ≤ 2048) × (HALF ≤ 1024)) }
    ensures { Columned a.entry.side.definitions.now a.entry.side.values.now a.entry.names.now a.entry.from (length owners.old) owners.new steps.new }
{
    let n = owners.len();
    let mut names = [0; ROOM];
    let mut places = [0; ROOM];
    let mut x = [0; ROOM];
    let mut room = [0; HALF];
    object_columns(
        a,
        owners,
        &mut names[..n],
        &mut places[..n],
        steps,
        &mut x[..n],
        &mut room,
    );
}

// The same, with no more room than the rows need.
pub fn columns_of(a: Object, owners: &mut [usize], steps: &mut [usize])
    requires { Coupled a.from owners.old steps.old }
    ensures { Columned a.entry.side.definitions.now a.entry.side.values.now a.entry.names.now a.entry.from (length owners.old) owners.new steps.new }
{
    if owners.len() <= super::FEW {
        columns_in::<{ super::FEW }, { super::HALF_FEW }>(a, owners, steps);
    } else {
        columns_in::<{ value::MOST }, { super::HALF_MOST }>(a, owners, steps);
    }
}
