// The bits that the masks of the other events of an event's tasks take, over the marks of the tasks.
ghost use Rattle.std.specs.Prelude.{◌≡◌, ◌+◌, get_or, eqb};
ghost use Rattle.masks.specs.Marks.{task_at, tasks_of, another, Gathers, GathersOne, GathersIn, GathersAll};

use layout::object;
use rows::cells;

// The tasks of a text: `rows` has the object row of each event, and the mark in column o of row t is set where the task of row t refers to the object
// of row o. The tasks are among the first `count` rows.
#[derive(Clone, Copy)]
pub struct Tasks<'a> {
    pub marks: &'a [u8],
    pub rows: &'a [usize],
    pub count: usize,
}

impl<'a> Tasks<'a> {
    // The bits that are taken for the event i.
    pub fn taken_bits(&self, i: usize, list: &[u64]) -> u64
        ensures { GathersAll (tasks_of self.now) i list.now result }
    {
        let marks = self.marks;
        let rows = self.rows;
        let count = self.count;
        let mut b = 0;
        for t in 0..count {
            b = gather_in(marks, rows, t, i, list, b);
        }
        b
    }
}

// Whether the mark in column x of the row that begins at a place is set; it is not where it lies past the end.
fn is_marked(marks: &[u8], at: usize, x: usize) -> bool
    ensures { result ≡ eqb (get_or marks.now (at + x) 0) 1 }
{
    if marks.len() <= at {
        return false;
    }
    if marks.len() - at <= x {
        return false;
    }
    marks[at + x] == 1
}

// Whether the task of row t has the event j.
fn has_event(marks: &[u8], rows: &[usize], t: usize, j: usize) -> bool
    ensures { result ≡ task_at marks.now rows.now t j }
{
    let x = cells::get(rows, j);
    let start = cells::row_start(marks.len(), object::MOST, t);
    is_marked(marks, start, x)
}

// Whether the event j is another than i, and of the task of row t.
fn is_another(marks: &[u8], rows: &[usize], t: usize, i: usize, j: usize) -> bool
    ensures { result ≡ another (task_at marks.now rows.now t) i j }
{
    if !has_event(marks, rows, t, j) {
        return false;
    }
    i != j
}

// The bits so far, and those of the mask n of the event j, where it is another than i and of the task of row t.
fn gather_one(marks: &[u8], rows: &[usize], t: usize, i: usize, j: usize, n: u64, a: u64) -> u64
    ensures { GathersOne (task_at marks.now rows.now t) i j n a result }
{
    if !is_another(marks, rows, t, i, j) {
        return a;
    }
    a | n
}

// The bits so far, and those of the masks of the other events of the task of row t.
fn gather(marks: &[u8], rows: &[usize], t: usize, i: usize, list: &[u64], a: u64) -> u64
    ensures { Gathers (task_at marks.now rows.now t) i list.now a result }
{
    let mut b = a;
    for (j, n) in list.iter().enumerate() {
        b = gather_one(marks, rows, t, i, j, *n, b);
    }
    b
}

// The same, where the task of row t has the event i.
fn gather_in(marks: &[u8], rows: &[usize], t: usize, i: usize, list: &[u64], a: u64) -> u64
    ensures { GathersIn (task_at marks.now rows.now t) i list.now a result }
{
    if !has_event(marks, rows, t, i) {
        return a;
    }
    gather(marks, rows, t, i, list, a)
}
