// Which values of two objects match, by numbers: for each row its owner, 0 for the object and else one more than the owner's row, and the number
// of its step. Rows are counted from the object's first.
ghost use Rattle.std.specs.Prelude.{◌≡◌, length};
ghost use Rattle.comparing.specs.Ordering.{FindsStep, FindsPartner, FindsPartners};

use super::ordering;
use layout::value;
use rows::cells;

// One more than the first row with this owner and this step, or 0, among the rows whose cells are x.
fn find_step(x: &[usize], owner: usize, step: usize) -> usize
    ensures { FindsStep x.now owner step result }
{
    let k = ordering::key_of(owner, step);
    let p = ordering::first_place(x, k * value::MOST);
    if x.len() <= p {
        return 0;
    }
    let c = x[p];
    if c / value::MOST != k {
        return 0;
    }
    c % value::MOST + 1
}

// The partner of a row with this owner and this step, where the rows before it have these partners.
fn partner_of(x: &[usize], before: &[usize], owner: usize, step: usize) -> usize
    ensures { FindsPartner x.now before.now owner step result }
{
    if owner == 0 {
        return find_step(x, 0, step);
    }
    let p = cells::get(before, owner - 1);
    if p == 0 {
        return 0;
    }
    find_step(x, p, step)
}

// The partners of all rows of the second object; x has the cells of the first's.
pub fn find_partners(x: &[usize], owners2: &[usize], steps2: &[usize], out: &mut [usize])
    requires { (length steps2.now ≡ length owners2.now) × (length out.old ≡ length owners2.now) }
    ensures { FindsPartners x.now owners2.now steps2.now out.new }
{
    for i in 0..out.len() {
        out[i] = partner_of(x, &out[..i], owners2[i], steps2[i]);
    }
}
