// The fault that answers among many, by value: the leftmost place, then the smaller number.
ghost use Rattle.std.specs.Prelude.{◌≡◌};
ghost use Rattle.rows.specs.Order.{sooner, fault_if, before};
ghost use Rattle.rows.specs.Search.{is_found};

use super::Fault;

// Whether a answers rather than b. Any fault answers rather than one of number 0, which is none.
pub fn comes_before(a: Fault, b: Fault) -> bool
    ensures { result ≡ before a b }
{
    if a.number == 0 {
        return b.number == 0 && b.place < a.place;
    }
    if b.number == 0 {
        return true;
    }
    a < b
}

// The one that answers.
pub fn sooner(a: Option<Fault>, b: Option<Fault>) -> Option<Fault>
    ensures { result ≡ sooner a b }
{
    match (a, b) {
        (Some(x), Some(y)) => Some(if comes_before(y, x) { y } else { x }),
        (None, _) => b,
        (_, None) => a,
    }
}

// The fault, if the test holds.
pub fn fault_if(test: bool, number: u8, place: usize) -> Option<Fault>
    ensures { result ≡ fault_if test number place }
{
    if test {
        Some(Fault { number, place })
    } else {
        None
    }
}

// The fault, if something was found.
pub fn fault_found(found: Option<usize>, number: u8, place: usize) -> Option<Fault>
    ensures { result ≡ fault_if (is_found found) number place }
{
    match found {
        Some(_) => Some(Fault { number, place }),
        None => None,
    }
}
