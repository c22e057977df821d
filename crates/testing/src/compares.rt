// Two releases compared.
ghost use Rattle.releases.specs.Promises.{Compares};

use comparing::{Compared, Difference};

// The call as it is: the lent list and the answer go over as structs of C.
#[unsafe(no_mangle)]
pub extern "C" fn kaukslini_compare(
    first: &[u8],
    second: &[u8],
    list: &mut [Difference],
) -> Compared
    ensures { Compares first.now second.now list.old list.new result }
{
    releases::compare(first, second, list)
}
