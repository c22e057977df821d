// What the grammar admits at a place.
ghost use Rattle.testing.specs.Expectations.{Flagged};

// The flag i of what the grammar admits at the place of a text; none for a number that no flag has.
#[unsafe(no_mangle)]
pub extern "C" fn kaukslini_expected(text: &[u8], place: usize, i: usize) -> bool
    ensures { Flagged text.now place i result }
{
    let flags = expecting::expected(text, place);
    if i < expecting::TERMINALS {
        return flags[i];
    }
    false
}
