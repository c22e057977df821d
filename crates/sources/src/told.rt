// The lent texts: names and texts stand one after the other in the buffer, a name, its text, the next name and so on; their lengths are told in
// that order.
ghost use Rattle.std.specs.Prelude.{◌≡◌};
ghost use Rattle.sources.specs.Texts.{fitting, told_well};

// Whether names and texts lie in the buffer, and no text is too long.
fn fitting(buffer: &[u8], lengths: &[usize]) -> bool
    ensures { result ≡ fitting buffer.now 0 lengths.now }
{
    let mut at = 0;
    for k in 0..lengths.len() / 2 {
        let n = lengths[k * 2];
        let t = lengths[k * 2 + 1];
        if buffer.len() - at < n {
            return false;
        }
        if buffer.len() - at - n < t {
            return false;
        }
        if token::LONGEST < t {
            return false;
        }
        at = at + n + t;
    }
    lengths.len() % 2 == 0
}

// Whether texts are lent as they have to be: at least one and at most eight.
pub fn told_well(buffer: &[u8], lengths: &[usize]) -> bool
    ensures { result ≡ told_well buffer.now lengths.now }
{
    if lengths.len() == 0 {
        return false;
    }
    if super::LENGTHS < lengths.len() {
        return false;
    }
    fitting(buffer, lengths)
}
