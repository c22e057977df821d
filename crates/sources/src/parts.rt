// A lent text by its number.
ghost use Rattle.std.specs.Prelude.{◌≡◌, true};
ghost use Rattle.sources.specs.Texts.{fitting};
ghost use Rattle.sources.specs.Numbering.{span_of};

// The number of a text, and its bytes from a place of the buffer to another, if there is such a text.
pub fn span_of(buffer: &[u8], lengths: &[usize], number: usize) -> Option<(usize, usize, usize)>
    requires { fitting buffer.now 0 lengths.now ≡ true }
    ensures { result ≡ span_of lengths.now number }
{
    let mut at = 0;
    for k in 0..lengths.len() / 2 {
        let from = at + lengths[k * 2];
        let to = from + lengths[k * 2 + 1];
        if k == number {
            return Some((number, from, to));
        }
        at = to;
    }
    None
}
