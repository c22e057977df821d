// The object of a kind and name.
ghost use Rattle.std.specs.Prelude.{◌≡◌};
ghost use Rattle.rows.specs.Search.{find_from};
ghost use Rattle.attribute_values.specs.Rows.{called_at};

use layout::object;
use rows::{cells, parts};

// Whether object i has this kind word and this name.
fn is_called(text: &[u8], o: &[usize], i: usize, kind: &[u8], name: &[u8]) -> bool
    ensures { result ≡ called_at text.now o.now kind.now name.now i }
{
    let word = cells::cell_of(o, object::LENT_WIDTH, i, object::WORD);
    let size = cells::cell_of(o, object::LENT_WIDTH, i, object::WORD_LENGTH);
    if !parts::same_bytes(token::part(text, word, size), kind) {
        return false;
    }
    let place = cells::cell_of(o, object::LENT_WIDTH, i, object::NAME);
    let length = cells::cell_of(o, object::LENT_WIDTH, i, object::NAME_LENGTH);
    parts::same_bytes(token::part(text, place, length), name)
}

// The first of m objects that has this kind word and this name.
pub fn find_object(text: &[u8], o: &[usize], m: usize, kind: &[u8], name: &[u8]) -> Option<usize>
    ensures { result ≡ find_from (called_at text.now o.now kind.now name.now) m 0 }
{
    for i in 0..m {
        if is_called(text, o, i, kind, name) {
            return Some(i);
        }
    }
    None
}
