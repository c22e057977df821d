// The words of an ENUM of the implementation, compared with those of a list of the standard.
ghost use Rattle.std.specs.Prelude.{◌≡◌};
ghost use Rattle.standard.specs.Choices.{is_word, is_extra, has_extra};

use layout::enumerator;
use rows::{cells, parts};

// Whether one of the words of the rows from `first` on, below `end`, is this name.
fn is_word(section: &[u8], words: &[usize], first: usize, end: usize, name: &[u8]) -> bool
    ensures { result ≡ is_word section.now words.now first end name.now }
{
    for k in first..end {
        let at = cells::cell_of(words, 2, k, 0);
        let len = cells::cell_of(words, 2, k, 1);
        if parts::same_bytes(token::part(section, at, len), name) {
            return true;
        }
    }
    false
}

// Whether enumerator i is of the list with the key and is none of those words.
fn is_extra(
    text: &[u8],
    e: &[usize],
    section: &[u8],
    words: &[usize],
    first: usize,
    end: usize,
    key: usize,
    i: usize,
) -> bool
    ensures { result ≡ is_extra text.now e.now section.now words.now first end key i }
{
    if cells::cell_of(e, enumerator::WIDTH, i, enumerator::LIST) != key {
        return false;
    }
    let at = cells::cell_of(e, enumerator::WIDTH, i, enumerator::NAME);
    let len = cells::cell_of(e, enumerator::WIDTH, i, enumerator::NAME_LENGTH);
    !is_word(section, words, first, end, token::part(text, at, len))
}

// Whether one of the first m enumerators is so.
pub fn has_extra(
    text: &[u8],
    e: &[usize],
    section: &[u8],
    words: &[usize],
    first: usize,
    end: usize,
    key: usize,
    m: usize,
) -> bool
    ensures { result ≡ has_extra text.now e.now section.now words.now first end key m }
{
    for i in 0..m {
        if is_extra(text, e, section, words, first, end, key, i) {
            return true;
        }
    }
    false
}
