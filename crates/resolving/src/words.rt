// The enumerators that words are. Those of defaults are looked up once: a cell for each definition, one more than the enumerator's row, or 0.
ghost use Rattle.std.specs.Prelude.{length};
ghost use Rattle.lookups.specs.Answers.{EnumeratorIndexed};
ghost use Rattle.resolving.specs.Noted.{NotesWord, NotesTo, EnumeratorNoted, WordFound};

use super::Notes;
use layout::{definition, enumerator, word_codes};
use rows::cells;

// The cell of the default of row j; x is the index of the enumerators.
fn note_word(text: &[u8], d: &[usize], e: &[usize], x: &[usize], j: usize) -> usize
    ensures { NotesWord text.now d.now e.now x.now j result }
{
    let at = cells::cell_of(d, definition::WIDTH, j, definition::DEFAULT);
    let len = cells::cell_of(d, definition::WIDTH, j, definition::DEFAULT_LENGTH);
    let Some(i) = lookups::find_enumerator(text, d, e, x, j, at, len) else {
        return 0;
    };
    if 65536 <= i {
        return 0;
    }
    i + 1
}

// The cells of the first definitions, as many as t has.
pub fn note_words(text: &[u8], d: &[usize], e: &[usize], x: &[usize], t: &mut [usize])
    ensures { NotesTo text.now d.now e.now x.now (length t.new) t.new }
{
    for (i, cell) in t.iter_mut().enumerate() {
        *cell = note_word(text, d, e, x, i);
    }
}

// The enumerator of the list of the ENUM of row j that a word is, looked up.
fn find_enumerator(t: Notes, j: usize, at: usize, len: usize) -> Option<usize>
    ensures { let x = t.entry.tables in EnumeratorIndexed x.text.now x.definitions.now x.enumerators.now t.entry.enumerator_index.now j at len result }
{
    lookups::find_enumerator(
        t.tables.text,
        t.tables.definitions,
        t.tables.enumerators,
        t.enumerator_index,
        j,
        at,
        len,
    )
}

// The same, where the default of row j is noted.
pub fn enumerator_of(t: Notes, j: usize, at: usize, len: usize) -> Option<usize>
    ensures { let x = t.entry.tables in EnumeratorNoted x.text.now x.definitions.now x.enumerators.now t.entry.enumerator_index.now t.entry.words.now j at len result }
{
    let d = t.tables.definitions;
    let c = cells::get(t.words, j);
    if c == 0 {
        return find_enumerator(t, j, at, len);
    }
    if cells::cell_of(d, definition::WIDTH, j, definition::DEFAULT) != at {
        return find_enumerator(t, j, at, len);
    }
    if cells::cell_of(d, definition::WIDTH, j, definition::DEFAULT_LENGTH) != len {
        return find_enumerator(t, j, at, len);
    }
    Some(c - 1)
}

// The value word of the list of the attribute of row j that a word is; 0 for none.
pub fn word_of(t: Notes, j: usize, at: usize, len: usize) -> usize
    ensures { let x = t.entry.tables in WordFound x.text.now x.definitions.now x.enumerators.now t.entry.enumerator_index.now t.entry.words.now j at len result }
{
    let d = t.tables.definitions;
    let e = t.tables.enumerators;
    if cells::cell_of(d, definition::WIDTH, j, definition::CODE) != word_codes::ENUM {
        return lookups::word_under(t.tables.text, d, e, t.enumerator_index, j, at, len);
    }
    let Some(i) = enumerator_of(t, j, at, len) else {
        return 0;
    };
    cells::cell_of(e, enumerator::WIDTH, i, enumerator::NAME)
}
