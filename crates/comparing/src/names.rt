// Numbers of names across two texts.
ghost use Rattle.std.specs.Prelude.{◌≡◌, length};
ghost use Rattle.comparing.specs.Naming.{Index, number_of_name};
ghost use Rattle.comparing.specs.Columns.{Holds, name_of};

use super::Side;
use layout::definition;
use rows::cells;

// The number of a name; x and x2 are the indexes of the definitions by name.
fn name_number(a: Side, x: &[usize], b: Side, x2: &[usize], word: &[u8]) -> usize
    requires { Index a.text.now a.definitions.now x.now × Index b.text.now b.definitions.now x2.now }
    ensures { result ≡ number_of_name a.entry.text.now a.entry.definitions.now x.now b.entry.text.now b.entry.definitions.now x2.now word.now }
{
    let first = indexes::rank_of(
        a.text,
        a.definitions,
        definition::LENT_WIDTH,
        definition::UNDER,
        definition::NAME,
        word,
        x,
    );
    let second = indexes::rank_of(
        b.text,
        b.definitions,
        definition::LENT_WIDTH,
        definition::UNDER,
        definition::NAME,
        word,
        x2,
    );
    first + second
}

// The number of the name of definition i of one of them.
fn name_of(a: Side, x: &[usize], b: Side, x2: &[usize], of: Side, i: usize) -> usize
    requires { Index a.text.now a.definitions.now x.now × Index b.text.now b.definitions.now x2.now }
    ensures { result ≡ name_of a.entry.text.now a.entry.definitions.now x.now b.entry.text.now b.entry.definitions.now x2.now of.entry.text.now of.entry.definitions.now i }
{
    let p = cells::cell_of(of.definitions, definition::LENT_WIDTH, i, definition::NAME);
    let n = cells::cell_of(
        of.definitions,
        definition::LENT_WIDTH,
        i,
        definition::NAME_LENGTH,
    );
    name_number(a, x, b, x2, token::part(of.text, p, n))
}

// Makes h the numbers of the names of its first definitions, as many as h has cells.
pub fn number_names(a: Side, x: &[usize], b: Side, x2: &[usize], of: Side, h: &mut [usize])
    requires { Index a.text.now a.definitions.now x.now × Index b.text.now b.definitions.now x2.now }
    ensures { Holds (name_of a.entry.text.now a.entry.definitions.now x.now b.entry.text.now b.entry.definitions.now x2.now of.entry.text.now of.entry.definitions.now) (length h.new) h.new }
{
    for (i, cell) in h.iter_mut().enumerate() {
        *cell = name_of(a, x, b, x2, of, i);
    }
}
