// Objects matched by kind and name.
ghost use Rattle.comparing.specs.Objecting.{FindsObject};

use super::Side;
use layout::object;
use rows::cells;

// The object of the second text with the kind and the name of object i of the first; x is the index of the second's objects.
pub fn find_object(a: Side, i: usize, b: Side, x: &[usize]) -> Option<usize>
    ensures { FindsObject a.entry.text.now a.entry.objects.now i b.entry.text.now b.entry.objects.now x.now result }
{
    let kind = cells::cell_of(a.objects, object::LENT_WIDTH, i, object::KIND);
    let p = cells::cell_of(a.objects, object::LENT_WIDTH, i, object::NAME);
    let n = cells::cell_of(a.objects, object::LENT_WIDTH, i, object::NAME_LENGTH);
    indexes::find_word(
        b.text,
        b.objects,
        object::LENT_WIDTH,
        object::KIND,
        kind,
        object::NAME,
        token::part(a.text, p, n),
        x,
    )
}
