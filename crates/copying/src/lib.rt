// From the rows kept while a text was read to the rows of the lent tables. A kept row of a definition or of an object begins with the cells of
// its lent row; a kept enumerator has the key of its list, where the lent row has its attribute's row.
#![tactic(auto)]

ghost use Rattle.copying.specs.Promises.{CopiesDefinitions, CopiesEnumerators, CopiesObjects};

use layout::{definition, object};

mod attributes;
mod heads;

// The definitions: 13 cells of 19.
pub fn copy_definitions(d: &[usize], n: usize, out: &mut [usize])
    ensures { CopiesDefinitions d.now n out.old out.new }
{
    heads::copy_rows(d, definition::WIDTH, n, definition::LENT_WIDTH, out);
}

// The m enumerators in e of the n definitions in d: 3 cells, the first of them the attribute's row.
pub fn copy_enumerators(d: &[usize], n: usize, e: &[usize], m: usize, out: &mut [usize])
    ensures { CopiesEnumerators d.now n e.now m out.old out.new }
{
    attributes::copy_attributed(d, n, e, m, out);
}

// The objects: 8 cells of 10.
pub fn copy_objects(o: &[usize], n: usize, out: &mut [usize])
    ensures { CopiesObjects o.now n out.old out.new }
{
    heads::copy_rows(o, object::WIDTH, n, object::LENT_WIDTH, out);
}
