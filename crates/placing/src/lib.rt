// Places of the expanded text become places of the lent texts, in the rows of the lent tables and in refusals.
#![tactic(auto)]

ghost use Rattle.std.specs.Prelude.{◌≡◌, [], ◌∷◌, ◌≤◌};
ghost use Rattle.token.specs.Find.{pick};
ghost use Rattle.placing.specs.Placed.{place_in, is_at_start};
ghost use Rattle.placing.specs.Columns.{place_at, place_column, place_columns, PlacesTables};

use layout::{definition, enumerator, object, value};
use rows::{cells, refusals};

const SHORT_TABLES: usize = refusals::SHORT_TABLES as usize;

const MANY_VALUES: usize = refusals::MANY_VALUES as usize;

const SHORT_OUTPUT: usize = refusals::SHORT_OUTPUT as usize;

const LONG_TEXTS: usize = refusals::LONG_TEXTS as usize;

// The place in the lent texts of a place of the expanded text, which has so many bytes with these origins; its end is the main text's.
pub fn place_in(origins: &[usize], size: usize, main: usize, place: usize) -> usize
    ensures { result ≡ place_in origins.now size main place }
{
    if place < size {
        return cells::get(origins, place);
    }
    main
}

// Whether the table of refusals places it at 0.
pub fn is_at_start(number: usize) -> bool
    ensures { result ≡ is_at_start number }
{
    if number == SHORT_TABLES {
        return true;
    }
    if number == MANY_VALUES {
        return true;
    }
    if number == SHORT_OUTPUT {
        return true;
    }
    number == LONG_TEXTS
}

// The place in the lent texts of a refusal: of those that the table of refusals places at 0 it is the main text's start.
pub fn place_numbered(
    origins: &[usize],
    size: usize,
    main: usize,
    number: usize,
    place: usize,
) -> usize
    ensures { result ≡ pick (is_at_start number) place (place_in origins.now size main place) }
{
    if is_at_start(number) {
        return place;
    }
    place_in(origins, size, main, place)
}

// The same of a number in one byte.
pub fn place_refused(origins: &[usize], size: usize, main: usize, number: u8, place: usize) -> usize
    ensures { result ≡ pick (is_at_start number) place (place_in origins.now size main place) }
{
    place_numbered(origins, size, main, number as usize, place)
}

// One cell of a table, a place, with the length in the next cell: where that is 0 there is no place.
fn place_at(table: &mut [usize], at: usize, origins: &[usize], size: usize, main: usize)
    ensures { table.new ≡ place_at (place_in origins.now size main) at table.old }
{
    if cells::cell(table, at, 1) == 0 {
        return;
    }
    table[at] = place_in(origins, size, main, table[at]);
}

// A column of so many rows.
fn place_column(
    table: &mut [usize],
    width: usize,
    column: usize,
    rows: usize,
    origins: &[usize],
    size: usize,
    main: usize,
)
    requires { (width ≤ 13) × ((column ≤ 12) × (rows ≤ 2048)) }
    ensures { table.new ≡ place_column (place_in origins.now size main) width column rows
        table.old }
{
    let mut at = column;
    for _ in 0..rows {
        place_at(table, at, origins, size, main);
        at += width;
    }
}

fn place_definitions(table: &mut [usize], origins: &[usize], size: usize, main: usize)
    ensures { table.new ≡ place_columns (place_in origins.now size main) 13 (0 ∷ 2 ∷ 4 ∷ 8 ∷ 10 ∷ [])
        512 table.old }
{
    place_column(
        table,
        definition::LENT_WIDTH,
        definition::UNDER,
        definition::MOST,
        origins,
        size,
        main,
    );
    place_column(
        table,
        definition::LENT_WIDTH,
        definition::NAME,
        definition::MOST,
        origins,
        size,
        main,
    );
    place_column(
        table,
        definition::LENT_WIDTH,
        definition::TYPE,
        definition::MOST,
        origins,
        size,
        main,
    );
    place_column(
        table,
        definition::LENT_WIDTH,
        definition::RANGE,
        definition::MOST,
        origins,
        size,
        main,
    );
    place_column(
        table,
        definition::LENT_WIDTH,
        definition::DEFAULT,
        definition::MOST,
        origins,
        size,
        main,
    );
}

fn place_objects(table: &mut [usize], origins: &[usize], size: usize, main: usize)
    ensures { table.new ≡ place_columns (place_in origins.now size main) 8 (1 ∷ 3 ∷ 5 ∷ []) 256
        table.old }
{
    place_column(
        table,
        object::LENT_WIDTH,
        object::WORD,
        object::MOST,
        origins,
        size,
        main,
    );
    place_column(
        table,
        object::LENT_WIDTH,
        object::NAME,
        object::MOST,
        origins,
        size,
        main,
    );
    place_column(
        table,
        object::LENT_WIDTH,
        object::BLOCK,
        object::MOST,
        origins,
        size,
        main,
    );
}

// The four tables.
pub fn place_tables(
    definitions: &mut [usize],
    enumerators: &mut [usize],
    objects: &mut [usize],
    values: &mut [usize],
    origins: &[usize],
    size: usize,
    main: usize,
)
    ensures { PlacesTables (place_in origins.now size main) definitions.old
        enumerators.old objects.old values.old definitions.new
        enumerators.new objects.new values.new }
{
    place_definitions(definitions, origins, size, main);
    place_column(
        enumerators,
        enumerator::WIDTH,
        enumerator::NAME,
        enumerator::MOST,
        origins,
        size,
        main,
    );
    place_objects(objects, origins, size, main);
    place_column(
        values,
        value::WIDTH,
        value::WORD,
        value::MOST,
        origins,
        size,
        main,
    );
}
