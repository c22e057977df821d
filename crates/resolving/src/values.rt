// The values of words.
ghost use Rattle.std.specs.Prelude.{◌≡◌, ◌≤◌};
ghost use Rattle.meaning.specs.Resolving.{number};
ghost use Rattle.meaning.specs.Actions.{num_of_step};
ghost use Rattle.token.specs.Tokens.{step_at};
ghost use Rattle.resolving.specs.Written.{Holds};
ghost use Rattle.resolving.specs.Noted.{InKnown, InIndexes, InDefaults};
ghost use Rattle.resolving.specs.Promises.{NamedValue, ValueOf, PutValue};

use super::{Held, Notes, Owner, words};
use amounts::defaults;
use layout::{definition, value, word_codes};
use rows::cells;

// The number at a place, of the attribute of row j.
fn number_value(t: Notes, j: usize, at: usize) -> Held
    requires { InKnown t }
    ensures { Holds result (number (num_of_step (step_at t.entry.tables.text.now at))) }
{
    let n = defaults::number_at(t.tables.text, t.tables.definitions, t.known, j, at);
    Held::Number(n.negative, n.amount)
}

// The value of the name at a place, for the attribute of row j.
fn named_value(t: Notes, j: usize, at: usize, len: usize) -> Held
    requires { InIndexes t }
    ensures { let x = t.entry.tables in NamedValue x.text.now x.definitions.now x.enumerators.now x.objects.now x.sizes j at len result }
{
    let code = cells::cell_of(t.tables.definitions, definition::WIDTH, j, definition::CODE);
    if code == word_codes::ENUM {
        let Some(i) = words::enumerator_of(t, j, at, len) else {
            return Held::Enumerator(0);
        };
        return Held::Enumerator(i);
    }
    if code < word_codes::FIRST_TYPE {
        return Held::String;
    }
    if word_codes::LAST_TYPE < code {
        return Held::String;
    }
    let kind = code - word_codes::FIRST_TYPE;
    let Some(i) = lookups::find_object(
        t.tables.text,
        t.tables.objects,
        t.object_index,
        kind,
        at,
        len,
    ) else {
        return Held::Object(0);
    };
    Held::Object(i)
}

// The value of the word at a place, for the attribute of row j; the codes of words are 43 for a number, 44 for a string, 54 for a float, 1 and 2 for TRUE and
// FALSE, 3 for AUTO, 4 for NO_DEFAULT.
pub fn value_of(t: Notes, j: usize, at: usize, len: usize, code: usize) -> Held
    requires { InDefaults t }
    ensures { let x = t.entry.tables in ValueOf x.text.now x.definitions.now x.enumerators.now x.objects.now x.sizes j at len code result }
{
    if code == word_codes::NUMERAL {
        return number_value(t, j, at);
    }
    if code == word_codes::QUOTED {
        return Held::String;
    }
    if code == word_codes::TRUE {
        return Held::Truth(true);
    }
    if code == word_codes::FALSE {
        return Held::Truth(false);
    }
    if code == word_codes::AUTO {
        return Held::Auto;
    }
    if code == word_codes::NO_DEFAULT {
        return Held::Auto;
    }
    if code == word_codes::FLOATING {
        return Held::Float;
    }
    named_value(t, j, at, len)
}

// Puts row n: the value of the word at a place, for the attribute of row j.
pub fn put_value(
    t: Notes,
    v: &mut [usize],
    n: usize,
    w: Owner,
    j: usize,
    stated: usize,
    at: usize,
    len: usize,
    code: usize,
)
    requires { (n ≤ 2048) × InDefaults t }
    ensures { let x = t.entry.tables in PutValue x.text.now x.definitions.now x.enumerators.now x.objects.now v.old x.sizes n w j stated at len code v.new }
{
    let x = value_of(t, j, at, len, code);
    let owner_sort = w.sort();
    let owner = w.row();
    let sort = x.sort();
    let negative = x.negative();
    let amount = x.amount();
    let row = [
        j, owner_sort, owner, sort, negative, amount, stated, at, len,
    ];
    cells::put_cells(v, n * value::WIDTH, &row);
}
