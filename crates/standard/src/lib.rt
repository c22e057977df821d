// Whether an implementation defines the standard attributes (document 02, Q-9).
#![tactic(auto)]

ghost use Rattle.std.specs.Prelude.{◌≡◌};
ghost use Rattle.standard.specs.Heads.{NamesAt};
ghost use Rattle.standard.specs.Checking.{checked, verdict_of, AnswersText, ChecksAccepted};
ghost use Rattle.standard.specs.Rules.{ChecksByRules};

use layout::{definition, enumerator, object, part, statement, value};
use reading::Answer;
use rows::{Fault, counts};
use scopes::numbers;

pub mod attribute;
mod choices;
pub mod constants;
mod findings;
mod naming;
mod shapes;
mod spans;

// What is wrong: 25 or 26, its place, and the number of the standard attribute.
#[derive(Clone, Copy, Debug, PartialEq, Eq)]
pub struct Wrong {
    pub number: u8,
    pub place: usize,
    pub attribute: usize,
}

// How many definitions and enumerators an implementation has, and the places of its name and of its kinds' words (0: none).
#[derive(Clone, Copy)]
pub struct Known {
    pub definitions: usize,
    pub enumerators: usize,
    pub name: usize,
    pub places: [usize; counts::KINDS],
}

// A scope of the implementation: the word at which an attribute that it lacks is told, and the place of the word that its definitions stand under
// (0: there are none).
#[derive(Clone, Copy)]
pub struct Owner {
    pub word: usize,
    pub key: usize,
}

// What is told of an attribute: its place, 25 or 26, and the number of the standard attribute. The order is that in which one is told before another.
#[derive(Clone, Copy, PartialEq, Eq, PartialOrd, Ord)]
pub struct Told {
    pub place: usize,
    pub number: u8,
    pub attribute: usize,
}

// The text's own answer, with tables of its own.
fn answer_of(text: &[u8]) -> Answer
    ensures { AnswersText text.now result }
{
    let mut definitions = [0; definition::LENT];
    let mut enumerators = [0; enumerator::LENT];
    let mut objects = [0; object::LENT];
    let mut values = [0; value::LENT];
    let r = reading::read(
        text,
        &mut definitions,
        &mut enumerators,
        &mut objects,
        &mut values,
    );
    r.answer
}

// The place of the implementation's name, which stands after the word at a place.
fn name_at(text: &[u8], implementation: usize) -> usize
    ensures { NamesAt text.now implementation result }
{
    let word = numbers::item_at(text, implementation);
    let name = numbers::item_at(text, word.next);
    name.at
}

// What is told, if anything is.
fn verdict(told: Option<Told>) -> Option<Wrong>
    ensures { result ≡ verdict_of told }
{
    match told {
        Some(t) => Some(Wrong {
            number: t.number,
            place: t.place,
            attribute: t.attribute,
        }),
        None => None,
    }
}

// The answer for an accepted text: its rows are kept once more, in tables of its own.
fn check_accepted(text: &[u8]) -> Option<Wrong>
    ensures { ChecksAccepted text.now result }
{
    let mut d = [0; definition::KEPT];
    let mut e = [0; enumerator::KEPT];
    let mut o = [0; part::KEPT];
    let mut s = [0; statement::KEPT];
    let w = walk::walk(text, &mut d, &mut e, &mut o, &mut s);
    let name = name_at(text, w.implementation_at);
    let places = w.places;
    let x = Known {
        definitions: w.definitions,
        enumerators: w.enumerators,
        name,
        places,
    };
    let section = constants::section_text();
    let rows = constants::section_rows();
    let words = constants::section_words();
    verdict(findings::foremost(&section, &rows, &words, text, &d, &e, x))
}

// Whether the implementation of a text defines the standard attributes as section 5.2 of 000 does: what is wrong, or the text's refusal. For any bytes.
pub fn check_standard(text: &[u8]) -> Result<Option<Wrong>, Fault>
    ensures checks { result ≡ checked text.now }
    ensures rules { ChecksByRules text.now result }
{
    let answer = answer_of(text);
    match answer {
        Answer::Refused(number, place) => Err(Fault { number, place }),
        Answer::Accepted => Ok(check_accepted(text)),
    }
}
