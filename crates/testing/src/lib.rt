// What the tests in Rust ask of the proved layers, as functions that return plain numbers.
#![tactic(auto)]

ghost use Rattle.std.specs.Prelude.{◌≡◌};
ghost use Rattle.token.specs.Tokens.{step_at};
ghost use Rattle.testing.specs.Steps.{number_of_sort, detail_of_sort, sign_of_sort, sort_of, place_of, next_of, detail_of, sign_of, part_length};
ghost use Rattle.token.specs.Tokens.{part_place};

use token::{Cursor, Sort, Step};

mod compares;
mod events;
mod expects;
mod heads;
mod mends;
mod reads;
mod sets;
mod stage;
mod standards;
mod writes;

// The number of a token's sort.
fn number_of_sort(sort: Sort) -> u8
    ensures { result ≡ number_of_sort sort }
{
    match sort {
        Sort::Word(_) => 2,
        Sort::Number(_, _) => 3,
        Sort::String => 4,
        Sort::Punctuator(_) => 5,
        Sort::Float(_, _, _) => 6,
    }
}

// The number that a token's sort holds.
fn detail_of_sort(sort: Sort) -> u64
    ensures { result ≡ detail_of_sort sort }
{
    match sort {
        Sort::Word(code) => code as u64,
        Sort::Number(_, amount) => amount,
        Sort::String => 0,
        Sort::Punctuator(b) => b as u64,
        Sort::Float(_, digits, _) => digits,
    }
}

// Whether a token is a negative number.
fn sign_of_sort(sort: Sort) -> bool
    ensures { result ≡ sign_of_sort sort }
{
    match sort {
        Sort::Number(negative, _) => negative,
        Sort::Word(_) => false,
        Sort::String => false,
        Sort::Punctuator(_) => false,
        Sort::Float(negative, _, _) => negative,
    }
}

// What the step from a place finds: 0 the end, 1 the refusal, 2 a word, 3 a number, 4 a string, 5 a punctuator, 6 a float.
#[unsafe(no_mangle)]
pub extern "C" fn kaukslini_step_sort(text: &[u8], at: usize) -> u8
    ensures { result ≡ sort_of (step_at text.now at) }
{
    let cursor = Cursor { at };
    match cursor.step(text) {
        Step::Found(t, _) => {
            let sort = t.sort;
            number_of_sort(sort)
        }
        Step::Refused(_) => 1,
        Step::End(_) => 0,
    }
}

// The place of what the step from a place finds.
#[unsafe(no_mangle)]
pub extern "C" fn kaukslini_step_place(text: &[u8], at: usize) -> usize
    ensures { result ≡ place_of (step_at text.now at) }
{
    let cursor = Cursor { at };
    match cursor.step(text) {
        Step::Found(t, _) => t.at,
        Step::Refused(p) => p,
        Step::End(n) => n,
    }
}

// The place after the token that the step from a place finds; of the refusal and of the end their own place.
#[unsafe(no_mangle)]
pub extern "C" fn kaukslini_step_next(text: &[u8], at: usize) -> usize
    ensures { result ≡ next_of (step_at text.now at) }
{
    let cursor = Cursor { at };
    match cursor.step(text) {
        Step::Found(_, c) => c.at,
        Step::Refused(p) => p,
        Step::End(n) => n,
    }
}

// A word's code, a number's amount or a punctuator's byte; of anything else 0.
#[unsafe(no_mangle)]
pub extern "C" fn kaukslini_step_detail(text: &[u8], at: usize) -> u64
    ensures { result ≡ detail_of (step_at text.now at) }
{
    let cursor = Cursor { at };
    match cursor.step(text) {
        Step::Found(t, _) => {
            let sort = t.sort;
            detail_of_sort(sort)
        }
        Step::Refused(_) => 0,
        Step::End(_) => 0,
    }
}

// Whether the step from a place finds a negative number.
#[unsafe(no_mangle)]
pub extern "C" fn kaukslini_step_negative(text: &[u8], at: usize) -> bool
    ensures { result ≡ sign_of (step_at text.now at) }
{
    let cursor = Cursor { at };
    match cursor.step(text) {
        Step::Found(t, _) => {
            let sort = t.sort;
            sign_of_sort(sort)
        }
        Step::Refused(_) => false,
        Step::End(_) => false,
    }
}

// Where the part of a place and a length begins.
#[unsafe(no_mangle)]
pub extern "C" fn kaukslini_part_place(text: &[u8], at: usize, len: usize) -> usize
    ensures { result ≡ part_place text.now at len }
{
    if at <= text.len() {
        if len <= text.len() - at { at } else { 0 }
    } else {
        0
    }
}

// How long the part of a place and a length is.
#[unsafe(no_mangle)]
pub extern "C" fn kaukslini_part_length(text: &[u8], at: usize, len: usize) -> usize
    ensures { result ≡ part_length text.now at len }
{
    token::part(text, at, len).len()
}
