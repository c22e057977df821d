// What a refusal of 13 to 16 or 18 means at a place: which attribute it is about.
use super::expected;
use console::{Page, write, write_shown};
use layout::word_codes;
use statement_causes::Attribute;
use token::{Cursor, Sort, Step};

// The word that stands at a place.
fn write_word_at(rt: HostRuntime, page: &mut Page, text: &[u8], place: usize) {
    let cursor = Cursor { at: place };
    match cursor.step(text) {
        Step::Found(t, _) => expected::write_bytes(rt, page, text, t.at, t.len),
        Step::Refused(_) => write(rt, page, b"of that name"),
        Step::End(_) => write(rt, page, b"of that name"),
    }
}

// The name of an attribute, its type and its range.
fn write_attribute(rt: HostRuntime, page: &mut Page, text: &[u8], a: Attribute) {
    expected::write_bytes(rt, page, text, a.name, a.name_len);
    write(rt, page, b", ");
    write_shown(rt, page, token::part(text, a.word, a.word_len));
    if a.range_len == 0 {
        return;
    }
    write(rt, page, b" ");
    if 40 < a.range_len {
        write(rt, page, b"[...]");
        return;
    }
    write_shown(rt, page, token::part(text, a.range, a.range_len));
}

// What an attribute takes whose type's word has this code.
fn write_takes(rt: HostRuntime, page: &mut Page, code: usize) {
    if code <= word_codes::LAST_TYPE {
        write(rt, page, b"it takes the name of an object, without braces");
        return;
    }
    if code <= word_codes::INT64 {
        write(rt, page, b"it takes a whole number in its range");
        return;
    }
    if code == word_codes::STRING {
        write(rt, page, b"it takes a string");
        return;
    }
    if code == word_codes::BOOLEAN {
        write(rt, page, b"it takes TRUE or FALSE");
        return;
    }
    if code == word_codes::ENUM {
        write(rt, page, b"it takes an enumerator of its list");
        return;
    }
    write(rt, page, b"it takes a float in its range");
}

// 15: AUTO where it is not allowed, or any other value.
fn write_value(rt: HostRuntime, page: &mut Page, code: usize, sort: Sort) {
    match sort {
        Sort::Word(n) => {
            if n as usize == word_codes::AUTO {
                write(rt, page, b"it has no WITH_AUTO");
                return;
            }
            write_takes(rt, page, code);
        }
        Sort::Number(_, _) => write_takes(rt, page, code),
        Sort::String => write_takes(rt, page, code),
        Sort::Punctuator(_) => write_takes(rt, page, code),
        Sort::Float(_, _, _) => write_takes(rt, page, code),
    }
}

fn write_cause(rt: HostRuntime, page: &mut Page, text: &[u8], code: usize, place: usize) {
    let cursor = Cursor { at: place };
    match cursor.step(text) {
        Step::Found(t, _) => {
            let sort = t.sort;
            write_value(rt, page, code, sort);
        }
        Step::Refused(_) => write_takes(rt, page, code),
        Step::End(_) => write_takes(rt, page, code),
    }
}

// 15 at a place.
fn write_misfit(rt: HostRuntime, page: &mut Page, text: &[u8], a: Attribute, place: usize) {
    write(rt, page, b"the value does not fit its attribute ");
    write_attribute(rt, page, text, a);
    write(rt, page, b": ");
    write_cause(rt, page, text, a.code, place);
}

// 18: the kind is the type's word without its last five bytes, `_TYPE`.
fn write_sought(rt: HostRuntime, page: &mut Page, text: &[u8], a: Attribute) {
    write(rt, page, b"the reference ");
    expected::write_bytes(rt, page, text, a.name, a.name_len);
    write(rt, page, b" names no object of its kind");
    if a.word_len < 5 {
        return;
    }
    write(rt, page, b", ");
    write_shown(rt, page, token::part(text, a.word, a.word_len - 5));
}

// 14.
fn write_again(rt: HostRuntime, page: &mut Page, text: &[u8], a: Attribute) {
    write(rt, page, b"the attribute ");
    expected::write_bytes(rt, page, text, a.name, a.name_len);
    write(
        rt,
        page,
        b" is no list and is stated again, in its braces or in a part of its object",
    );
}

// 16: the name of the attribute that is missing stands at a place.
fn write_missing(rt: HostRuntime, page: &mut Page, text: &[u8], missing: usize) {
    write(rt, page, b"the attribute ");
    write_word_at(rt, page, text, missing);
    write(
        rt,
        page,
        b" of this object or value must be stated and is not",
    );
}

// What a refusal of 13 to 16 or 18 means at a place.
pub fn write_which(rt: HostRuntime, page: &mut Page, text: &[u8], number: u8, place: usize) {
    let told = statement_causes::tell(text, place);
    let a = told.attribute;
    match number {
        13 => write(rt, page, b"the name is not defined in its scope"),
        14 => write_again(rt, page, text, a),
        15 => write_misfit(rt, page, text, a, place),
        16 => write_missing(rt, page, text, told.missing),
        _ => write_sought(rt, page, text, a),
    }
}

// The place that belongs to it: of 13 the word of the scope, of 14 where it is stated first, else where the attribute is defined.
pub fn second_of(text: &[u8], number: u8, place: usize) -> usize {
    let told = statement_causes::tell(text, place);
    let a = told.attribute;
    match number {
        13 => told.scope,
        14 => told.first,
        16 => told.missing,
        _ => a.name,
    }
}

// What is said of that place.
pub fn write_label(rt: HostRuntime, page: &mut Page, number: u8) {
    match number {
        13 => write(rt, page, b"this is its scope\n"),
        14 => write(rt, page, b"it is stated first here\n"),
        15 | 16 | 18 => write(rt, page, b"the attribute is defined here\n"),
        _ => write(rt, page, b"it stands first here\n"),
    }
}
