// The texts of the corpus, data/NNN.oil, each with a line: its number, and `accepted` with length and checksum of its normal text, or `refused`
// with number, and text and byte of its place, separated by tabs.
#![tactic(auto)]

ghost use Rattle.std.specs.Prelude.{◌<◌};

use console::{Page, files, write, write_number};
use layout::{definition, enumerator, object, value};
use reading::Answer;
use std::fs::File;

// The checksum of the bytes so far, and one byte more.
fn onward(sum: usize, byte: u8) -> usize
    requires { sum < 4294967296 }
    ensures { result < 4294967296 }
{
    (sum * 31 + (byte as usize)) % 4294967296
}

// A number that changes with each byte and its place.
fn checksum(bytes: &[u8]) -> usize {
    let mut sum = 0;
    for byte in bytes {
        sum = onward(sum, *byte);
    }
    sum
}

fn write_accepted(rt: HostRuntime, page: &mut Page, normal: &[u8]) {
    write(rt, page, b"\taccepted\t");
    write_number(rt, page, normal.len());
    write(rt, page, b"\t");
    write_number(rt, page, checksum(normal));
    write(rt, page, b"\n");
}

fn write_refused(rt: HostRuntime, page: &mut Page, number: u8, place: usize) {
    write(rt, page, b"\t");
    console::write_refusal(rt, page, number, place);
}

fn write_answer(
    rt: HostRuntime,
    page: &mut Page,
    buffer: &[u8],
    lengths: &[usize],
    origins: &mut [usize],
) {
    let mut expanded = [0; token::LONGEST];
    let mut definitions = [0; definition::LENT];
    let mut enumerators = [0; enumerator::LENT];
    let mut objects = [0; object::LENT];
    let mut values = [0; value::LENT];
    let mut output = [0; token::LONGEST];
    let written = writing_texts::write(
        buffer,
        lengths,
        &mut expanded,
        origins,
        &mut definitions,
        &mut enumerators,
        &mut objects,
        &mut values,
        &mut output,
    );
    let length = written.length;
    let answer = written.answer;
    match answer {
        Answer::Accepted => write_accepted(rt, page, token::part(&output, 0, length)),
        Answer::Refused(number, place) => write_refused(rt, page, number, place),
    }
}

fn digit(n: usize) -> u8 {
    48 + ((n % 10) as u8)
}

fn write_file(rt: HostRuntime, page: &mut Page, mut file: File, name: &[u8], number: usize) {
    let mut buffer = gathering::room();
    let mut lengths = [0; sources::LENGTHS];
    let mut origins = gathering::origin_cells();
    let told = gathering::gather_open(rt, &mut file, name, &mut buffer, &mut lengths, &mut origins);
    if told < 2 {
        return;
    }
    write_number(rt, page, number);
    write_answer(rt, page, &buffer, &lengths[..told], &mut origins);
}

// The text of a name, where there is one.
fn write_named(rt: HostRuntime, page: &mut Page, name: &[u8], number: usize) {
    if let Ok(file) = files::open(rt, name) {
        write_file(rt, page, file, name, number);
    }
}

// The text of a number, where there is one.
fn write_vector(rt: HostRuntime, page: &mut Page, number: usize) {
    let name = [
        digit(number / 100),
        digit(number / 10),
        digit(number),
        46,
        111,
        105,
        108,
    ];
    write_named(rt, page, &name, number);
}

fn write_vectors(rt: HostRuntime, page: &mut Page) {
    for number in 0..1000 {
        write_vector(rt, page, number);
    }
}

fn main(rt: HostRuntime) {
    let mut page = [0; 360000];
    write_vectors(rt, &mut page);
    console::finish(rt, &mut page);
}
