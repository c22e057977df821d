// Reads a text from standard input, or from the file named, and the files that it includes, and writes its normal text, or one line: `refused`, tab,
// number, tab, text, tab, byte. With two file names it compares the two texts, each with the files that it includes: a line for each difference, at
// most 64, and the total.
#![tactic(auto)]

ghost use Rattle.console.specs.Counts.{IsPrefixLen};

use comparing::Found;
use console::arguments::Asked;
use console::{Page, arguments, errors, inputs, whole, write, write_number};
use layout::{definition, enumerator, object, value};
use reading::Answer;
use writing::Written;

mod lines;

fn write_written(rt: HostRuntime, output: &[u8], written: Written) {
    let length = written.length;
    let answer = written.answer;
    match answer {
        Answer::Accepted => whole::write(rt, token::part(output, 0, length)),
        Answer::Refused(number, place) => whole::write_refusal(rt, number as usize, place),
    }
}

// The normal text of a text without a `#`, which is answered by itself as with what it includes (crates/sources_reading: PlainRead).
fn write_plain(rt: HostRuntime, text: &[u8]) {
    let mut definitions = [0; definition::LENT];
    let mut enumerators = [0; enumerator::LENT];
    let mut objects = [0; object::LENT];
    let mut values = [0; value::LENT];
    let mut output = [0; token::LONGEST];
    let written = writing::write(
        text,
        &mut definitions,
        &mut enumerators,
        &mut objects,
        &mut values,
        &mut output,
    );
    write_written(rt, &output, written);
}

// The normal text of lent texts.
fn write_expanded(rt: HostRuntime, buffer: &[u8], lengths: &[usize], origins: &mut [usize]) {
    let mut expanded = [0; token::LONGEST];
    let mut definitions = [0; definition::LENT];
    let mut enumerators = [0; enumerator::LENT];
    let mut objects = [0; object::LENT];
    let mut values = [0; value::LENT];
    let mut output = [0; token::LONGEST];
    let written = writing_texts::write(
        buffer,
        lengths,
        &mut expanded,
        origins,
        &mut definitions,
        &mut enumerators,
        &mut objects,
        &mut values,
        &mut output,
    );
    write_written(rt, &output, written);
}

// The normal text of a text with the files that it includes.
fn write_gathered(rt: HostRuntime, text: &[u8]) {
    let mut buffer = gathering::room();
    let mut lengths = [0; sources::LENGTHS];
    let mut origins = gathering::origin_cells();
    let told = gathering::gather_text(rt, text, &mut buffer, &mut lengths, &mut origins);
    if told < 2 {
        return;
    }
    write_expanded(rt, &buffer, &lengths[..told], &mut origins);
}

fn write_normal(rt: HostRuntime, text: &[u8]) {
    let alone = [0, text.len()];
    if sources::is_plain(text, &alone) {
        write_plain(rt, text);
        return;
    }
    write_gathered(rt, text);
}

// Gathers the texts of the file that argument i names. A file that cannot be opened is empty.
fn gather_named(rt: HostRuntime, i: usize, buffer: &mut [u8], lengths: &mut [usize]) -> usize
    ensures { IsPrefixLen result lengths.new }
{
    let mut origins = gathering::origin_cells();
    let told = gathering::gather_named(rt, i, buffer, lengths, &mut origins);
    if told == 0 {
        return gathering::tell_empty(lengths);
    }
    told
}

// The line of record k, if there is one.
fn write_record(
    rt: HostRuntime,
    page: &mut Page,
    first: &[u8],
    d: &[usize],
    o: &[usize],
    v: &[usize],
    second: &[u8],
    d2: &[usize],
    o2: &[usize],
    v2: &[usize],
    found: &Found,
    k: usize,
) {
    if comparing::RECORDS <= k {
        return;
    }
    if found.total <= k {
        return;
    }
    let r = found.records[k];
    lines::write_line(rt, page, first, d, o, v, second, d2, o2, v2, r);
}

// The lines of what was found, and the total.
fn write_records(
    rt: HostRuntime,
    page: &mut Page,
    first: &[u8],
    d: &[usize],
    o: &[usize],
    v: &[usize],
    second: &[u8],
    d2: &[usize],
    o2: &[usize],
    v2: &[usize],
    found: &Found,
) {
    for k in 0..comparing::RECORDS {
        write_record(rt, page, first, d, o, v, second, d2, o2, v2, found, k);
    }
    write(rt, page, b"total\t");
    write_number(rt, page, found.total);
    write(rt, page, b"\n");
}

// The same on a page of its own.
fn write_found(
    rt: HostRuntime,
    first: &[u8],
    d: &[usize],
    o: &[usize],
    v: &[usize],
    second: &[u8],
    d2: &[usize],
    o2: &[usize],
    v2: &[usize],
    found: &Found,
) {
    let mut page = [0; 360000];
    write_records(rt, &mut page, first, d, o, v, second, d2, o2, v2, found);
    console::finish(rt, &mut page);
}

// Compares lent texts. The lines are written from the expanded texts and the tables that they were read into.
fn compare_texts(
    rt: HostRuntime,
    first: &[u8],
    lengths: &[usize],
    second: &[u8],
    lengths2: &[usize],
) {
    let mut expanded = [0; token::LONGEST];
    let mut origins = [0; token::LONGEST];
    let mut expanded2 = [0; token::LONGEST];
    let mut origins2 = [0; token::LONGEST];
    let mut d = [0; definition::LENT];
    let mut e = [0; enumerator::LENT];
    let mut o = [0; object::LENT];
    let mut v = [0; value::LENT];
    let mut d2 = [0; definition::LENT];
    let mut e2 = [0; enumerator::LENT];
    let mut o2 = [0; object::LENT];
    let mut v2 = [0; value::LENT];
    let found = releases_texts::listed_into(
        first,
        lengths,
        second,
        lengths2,
        &mut expanded,
        &mut origins,
        &mut expanded2,
        &mut origins2,
        &mut d,
        &mut e,
        &mut o,
        &mut v,
        &mut d2,
        &mut e2,
        &mut o2,
        &mut v2,
    );
    let c = found.compared;
    if c.which != 0 {
        whole::write_refusal_of(rt, c.which, c.number, c.place);
        return;
    }
    write_found(rt, &expanded, &d, &o, &v, &expanded2, &d2, &o2, &v2, &found);
}

// Compares the texts of a file and those of the second one named.
fn compare_second(rt: HostRuntime, first: &[u8], lengths: &[usize]) {
    let mut second = gathering::room();
    let mut lengths2 = [0; sources::LENGTHS];
    let told = gather_named(rt, 2, &mut second, &mut lengths2);
    if told < 2 {
        return;
    }
    compare_texts(rt, first, lengths, &second, &lengths2[..told]);
}

fn compare_files(rt: HostRuntime) {
    let mut first = gathering::room();
    let mut lengths = [0; sources::LENGTHS];
    let told = gather_named(rt, 1, &mut first, &mut lengths);
    if told < 2 {
        return;
    }
    compare_second(rt, &first, &lengths[..told]);
}

// The answer to one text.
fn answer_text(rt: HostRuntime, names: usize) {
    let mut text = [0u8; token::PLACES];
    if let Ok(n) = inputs::read_asked(rt, names, &mut text) {
        write_normal(rt, token::part(&text, 0, n));
    }
}

fn answer(rt: HostRuntime, names: usize) {
    if names == 2 {
        compare_files(rt);
        return;
    }
    answer_text(rt, names);
}

fn write_help(rt: HostRuntime) {
    whole::write(
        rt,
        b"oil [FILE]: the normal text of FILE, or of standard input, or refused, number, text and byte\noil FIRST SECOND: how two files differ, a line each, and the total\n",
    );
}

fn main(rt: HostRuntime) {
    match arguments::given(rt, 2) {
        Asked::Names(n) => answer(rt, n),
        Asked::Help => write_help(rt),
        Asked::Version => whole::write_version(rt),
        Asked::Wrong => errors::say_line(
            rt,
            b"usage: oil [FILE] or oil FIRST SECOND; oil --help\n",
        ),
    }
}
