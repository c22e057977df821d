// For each file named, with the files that it includes, a line with its name, the version string and the implementation's name of its text, or with
// its name, `refused`, the refusal's number, and text and byte of its place, separated by tabs; a file that cannot be opened or read is said to be so.
// Without arguments the text is that on standard input, whose name is `-`. Bytes of names and strings that are no plain characters of ASCII, and `\`,
// are shown as `\x` and two hex digits.
#![tactic(auto)]

use console::arguments::Asked;
use console::{Page, arguments, errors, whole, write};
use std::io::Read;

// The bytes of a place of the lent texts.
fn write_part(
    rt: HostRuntime,
    page: &mut Page,
    buffer: &[u8],
    lengths: &[usize],
    place: usize,
    length: usize,
) {
    console::write_shown(
        rt,
        page,
        sources::part(
            buffer,
            lengths,
            place / token::PLACES,
            place % token::PLACES,
            length,
        ),
    );
}

fn write_heading(
    rt: HostRuntime,
    page: &mut Page,
    buffer: &[u8],
    lengths: &[usize],
    origins: &mut [usize],
) {
    let mut expanded = [0; token::LONGEST];
    match heading_texts::heading(buffer, lengths, &mut expanded, origins) {
        Ok(h) => {
            write(rt, page, b"\t");
            write_part(rt, page, buffer, lengths, h.version_at, h.version_len);
            write(rt, page, b"\t");
            write_part(rt, page, buffer, lengths, h.name_at, h.name_len);
            write(rt, page, b"\n");
        }
        Err(f) => {
            write(rt, page, b"\t");
            console::write_refusal(rt, page, f.number, f.place);
        }
    }
}

// What the text of an open file says, which is called by a name.
fn write_text<R: Read>(rt: HostRuntime, page: &mut Page, from: &mut R, name: &[u8]) {
    let mut buffer = gathering::room();
    let mut lengths = [0; sources::LENGTHS];
    let mut origins = gathering::origin_cells();
    let told = gathering::gather_open(rt, from, name, &mut buffer, &mut lengths, &mut origins);
    if told < 2 {
        write(rt, page, b"\tcannot be read\n");
        return;
    }
    write_heading(rt, page, &buffer, &lengths[..told], &mut origins);
}

fn write_file(rt: HostRuntime, page: &mut Page, name: &[u8]) {
    console::write_shown(rt, page, name);
    match errors::open(rt, name) {
        Ok(mut file) => write_text(rt, page, &mut file, name),
        Err(_) => write(rt, page, b"\tcannot be opened\n"),
    }
}

// The line of the file that argument i names, written out at once.
fn write_argument(rt: HostRuntime, page: &mut Page, i: usize) {
    let mut name = [0u8; 4096];
    let n = arguments::argument(rt, i, &mut name);
    write_file(rt, page, &name[..n]);
    console::flush(rt, page);
}

fn write_files(rt: HostRuntime, page: &mut Page, count: usize) {
    for i in 1..=count {
        write_argument(rt, page, i);
    }
}

fn answer(rt: HostRuntime, page: &mut Page, names: usize) {
    if names == 0 {
        errors::say_waiting(rt);
        write(rt, page, b"-");
        write_text(rt, page, &mut rt.stdin(), b"standard input");
        return;
    }
    write_files(rt, page, names);
}

fn write_help(rt: HostRuntime, page: &mut Page) {
    write(
        rt,
        page,
        b"oil_heading [FILE..]: for each FILE, or standard input, its name, version string and implementation's name\n",
    );
}

fn main(rt: HostRuntime) {
    let mut page = [0; 360000];
    match arguments::given(rt, token::LONGEST) {
        Asked::Names(n) => answer(rt, &mut page, n),
        Asked::Help => write_help(rt, &mut page),
        Asked::Version => whole::write_version(rt),
        Asked::Wrong => errors::say_line(rt, b"usage: oil_heading [FILE..]; oil_heading --help\n"),
    }
    console::finish(rt, &mut page);
}
