// Where a place of the lent texts is: its file, and its line and column there; and its line with a mark under the token.
#![tactic(auto)]

use console::{Page, arguments, write, write_number};
use explaining::Explained;

// The name of the main text: that of the file that the first argument names; `-` for standard input.
fn write_main(rt: HostRuntime, page: &mut Page) {
    if !arguments::is_given(rt, 1) {
        write(rt, page, b"-");
        return;
    }
    let mut name = [0u8; 4096];
    let n = arguments::argument(rt, 1, &mut name);
    console::write_shown(rt, page, &name[..n]);
}

// The name of the file of a text.
fn write_file(rt: HostRuntime, page: &mut Page, buffer: &[u8], lengths: &[usize], number: usize) {
    if number == 0 {
        write_main(rt, page);
        return;
    }
    console::write_shown(rt, page, gathering::name_of(buffer, lengths, number));
}

// Writes the file of a place, its line and its column, and makes lines the line of the place and its mark; what is told of it.
pub fn write_position(
    rt: HostRuntime,
    page: &mut Page,
    buffer: &[u8],
    lengths: &[usize],
    place: usize,
    lines: &mut [u8],
) -> Explained {
    let number = place / token::PLACES;
    let text = sources::text_of(buffer, lengths, number);
    let told = explaining::explain(text, place % token::PLACES, lines);
    write_file(rt, page, buffer, lengths, number);
    write(rt, page, b":");
    write_number(rt, page, told.line);
    write(rt, page, b":");
    write_number(rt, page, told.column);
    write(rt, page, b": ");
    told
}

// The number of a line, in five columns: of 65,535 bytes there are no more lines.
fn write_line_number(rt: HostRuntime, page: &mut Page, line: usize) {
    if line < 10 {
        write(rt, page, b"    ");
    } else if line < 100 {
        write(rt, page, b"   ");
    } else if line < 1000 {
        write(rt, page, b"  ");
    } else if line < 10000 {
        write(rt, page, b" ");
    }
    write_number(rt, page, line);
}

// Writes the line of a place and its mark, after a gutter that is as wide as a tab.
pub fn write_lines(rt: HostRuntime, page: &mut Page, told: Explained, lines: &[u8]) {
    write_line_number(rt, page, told.line);
    write(rt, page, b" | ");
    write(rt, page, token::part(lines, 0, told.shown));
    write(rt, page, b"      | ");
    if told.len < told.shown {
        return;
    }
    write(
        rt,
        page,
        token::part(lines, told.shown, told.len - told.shown),
    );
}
