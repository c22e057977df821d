// The value of one attribute of the text on standard input, or of the file named, by kind, object name and dotted path: `oil_value KIND NAME PATH [FILE]`.
// It is written as normal text has it, on a line; or the line is `not found`, or `refused`, the refusal's number and its place, a text's number and a
// byte, separated by tabs. The text is read alone.
#![tactic(auto)]

ghost use Rattle.console.specs.Counts.{IsPrefixLen};

use console::arguments::Asked;
use console::{arguments, errors, inputs, whole};
use std::rt::Env;

// No value is longer than a text may be, so that there is room for the line's end.
fn write_value(rt: HostRuntime, text: &[u8], kind: &[u8], name: &[u8], path: &[u8]) {
    let mut output = [0u8; token::PLACES];
    let told = exporting::kaukslini_value(text, kind, name, path, &mut output);
    if told.number == 0 {
        let end = console::put(&mut output, told.length, b"\n");
        whole::write(rt, token::part(&output, 0, end));
        return;
    }
    if told.number == exporting::NOT_FOUND {
        whole::write(rt, b"not found\n");
        return;
    }
    whole::write_refusal(rt, told.number, told.place);
}

// Argument i at the start of a lent word; its length, 0 where it is too long.
fn word(rt: HostRuntime, i: usize, word: &mut [u8]) -> usize
    ensures { IsPrefixLen result word.new }
{
    match rt.arg(i, word) {
        Ok(n) => n,
        Err(_) => 0,
    }
}

// The value that the first three arguments name. One that is too long is taken as empty, and names nothing then: a kind, a name or a path that stands in
// a text is shorter.
fn write_asked(rt: HostRuntime, text: &[u8]) {
    let mut kind = [0u8; 4096];
    let k = word(rt, 1, &mut kind);
    let mut name = [0u8; token::PLACES];
    let n = word(rt, 2, &mut name);
    let mut path = [0u8; token::PLACES];
    let p = word(rt, 3, &mut path);
    write_value(rt, text, &kind[..k], &name[..n], &path[..p]);
}

// Reads standard input where three arguments are given, else the file that the fourth names, and says so where that fails.
fn read_text(rt: HostRuntime, count: usize, buffer: &mut [u8]) -> Result<usize, usize> {
    if count == 3 {
        errors::say_waiting(rt);
        return inputs::read_open(rt, &mut rt.stdin(), b"standard input", buffer);
    }
    inputs::read_named(rt, 4, buffer)
}

fn write_usage(rt: HostRuntime) {
    whole::write(
        rt,
        b"usage: oil_value KIND NAME PATH, with a text on standard input\n",
    );
}

fn answer(rt: HostRuntime, count: usize) {
    if count < 3 {
        write_usage(rt);
        return;
    }
    let mut text = [0u8; token::PLACES];
    if let Ok(n) = read_text(rt, count, &mut text) {
        write_asked(rt, token::part(&text, 0, n));
    }
}

fn write_help(rt: HostRuntime) {
    whole::write(
        rt,
        b"oil_value KIND NAME PATH [FILE]: the value of one attribute of FILE, or of the text on standard input\n",
    );
}

fn main(rt: HostRuntime) {
    match arguments::given(rt, 4) {
        Asked::Names(n) => answer(rt, n),
        Asked::Help => write_help(rt),
        Asked::Version => whole::write_version(rt),
        Asked::Wrong => write_usage(rt),
    }
}
