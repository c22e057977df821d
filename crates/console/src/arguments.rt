// What the arguments of a program ask for.
ghost use Rattle.std.specs.Prelude.{◌≤◌};
ghost use Rattle.console.specs.Counts.{IsPrefixLen};

use std::env::FillError;
use std::rt::Env;

// So many names of files; or an option, which is the only argument; or something else.
#[derive(Clone, Copy)]
pub enum Asked {
    Names(usize),
    Help,
    Version,
    Wrong,
}

// Whether two words are the same.
pub fn is_same(word: &[u8], other: &[u8]) -> bool {
    word == other
}

// What the only argument asks for. A name that begins with `-` is written with its folder, as `./-`.
fn asked_by(word: &[u8]) -> Asked {
    if is_same(word, b"--help") {
        return Asked::Help;
    }
    if is_same(word, b"--version") {
        return Asked::Version;
    }
    if word.starts_with(b"-") {
        return Asked::Wrong;
    }
    Asked::Names(1)
}

fn asked_by_first(rt: HostRuntime) -> Asked {
    let mut word = [0u8; 4096];
    let n = argument(rt, 1, &mut word);
    asked_by(&word[..n])
}

// Whether there is an argument i; argument 0 is the program's name.
pub fn is_given(rt: HostRuntime, i: usize) -> bool {
    let mut start = [0u8; 1];
    match rt.arg(i, &mut start) {
        Ok(_) => true,
        Err(FillError::TooLong) => true,
        Err(FillError::NotPresent) => false,
    }
}

// How many arguments there are behind the program's name, of which at most so many are counted.
fn count(rt: HostRuntime, most: usize) -> usize
    ensures { result ≤ most }
{
    for n in 0..most {
        if !is_given(rt, n + 1) {
            return n;
        }
    }
    most
}

// What is asked of a program that takes at most so many names.
pub fn given(rt: HostRuntime, most: usize) -> Asked {
    let names = count(rt, most);
    if names == most && is_given(rt, most.saturating_add(1)) {
        return Asked::Wrong;
    }
    if names == 1 {
        return asked_by_first(rt);
    }
    Asked::Names(names)
}

// Argument i at the start of a lent name; its length. One that is too long fills it, and cannot be opened then.
pub fn argument(rt: HostRuntime, i: usize, name: &mut [u8]) -> usize
    ensures { IsPrefixLen result name.new }
{
    match rt.arg(i, name) {
        Ok(n) => n,
        Err(FillError::TooLong) => name.len(),
        Err(FillError::NotPresent) => 0,
    }
}
