// Files by their names, which std takes as UTF-8.
use std::fs::File;
use std::io::{Error, Result};
use std::{fs, str};

// The longest name that the system takes.
const LONGEST: usize = 4095;

// The system's numbers of errors: a name that is no name of a file, one that is too long, and one that is not UTF-8.
const INVALID: i32 = 22;

const TOO_LONG: i32 = 36;

const NOT_UTF_8: i32 = 84;

// The error of a name that std refuses without asking the system, since a NUL is in it.
fn with_number(error: Error) -> Error {
    if error.raw_os_error().is_some() {
        return error;
    }
    Error::from_raw_os_error(INVALID)
}

// Opens a file for reading. An error has the system's number.
pub fn open(rt: HostRuntime, name: &[u8]) -> Result<File> {
    if LONGEST < name.len() {
        return Err(Error::from_raw_os_error(TOO_LONG));
    }
    match str::from_utf8(name) {
        Ok(path) => fs::open(&rt, path).map_err(with_number),
        Err(_) => Err(Error::from_raw_os_error(NOT_UTF_8)),
    }
}
