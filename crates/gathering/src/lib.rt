// Gathers the texts that a reader is lent (document 02, Q-10): the main text, and then each file that it can open of those newly named, in expanded
// order, at most eight texts in all.
#![tactic(auto)]

ghost use Rattle.std.specs.Prelude.{◌≡◌, ◌+◌, ◌≤◌, length, IfOk};
ghost use Rattle.console.specs.Counts.{IsPrefixLen};
ghost use Rattle.gathering.specs.Gathered.{Rooms, MainTold, Gathered, Fits};

use console::{arguments, errors, inputs};
use rows::cells;
use std::fs::File;
use std::io::Read;

// The longest name that can be opened.
const LONGEST_NAME: usize = 4095;

// The system's number of the error of a folder that is read as a file.
const IS_FOLDER: usize = 21;

// The room for the texts and their names: eight times a name of 4,095 bytes, the longest that can be opened, and 65,536 bytes of a text, one more than
// it may have, so that a longer one is refused.
pub const ROOM: usize = sources::TEXTS * (LONGEST_NAME + token::PLACES);

// The cells for origins while texts are gathered.
pub const ORIGINS: usize = token::LONGEST * 2;

// The room for the texts and their names, empty. A caller that lends it knows its length, and its proof does not look into so many cells.
pub fn room() -> [u8; ROOM]
    ensures { length result ≡ 557048 }
{
    [0; ROOM]
}

// The cells for origins, empty, likewise.
pub fn origin_cells() -> [usize; ORIGINS]
    ensures { length result ≡ 131070 }
{
    [0; ORIGINS]
}

// What was added: the length of the name, and of the text.
#[derive(Clone, Copy)]
pub struct Added {
    pub name: usize,
    pub text: usize,
}

// The bytes of an open file, at most 65,536, from a place of the buffer on; how many they are. A file that grows or shrinks while it is read has those
// that came. Where a read fails, the answer is the system's number of the error; here and below, nothing is promised then.
fn read_text<R: Read>(from: &mut R, buffer: &mut [u8], at: usize) -> Result<usize, usize>
    requires { at + 65536 ≤ length buffer.old }
    ensures { IfOk result (λ n. n ≤ 65536) }
{
    inputs::read(from, &mut buffer[at..at + token::PLACES])
}

// The name on the include line of a `#`, to the start of a lent one; its length, 0 where it does not fit.
fn copy_name(text: &[u8], hash: usize, name: &mut [u8]) -> usize
    ensures { IsPrefixLen result name.new }
{
    match sources::name_at(text, hash) {
        Some((from, to)) => {
            if to < from || name.len() < to - from {
                return 0;
            }
            let n = to - from;
            cells::put_cells(name, 0, token::part(text, from, n));
            n
        }
        None => 0,
    }
}

// The name of the first text that is missing, in expanded order, to the start of a lent one; its length, 0 where nothing is missing or the name cannot
// be that of a file. Where its include line begins after 65,535 bytes the expanded text is refused, whatever comes; a line that begins before that has
// its `#` among the first 131,070, since it lies in one text.
fn missing_name(buffer: &[u8], lengths: &[usize], origins: &mut [usize], name: &mut [u8]) -> usize
    ensures { IsPrefixLen result name.new }
{
    if sources::is_plain(buffer, lengths) {
        return 0;
    }
    let mut expanded = [0; 1];
    let e = sources::expand_gathering(buffer, lengths, &mut expanded, origins);
    if e.number != sources::refusals::NO_TEXT {
        return 0;
    }
    if ORIGINS <= e.place {
        return 0;
    }
    let origin = cells::get(origins, e.place);
    let text = sources::text_of(buffer, lengths, origin / token::PLACES);
    copy_name(text, origin % token::PLACES, name)
}

// Says of a file that it cannot be read. A folder is not added, as a file that cannot be opened; any other fault ends the gathering.
fn not_read(rt: HostRuntime, name: &[u8], error: usize) -> Result<Option<Added>, usize>
    ensures { IfOk result (λ added. Fits added) }
{
    errors::say_of(rt, name, b"cannot be read", error);
    if error == IS_FOLDER {
        return Ok(None);
    }
    Err(error)
}

// The name and the bytes of an open file, behind what is filled.
fn add_open(
    rt: HostRuntime,
    file: &mut File,
    name: &[u8],
    buffer: &mut [u8],
    at: usize,
) -> Result<Option<Added>, usize>
    requires { (length name.now ≤ 4095) × (at + 69631 ≤ length buffer.old) }
    ensures { IfOk result (λ added. Fits added) }
{
    cells::put_cells(buffer, at, name);
    match read_text(file, buffer, at + name.len()) {
        Ok(text) => Ok(Some(Added {
            name: name.len(),
            text,
        })),
        Err(error) => not_read(rt, name, error),
    }
}

fn add_named(
    rt: HostRuntime,
    name: &[u8],
    buffer: &mut [u8],
    at: usize,
) -> Result<Option<Added>, usize>
    requires { (length name.now ≤ 4095) × (at + 69631 ≤ length buffer.old) }
    ensures { IfOk result (λ added. Fits added) }
{
    match errors::open(rt, name) {
        Ok(mut file) => add_open(rt, &mut file, name, buffer, at),
        Err(_) => Ok(None),
    }
}

// The first missing text, after what is filled, if there is one and it can be opened.
fn add_missing(
    rt: HostRuntime,
    buffer: &mut [u8],
    lengths: &[usize],
    used: usize,
    origins: &mut [usize],
) -> Result<Option<Added>, usize>
    requires { used + 69631 ≤ length buffer.old }
    ensures { IfOk result (λ added. Fits added) }
{
    let mut name = [0u8; LONGEST_NAME];
    let n = missing_name(&buffer[..used], lengths, origins, &mut name);
    if n == 0 {
        return Ok(None);
    }
    add_named(rt, &name[..n], buffer, used)
}

// Adds to the main text, of so many bytes, each missing text that can be opened; how many lengths are told then. Where a read failed, that is one, and
// no text.
fn add_all(
    rt: HostRuntime,
    buffer: &mut [u8],
    lengths: &mut [usize],
    main: usize,
    origins: &mut [usize],
) -> usize
    requires { MainTold buffer.old lengths.old main }
    ensures counts { IsPrefixLen result lengths.new }
    ensures gathered { Gathered buffer.new lengths.new result }
{
    let mut used = main;
    for number in 1..sources::TEXTS {
        let told = number * 2;
        match add_missing(rt, buffer, &lengths[..told], used, origins) {
            Err(_) => return 1,
            Ok(None) => return told,
            Ok(Some(added)) => {
                lengths[told] = added.name;
                lengths[told + 1] = added.text;
                used = used + added.name + added.text;
            }
        }
    }
    sources::LENGTHS
}

// Gathers the texts of an open file, the main text, into a lent buffer: a name, its text, the next name and so on, the main text's name being empty.
// Their lengths are told in that order; returns how many these are, two for each text. Names are opened as they are written. Nothing is gathered from
// the first fault on that no text cures. Where the buffer is shorter than its room, the lengths are fewer than 16 or the origins fewer than 131,070,
// nothing is touched and nothing told. Where a read failed, that is said, the main text being called by the lent name, and one length is told: no text.
pub fn gather<R: Read>(
    rt: HostRuntime,
    from: &mut R,
    name: &[u8],
    buffer: &mut [u8],
    lengths: &mut [usize],
    origins: &mut [usize],
) -> usize
    ensures counts { IsPrefixLen result lengths.new }
    ensures gathered { Rooms buffer.old lengths.old origins.old → Gathered buffer.new lengths.new result }
{
    if buffer.len() < ROOM || lengths.len() < sources::LENGTHS || origins.len() < ORIGINS {
        return 0;
    }
    lengths[0] = 0;
    match read_text(from, buffer, 0) {
        Ok(n) => {
            lengths[1] = n;
            add_all(rt, buffer, lengths, n, origins)
        }
        Err(error) => {
            errors::say_of(rt, name, b"cannot be read", error);
            1
        }
    }
}

// Gathers the texts of what is open, as `gather` does, for a caller that asks only how many lengths are told: its own long buffers then stay out of
// the proof.
pub fn gather_open<R: Read>(
    rt: HostRuntime,
    from: &mut R,
    name: &[u8],
    buffer: &mut [u8],
    lengths: &mut [usize],
    origins: &mut [usize],
) -> usize
    ensures { IsPrefixLen result lengths.new }
{
    gather(rt, from, name, buffer, lengths, origins)
}

// Gathers the texts of the file that argument i names, as `gather` does. Where it cannot be opened, that is said, and nothing is told.
pub fn gather_named(
    rt: HostRuntime,
    i: usize,
    buffer: &mut [u8],
    lengths: &mut [usize],
    origins: &mut [usize],
) -> usize
    ensures { IsPrefixLen result lengths.new }
{
    let mut name = [0u8; 4096];
    let n = arguments::argument(rt, i, &mut name);
    match errors::open(rt, &name[..n]) {
        Ok(mut file) => gather(rt, &mut file, &name[..n], buffer, lengths, origins),
        Err(_) => 0,
    }
}

// Tells an empty main text alone; how many lengths that are.
pub fn tell_empty(lengths: &mut [usize]) -> usize
    ensures { IsPrefixLen result lengths.new }
{
    if lengths.len() < 2 {
        return 0;
    }
    lengths[0] = 0;
    lengths[1] = 0;
    2
}

// Gathers the texts of standard input, as `gather` does.
pub fn gather_input(
    rt: HostRuntime,
    buffer: &mut [u8],
    lengths: &mut [usize],
    origins: &mut [usize],
) -> usize
    ensures { IsPrefixLen result lengths.new }
{
    errors::say_waiting(rt);
    gather(
        rt,
        &mut rt.stdin(),
        b"standard input",
        buffer,
        lengths,
        origins,
    )
}

// Gathers the texts of standard input where no file is named, else of the first file named.
pub fn gather_asked(
    rt: HostRuntime,
    names: usize,
    buffer: &mut [u8],
    lengths: &mut [usize],
    origins: &mut [usize],
) -> usize
    ensures { IsPrefixLen result lengths.new }
{
    if names == 0 {
        return gather_input(rt, buffer, lengths, origins);
    }
    gather_named(rt, 1, buffer, lengths, origins)
}

// Gathers the same for a main text that is read already, of which at most 65,536 bytes are taken.
pub fn gather_text(
    rt: HostRuntime,
    text: &[u8],
    buffer: &mut [u8],
    lengths: &mut [usize],
    origins: &mut [usize],
) -> usize
    ensures counts { IsPrefixLen result lengths.new }
    ensures gathered { Rooms buffer.old lengths.old origins.old → Gathered buffer.new lengths.new result }
{
    if buffer.len() < ROOM || lengths.len() < sources::LENGTHS || origins.len() < ORIGINS {
        return 0;
    }
    let n = text.len().min(token::PLACES);
    cells::put_cells(buffer, 0, &text[..n]);
    lengths[0] = 0;
    lengths[1] = n;
    add_all(rt, buffer, lengths, n, origins)
}

// Where the name of a text begins: after the names and texts before it; the buffer's end where these do not lie inside.
fn name_start(buffer: &[u8], lengths: &[usize], number: usize) -> usize
    ensures { result ≤ length buffer.now }
{
    let before = number.saturating_mul(2).min(lengths.len());
    let mut at = 0;
    for n in &lengths[..before] {
        if buffer.len() - at < *n {
            return buffer.len();
        }
        at += *n;
    }
    at
}

// The name of a text, by its number.
pub fn name_of<'a>(buffer: &'a [u8], lengths: &[usize], number: usize) -> &'a [u8] {
    let at = name_start(buffer, lengths, number);
    token::part(buffer, at, cells::cell_of(lengths, 2, number, 0))
}

// Whether there is nothing wrong with what is read next, be it the end.
pub fn can_be_read<R: Read>(from: &mut R) -> bool {
    let mut byte = [0u8; 1];
    from.read(&mut byte).is_ok()
}
