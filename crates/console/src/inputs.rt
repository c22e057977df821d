// Reading a text: to its end, or until a read fails, which is not taken for its end.
ghost use Rattle.console.specs.Inputs.{Within};

use crate::{arguments, errors};
use std::io::Read;

// Reads to the start of a lent buffer: how many bytes came before the end of the text or of the room for it; or, where a read failed, the system's
// number of the error.
pub fn read<R: Read>(from: &mut R, buffer: &mut [u8]) -> Result<usize, usize>
    ensures { Within result buffer.new }
{
    let mut n = 0;
    // A `while`: each read moves as many bytes as come, so no range counts them.
    while n < buffer.len() {
        let more = match from.read(&mut buffer[n..]) {
            Ok(more) => more,
            Err(error) => return Err(errors::number_of(&error)),
        };
        if more == 0 {
            return Ok(n);
        }
        n += more;
    }
    Ok(n)
}

// Reads what is open, which is called by a name, and says so where a read failed.
pub fn read_open<R: Read>(
    rt: HostRuntime,
    from: &mut R,
    name: &[u8],
    buffer: &mut [u8],
) -> Result<usize, usize> {
    let came = read(from, buffer);
    if let Err(error) = came {
        errors::say_of(rt, name, b"cannot be read", error);
    }
    came
}

// Reads the file that argument i names, and says so where that fails.
pub fn read_named(rt: HostRuntime, i: usize, buffer: &mut [u8]) -> Result<usize, usize> {
    let mut name = [0u8; 4096];
    let n = arguments::argument(rt, i, &mut name);
    let mut file = errors::open(rt, &name[..n])?;
    read_open(rt, &mut file, &name[..n], buffer)
}

// Reads standard input where no file is named, else the first file named, and says so where that fails.
pub fn read_asked(rt: HostRuntime, names: usize, buffer: &mut [u8]) -> Result<usize, usize> {
    if names == 0 {
        errors::say_waiting(rt);
        return read_open(rt, &mut rt.stdin(), b"standard input", buffer);
    }
    read_named(rt, 1, buffer)
}
