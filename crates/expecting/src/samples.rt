// The texts by which the stage is asked: see specs/Samples.
ghost use Rattle.std.specs.Prelude.{◌≡◌, ◌+◌, length, take};
ghost use Rattle.expecting.specs.Samples.{asking, Room};

use rows::cells;

// A token of each terminal, in the order of the flags, and none.
const SAMPLES: [[u8; WIDTH]; super::TERMINALS] = [
    *b"x               ",
    *b"TASK            ",
    *b"TASK_TYPE       ",
    *b"UINT32          ",
    *b"OIL_VERSION     ",
    *b"IMPLEMENTATION  ",
    *b"CPU             ",
    *b"STRING          ",
    *b"BOOLEAN         ",
    *b"ENUM            ",
    *b"FLOAT           ",
    *b"1               ",
    *b"\"\"              ",
    *b"1.0             ",
    *b"TRUE            ",
    *b"FALSE           ",
    *b"AUTO            ",
    *b"NO_DEFAULT      ",
    *b"WITH_AUTO       ",
    *b"{               ",
    *b"}               ",
    *b"[               ",
    *b"]               ",
    *b"=               ",
    *b";               ",
    *b":               ",
    *b",               ",
    *b"..              ",
    *b"                ",
];

// The bytes of a sample, and with the line feed before it.
const WIDTH: usize = 16;

pub const ROOM: usize = WIDTH + 1;

// Lays the text before the place, a line feed and the sample into the scratch.
pub fn lay(text: &[u8], place: usize, i: usize, scratch: &mut [u8])
    requires { Room text.now place i (length scratch.old) }
    ensures { take (place + 17) scratch.new ≡ asking text.now place i }
{
    cells::put_cells(&mut scratch[..place], 0, &text[..place]);
    scratch[place] = b'\n';
    cells::put_cells(&mut scratch[place + 1..place + ROOM], 0, &SAMPLES[i]);
}
