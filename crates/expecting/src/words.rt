// Document 01's words for the terminals, in the order of the flags, and for the text's end.
ghost use Rattle.std.specs.Prelude.{◌≡◌, length};
ghost use Rattle.expecting.specs.Words.{word_of, padded};

// The room for the letters of a word.
const WIDTH: usize = 24;

// The words, with blanks after them.
const LETTERS: [[u8; WIDTH]; super::TERMINALS] = [
    *b"a name                  ",
    *b"a kind                  ",
    *b"a kind followed by _TYPE",
    *b"an integer type         ",
    *b"OIL_VERSION             ",
    *b"IMPLEMENTATION          ",
    *b"CPU                     ",
    *b"STRING                  ",
    *b"BOOLEAN                 ",
    *b"ENUM                    ",
    *b"FLOAT                   ",
    *b"a number                ",
    *b"a string                ",
    *b"a float                 ",
    *b"TRUE                    ",
    *b"FALSE                   ",
    *b"AUTO                    ",
    *b"NO_DEFAULT              ",
    *b"WITH_AUTO               ",
    *b"`{`                     ",
    *b"`}`                     ",
    *b"`[`                     ",
    *b"`]`                     ",
    *b"`=`                     ",
    *b"`;`                     ",
    *b"`:`                     ",
    *b"`,`                     ",
    *b"`..`                    ",
    *b"the end of the text     ",
];

// How many letters each has.
const LENGTHS: [usize; super::TERMINALS] = [
    6, 6, 24, 15, 11, 14, 3, 6, 7, 4, 5, 8, 8, 7, 4, 5, 4, 10, 9, 3, 3, 3, 3, 3, 3, 3, 3, 4, 19,
];

// The letters of the word for the flag i, and blanks after them; blanks alone for any other number.
pub fn letters_of(i: usize) -> [u8; WIDTH]
    ensures { result ≡ padded (word_of i) }
{
    if i >= super::TERMINALS {
        return [b' '; WIDTH];
    }
    LETTERS[i]
}

// How many letters it has.
pub fn length_of(i: usize) -> usize
    ensures { result ≡ length (word_of i) }
{
    if i >= super::TERMINALS {
        return 0;
    }
    LENGTHS[i]
}
