// A place of a text, told to a person: its line and column, and its line with a mark under the token there.
#![tactic(auto)]

ghost use Rattle.explaining.specs.Pictures.{Explains};

pub mod bounds;
mod characters;
mod drawing;
mod lines;
mod window;

// What is shown of the line of a place: the place, the bytes shown, and how many dots stand before and after them.
#[derive(Clone, Copy)]
pub struct View {
    pub at: usize,
    pub from: usize,
    pub to: usize,
    pub front: usize,
    pub behind: usize,
}

// How a byte is drawn: as it is shown, before the mark, or after the mark's first sign.
#[derive(Clone, Copy)]
pub enum Ink {
    Shown,
    Before,
    Marked,
}

// Line and column of a place, counted from 1, the column in characters where what stands before it is UTF-8, else in bytes; the length of the line
// shown, and of the two lines that show the place.
#[derive(Clone, Copy)]
pub struct Explained {
    pub line: usize,
    pub column: usize,
    pub shown: usize,
    pub len: usize,
}

// Tells where a place is, and writes its line and the mark's to the start of out, as far as it reaches. A place past the text is its end.
pub fn explain(text: &[u8], place: usize, out: &mut [u8]) -> Explained
    ensures { Explains text.now place out.old out.new result }
{
    let at = lines::inside(text, place);
    let line = lines::line_of(text, at);
    let column = lines::column_of(text, at);
    let end = lines::token_end(text, at);
    let view = window::view_of(text, at);
    let shown = drawing::draw_line(text, view, out);
    let len = drawing::draw_mark(text, view, end, out, shown);
    Explained {
        line,
        column,
        shown,
        len,
    }
}
