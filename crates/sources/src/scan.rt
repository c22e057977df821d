// Whether a byte stands in a text, and where a line begins.
ghost use Rattle.std.specs.Prelude.{◌≡◌, ◌≤◌, length};
ghost use Rattle.token.specs.Find.{either};
ghost use Rattle.sources.specs.Lines.{line_start};
ghost use Rattle.sources.specs.Plain.{holds};

// Whether one of two is so.
fn either(a: bool, b: bool) -> bool
    ensures { result ≡ either a b }
{
    a || b
}

// Whether the byte b stands in a text. The loop has one end only, so that many bytes are looked at in one step.
pub fn holds(text: &[u8], b: u8) -> bool
    ensures { result ≡ holds b text.now }
{
    let mut seen = false;
    for i in 0..text.len() {
        seen = either(seen, text[i] == b);
    }
    seen
}

// Where the line begins that a place is on.
pub fn line_start(text: &[u8], at: usize) -> usize
    requires { at ≤ length text.now }
    ensures { result ≡ line_start text.now at }
{
    for i in (0..at).rev() {
        if text[i] == b'\n' {
            return i + 1;
        }
    }
    0
}
