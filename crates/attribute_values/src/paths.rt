// Steps of a path and the marks after their names.
ghost use Rattle.std.specs.Prelude.{◌≡◌};
ghost use Rattle.token.specs.Bytes.{find_byte};
ghost use Rattle.token.specs.Words.{same};
ghost use Rattle.attribute_values.specs.Paths.{entry_mark};

use rows::parts;
use writing::bytes;

// The first place of a byte at or after a place, or the length.
pub fn find_byte(path: &[u8], from: usize, b: u8) -> usize
    ensures { result ≡ find_byte b path.now from }
{
    for i in from..path.len() {
        if path[i] == b {
            return i;
        }
    }
    from.max(path.len())
}

// Whether a mark is `[`, the number in decimal and `]`.
pub fn is_mark(mark: &[u8], number: usize) -> bool
    ensures { result ≡ same mark.now (entry_mark number) }
{
    let mut room = [0u8; 32];
    let a = bytes::put_bytes(&mut room, 0, b"[");
    let b = bytes::put_decimal(&mut room, a, false, number);
    let e = bytes::put_bytes(&mut room, b, b"]");
    parts::same_bytes(mark, token::part(&room, 0, e))
}
