// Comparing bytes, and parts of a text.
ghost use Rattle.std.specs.Prelude.{◌≡◌, length, get_or};
ghost use Rattle.token.specs.Words.{same};
ghost use Rattle.token.specs.Tokens.{part_of};

// Whether a and b, which are as long and have the same first byte, are the same bytes.
fn same_rest(a: &[u8], b: &[u8]) -> bool
    requires { (length a.now ≡ length b.now) × (get_or a.now 0 0 ≡ get_or b.now 0 0) }
    ensures { result ≡ same a.now b.now }
{
    // Not `a == b`, which would compare the lengths and the first bytes again.
    for i in 1..a.len() {
        if a[i] != b[i] {
            return false;
        }
    }
    true
}

// Whether a and b are the same bytes: the lengths are compared first, then the first bytes, then the rest.
pub fn same_bytes(a: &[u8], b: &[u8]) -> bool
    ensures { result ≡ same a.now b.now }
{
    a.len() == b.len() && (a.is_empty() || a[0] == b[0] && same_rest(a, b))
}

// Whether two parts of the text are the same bytes; a part that does not lie inside is empty. The same part is not read.
pub fn same_part(text: &[u8], at: usize, len: usize, at2: usize, len2: usize) -> bool
    ensures { result ≡ same (part_of text.now at len) (part_of text.now at2 len2) }
{
    if at == at2 && len == len2 {
        return true;
    }
    same_bytes(token::part(text, at, len), token::part(text, at2, len2))
}
