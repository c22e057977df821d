// Characters of bytes that may be UTF-8.
ghost use Rattle.std.specs.Prelude.{◌≡◌};
ghost use Rattle.explaining.specs.Characters.{begun_by, lowest_in, highest_in, rest_of, state_after, state_of, start_of, starts, characters};

// The state after a byte that begins a character.
fn begun(b: u8) -> u8
    ensures { result ≡ begun_by b }
{
    if b < 128 {
        return 0;
    }
    if b < 194 {
        return 8;
    }
    if b < 224 {
        return 1;
    }
    if b < 225 {
        return 4;
    }
    if b < 237 {
        return 2;
    }
    if b < 238 {
        return 5;
    }
    if b < 240 {
        return 2;
    }
    if b < 241 {
        return 6;
    }
    if b < 244 {
        return 3;
    }
    if b < 245 {
        return 7;
    }
    8
}

// The lowest byte that goes on in a state.
fn lowest(state: u8) -> u8
    ensures { result ≡ lowest_in state }
{
    if state == 4 {
        return 160;
    }
    if state == 6 {
        return 144;
    }
    128
}

// The highest one.
fn highest(state: u8) -> u8
    ensures { result ≡ highest_in state }
{
    if state == 5 {
        return 159;
    }
    if state == 7 {
        return 143;
    }
    191
}

// The state after a byte that goes on.
fn rest(state: u8) -> u8
    ensures { result ≡ rest_of state }
{
    if state < 2 {
        return 0;
    }
    if state == 2 {
        return 1;
    }
    if state == 3 {
        return 2;
    }
    if state < 6 {
        return 1;
    }
    2
}

// The state after a byte.
fn after(state: u8, b: u8) -> u8
    ensures { result ≡ state_after state b }
{
    if state == 0 {
        return begun(b);
    }
    if state == 8 {
        return 8;
    }
    if b < lowest(state) {
        return 8;
    }
    if highest(state) < b {
        return 8;
    }
    rest(state)
}

// The state after all bytes.
fn state(bytes: &[u8]) -> u8
    ensures { result ≡ state_of 0 bytes.now }
{
    let mut k = 0;
    for b in bytes {
        k = after(k, *b);
    }
    k
}

// 1 for a byte that begins a character, 0 for one that goes on in it.
fn start(b: u8) -> usize
    ensures { result ≡ start_of b }
{
    if b < 128 {
        return 1;
    }
    if b < 192 {
        return 0;
    }
    1
}

// How many bytes begin a character.
fn count(bytes: &[u8]) -> usize
    ensures { result ≡ starts bytes.now }
{
    let mut n = 0;
    for b in bytes {
        n += start(*b);
    }
    n
}

// How many characters the bytes are, if they are UTF-8; else how many bytes.
pub fn characters(bytes: &[u8]) -> usize
    ensures { result ≡ characters bytes.now }
{
    if state(bytes) == 0 {
        return count(bytes);
    }
    bytes.len()
}
