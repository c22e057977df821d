// Bytes, numbers and parts of the text, written into a lent output. Each function stores what fits and returns the place after, so that with an
// output of length 0 it only measures.
ghost use Rattle.std.specs.Prelude.{◌≡◌, [], ◌∷◌, ◌+◌, ◌<◌};
ghost use Rattle.std.proofs.lemmas.List.Edits.{sets};
ghost use Rattle.token.specs.Tokens.{part_of};
ghost use Rattle.meaning.specs.Normal.{digits_in, decimal};
ghost use Rattle.writing.specs.Wrote.{Wrote};

use rows::cells;

// No output is as long as this.
const CAP: usize = 0x8000_0000_0000_0000;

// Stores the bytes from a place on, as far as the output reaches.
fn store(out: &mut [u8], at: usize, bytes: &[u8])
    ensures { out.new ≡ sets out.old at bytes.now }
{
    let mut j = at;
    for byte in bytes {
        if out.len() <= j {
            return;
        }
        out[j] = *byte;
        j += 1;
    }
}

// The bytes.
pub fn put_bytes(out: &mut [u8], at: usize, bytes: &[u8]) -> usize
    ensures { Wrote out.old at bytes.now out.new result }
{
    store(out, at, bytes);
    cells::place_after(CAP, at, bytes.len())
}

// The part of the text at a place, with a length.
pub fn put_part(text: &[u8], place: usize, length: usize, out: &mut [u8], at: usize) -> usize
    ensures { Wrote out.old at (part_of text.now place length) out.new result }
{
    put_bytes(out, at, token::part(text, place, length))
}

// The digit of an amount below ten.
fn put_digit(out: &mut [u8], at: usize, amount: usize) -> usize
    requires { amount < 10 }
    ensures { Wrote out.old at ((48 + amount) ∷ []) out.new result }
{
    let digit = [48 + (amount as u8)];
    put_bytes(out, at, &digit)
}

// The decimal digits of an amount.
fn put_digits(out: &mut [u8], at: usize, amount: usize) -> usize
    ensures { Wrote out.old at (digits_in 20 amount) out.new result }
{
    if amount < 10 {
        return put_digit(out, at, amount);
    }
    let e = put_digits(out, at, amount / 10);
    put_digit(out, e, amount % 10)
}

// The number, with `-` if it is negative.
pub fn put_decimal(out: &mut [u8], at: usize, negative: bool, amount: usize) -> usize
    ensures { Wrote out.old at (decimal (record { negative = negative; amount = amount })) out.new result }
{
    if negative {
        let e = put_bytes(out, at, b"-");
        return put_digits(out, e, amount);
    }
    put_digits(out, at, amount)
}
