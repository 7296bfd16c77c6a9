// Writers. Each lays its text onto the start of the buffer that is lent to it, as far as it fits, and answers how many bytes it laid;
// what comes next is laid onto the buffer's remainder, after the bytes already laid down.
ghost use Rattle.std.specs.Prelude.{◌+◌, ◌<◌, [], ◌∷◌};
ghost use Rattle.text.specs.Decimal.{decimal};
ghost use Rattle.text.specs.Laying.{Lays};

// One byte.
pub fn write_byte(b: u8, out: &mut [u8]) -> usize
    ensures { Lays (b ∷ []) out.old result out.new }
{
    if let Some(first) = out.first_mut() {
        *first = b;
        1
    } else {
        0
    }
}

// A text.
pub fn write_text(text: &[u8], out: &mut [u8]) -> usize
    ensures { Lays text.now out.old result out.new }
{
    let many = text.len().min(out.len());
    // Not copy_from_slice: for that the library would need a memmove from outside, and for this a memcpy, which it needs anyway.
    for at in 0..many {
        out[at] = text[at];
    }
    many
}

// A digit, from 0 to 9.
fn write_digit(d: usize, out: &mut [u8]) -> usize
    requires { d < 10 }
    ensures { Lays ((48 + d) ∷ []) out.old result out.new }
{
    write_byte((48 + d) as u8, out)
}

// A number in decimal without leading zeros: what stands before its last digit is the number divided by ten.
pub fn write_decimal(n: usize, out: &mut [u8]) -> usize
    ensures { Lays (decimal n) out.old result out.new }
{
    if n < 10 {
        write_digit(n, out)
    } else {
        let at = write_decimal(n / 10, out);
        at + write_digit(n % 10, &mut out[at..])
    }
}
