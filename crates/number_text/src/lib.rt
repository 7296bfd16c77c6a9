// Numbers behind words, as text. Each function lays its text onto the start of the buffer that is lent to it, as far as it fits, and
// answers how many bytes it laid.
#![tactic(auto)]

ghost use Rattle.text.specs.Laying.{Lays};
ghost use Rattle.number_text.specs.Numbers.{counted, counted_line};

use text::writing::{write_byte, write_decimal, write_text};

// A word and a number behind it.
pub fn write_counted(word: &[u8], n: usize, out: &mut [u8]) -> usize
    ensures { Lays (counted word.now n) out.old result out.new }
{
    let at = write_text(word, out);
    at + write_decimal(n, &mut out[at..])
}

// The same as a line.
pub fn write_line(word: &[u8], n: usize, out: &mut [u8]) -> usize
    ensures { Lays (counted_line word.now n) out.old result out.new }
{
    let at = write_counted(word, n, out);
    at + write_byte(b'\n', &mut out[at..])
}
