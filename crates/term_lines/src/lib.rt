// The lines that tell a term. Each function lays its text onto the start of the buffer that is lent to it, as far as it fits, and answers
// how many bytes it laid.
#![tactic(auto)]

ghost use Rattle.std.specs.Prelude.{◌<◌, ◌≡◌, take};
ghost use Rattle.text.specs.Laying.{Lays};
ghost use Rattle.term_lines.specs.Hex.{hex_digit, hex_of, hex_text};
ghost use Rattle.term_lines.specs.Lines.{term_line, bytes_line, term_lines, LaysFor};

use number_text::write_line;
use term::Terms;
use term_text::write_term;
use text::wide;
use text::writing::{write_byte, write_text};

// The hexadecimal digits.
const DIGITS: [u8; 16] = *b"0123456789abcdef";

// A hexadecimal digit.
#[tactic(auto, unfolding(crate::specs::Hex::hex_digit))]
fn hex_digit(d: usize) -> u8
    requires { d < 16 }
    ensures { result ≡ hex_digit d }
{
    DIGITS[d]
}

// A byte in hexadecimal, two digits.
#[tactic(auto, unfolding(crate::specs::Hex::hex_of))]
fn write_hex_byte(byte: u8, out: &mut [u8]) -> usize
    ensures { Lays (hex_of byte) out.old result out.new }
{
    let value = wide(byte);
    write_text(&[hex_digit(value / 16), hex_digit(value % 16)], out)
}

// Bytes in hexadecimal.
fn write_hex(bytes: &[u8], out: &mut [u8]) -> usize
    ensures { Lays (hex_text bytes.now) out.old result out.new }
{
    let mut at = 0;
    for &byte in bytes {
        at += write_hex_byte(byte, &mut out[at..]);
    }
    at
}

// `term` and the term that stands at the start of the bytes.
fn write_term_line(terms: &Terms, out: &mut [u8]) -> usize
    ensures { LaysFor terms.now.bytes.now terms.now.arities 0 term_line out.old result out.new }
{
    let start = write_text(b"term ", out);
    let told = write_term(terms, 0, &mut out[start..]);
    let at = start + told.laid;
    at + write_byte(b'\n', &mut out[at..])
}

// `bytes` and the first `many` bytes, as far as there are such.
fn write_bytes_line(bytes: &[u8], many: usize, out: &mut [u8]) -> usize
    ensures { Lays (bytes_line (take many bytes.now)) out.old result out.new }
{
    let start = write_text(b"bytes ", out);
    let first = &bytes[..many.min(bytes.len())];
    let at = start + write_hex(first, &mut out[start..]);
    at + write_byte(b'\n', &mut out[at..])
}

// The term that stands at the start of the bytes and has so many of them, perhaps with an end record's: `nodes`, `term` and `bytes`. `many` is
// told too, and may be more than there are bytes: the clause names both.
pub fn write_term_lines(terms: &Terms, many: usize, out: &mut [u8]) -> usize
    ensures { LaysFor terms.now.bytes.now terms.now.arities 0 (term_lines terms.now.bytes.now many) out.old result out.new }
{
    let start = write_line(b"nodes ", many / 2, out);
    let at = start + write_term_line(terms, &mut out[start..]);
    at + write_bytes_line(terms.bytes, many, &mut out[at..])
}
