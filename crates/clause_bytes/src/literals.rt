// Literals. Each writer lays its text onto the start of the buffer that is lent to it, as far as it fits, and answers how many bytes it
// laid; what comes next is laid onto the buffer's remainder, after the bytes already laid down.
ghost use Rattle.std.specs.Prelude.{◌+◌, ◌<◌, [], ◌∷◌};
ghost use Rattle.text.specs.Text.{ascii};
ghost use Rattle.text.specs.Laying.{Lays};
ghost use Rattle.clauses.specs.Cnf.{is};
ghost use Rattle.clauses.specs.File.{literal_bytes};
ghost use Rattle.clause_bytes.specs.Meaning.{meant};

use crate::writing::Literal;
use text::writing::{write_byte, write_decimal, write_text};

// A number and "a space after": a variable that is no negation.
pub fn write_variable(v: usize, out: &mut [u8]) -> usize
    ensures { Lays (literal_bytes (is v)) out.old result out.new }
{
    let at = write_decimal(v, out);
    at + write_byte(b' ', &mut out[at..])
}

// A literal: a minus if it is a negation, the variable's number and a space.
#[tactic(auto, unfolding(crate::specs::Meaning::meant, clauses::specs::File::literal_bytes, text::specs::Text::ascii), using(text::proofs::Laying::lays_then))]
pub fn write_literal(l: Literal, out: &mut [u8]) -> usize
    ensures { Lays (literal_bytes (meant l)) out.old result out.new }
{
    match l {
        Literal::Is(v) => write_variable(v, out),
        Literal::IsNot(v) => {
            let at = write_byte(b'-', out);
            at + write_variable(v, &mut out[at..])
        }
    }
}

// The end of a clause, "then 0 and a newline".
#[tactic(auto, unfolding(text::specs::Text::ascii))]
pub fn write_clause_end(out: &mut [u8]) -> usize
    ensures { Lays (ascii "0\n") out.old result out.new }
{
    write_text(b"0\n", out)
}
