// The argument question: one argument of a record's root, as a part of the caller's own record bytes.
#![tactic(auto)]

ghost use Rattle.std.specs.Prelude.{◌≡◌, ℕ, ◌+◌};
ghost use Rattle.term.specs.Term.{Term};
ghost use Rattle.term.specs.At.{At, Standing};
ghost use Rattle.steps.specs.Argument.{argument_of, argument};
ghost use Rattle.asking.specs.Asked.{argument_meaning, handed_out, part_bytes};

use reply::Refusal;
use term::Terms;

// Where an argument stands in the record's bytes.
#[derive(Clone, Copy, Debug, PartialEq, Eq)]
pub struct Found {
    pub start: usize,
    pub length: usize,
}

// Argument i of the term at the start of the bytes.
fn argument_of(terms: &Terms, number: u64) -> Result<Found, Refusal>
    requires { Standing terms.now.bytes.now terms.now.arities 0 }
    ensures { (t : Term) (e : ℕ) → At terms.now.bytes.now terms.now.arities 0 t e → argument_meaning result ≡ argument_of t number }
{
    if terms.arguments_at(0) as u64 <= number {
        return Err(Refusal::NoSuchArgument);
    }
    let mut start = 2;
    for _ in 0..number {
        start = terms.end_of(start);
    }
    let end = terms.end_of(start);
    Ok(Found {
        start,
        length: end - start,
    })
}

// Argument i (from 0) of the record's root: where it starts and how long it is, without the end record; or the refusal.
pub fn argument_reply(book: &[u8], record: &[u8], number: u64) -> Result<Found, Refusal>
    ensures { argument_meaning result ≡ argument book.now «record».now number }
{
    let book = book::read_book(book)?;
    record::read_record(record, book.symbols, book.arities)?;
    let arities = book.arities;
    let terms = Terms {
        bytes: record,
        arities,
    };
    argument_of(&terms, number)
}

// Argument i (from 0) of the record's root, as a part of the record's own bytes: from the argument's first node to its last, empty for
// every refusal.
pub fn argument<'a>(book: &[u8], record: &'a [u8], number: u64) -> &'a [u8]
    ensures bytes { result.now ≡ part_bytes (handed_out (argument book.now «record».now number)) «record».now }
    ensures place { (result.ref_ptr.0 ≡ «record».entry.ref_ptr.0) ×
        (result.ref_ptr.1 ≡ «record».entry.ref_ptr.1 + (handed_out (argument book.now «record».now number)).start) }
{
    let Ok(found) = argument_reply(book, record, number) else {
        return &record[0..0];
    };
    let end = found.start + found.length;
    &record[found.start..end]
}
