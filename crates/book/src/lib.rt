// Reading books. The definitions stand in specs/.
#![tactic(auto)]

mod checks;
pub mod read;
mod reader;
mod sides;

ghost use Rattle.std.specs.Prelude.{◌≡◌};
ghost use Rattle.book.specs.Reading.{read_book};
ghost use Rattle.book.specs.Meaning.{meaning};
ghost use Rattle.book.specs.Placed.{placed};

use checks::{byte_at, check_record};
use reply::Refusal;
use sides::{Side, Stage};
use term::kinds::Kind;
use text::wide;

// Where a side of a rule stands in the book's bytes: from this place on, and of so many nodes.
#[derive(Clone, Copy, Default)]
pub struct SidePlace {
    pub at: usize,
    pub nodes: usize,
}

// Where a rule stands.
#[derive(Clone, Copy, Default)]
pub struct RulePlaces {
    pub left: SidePlace,
    pub right: SidePlace,
}

// A book that was read, as places in its bytes: there is no heap for trees, and the bytes stay with the caller. Symbol f has arity
// arities[f], and rule i stands at places[i]. Entries past the counts are 0.
#[derive(Clone, Copy, Default)]
pub struct Book {
    pub symbols: usize,
    pub arities: [u8; 16],
    pub rules: usize,
    pub places: [RulePlaces; 32],
}

// Reads a book: its records from left to right, each checked and then taken into the places. The left side of a rule starts behind its
// kind 2 record, the right side behind the left; "then kind 5 and nothing more".
pub fn read_book(bytes: &[u8]) -> Result<Book, Refusal>
    ensures settled { result ≡ placed bytes.now }
    ensures means { meaning bytes.now result ≡ read_book bytes.now }
{
    let mut book = Book::default();
    let mut side = Side::default();
    let mut at: usize = 0;
    // The places are the answer and the records have no fixed length, so an iterator would have to count `at` just the same.
    while at < bytes.len() {
        let byte = bytes[at];
        let body = byte_at(bytes, at + 1);
        let kind = check_record(bytes, at, byte, body, side, &book)?;
        at += 1 + term::body_length(byte);
        match kind {
            Kind::Symbol => {
                book.arities[book.symbols] = body;
                book.symbols += 1;
            }
            Kind::Rule => {
                book.places[book.rules].left.at = at;
                side = Side::opened(Stage::InLeft);
            }
            Kind::SymbolNode => {
                let arity = book.arities[wide(body)];
                side = side.take_node(&mut book, wide(arity), at);
            }
            Kind::VariableNode => side = side.take_node(&mut book, 0, at),
            Kind::End => {
                if at < bytes.len() {
                    return Err(Refusal::AfterEnd(at));
                }
                return Ok(book);
            }
        }
    }
    Err(Refusal::BookEnded(bytes.len()))
}
