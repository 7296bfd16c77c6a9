// The next step of a record before it is made: the rule that it takes, and the place. Who follows a run step by step asks for it.
#![tactic(auto)]

ghost use Rattle.std.specs.Prelude.{◌≡◌};
ghost use Rattle.book.specs.BookOf.{book_of};
ghost use Rattle.steps.specs.NextStep.{next_cleared, next_step};
ghost use Rattle.next_step.specs.NextMeaning.{next_meaning};

use book::read::ReadBook;
use matching::first_place;
use reply::Refusal;

// The number of the rule that the next step takes, and where the subterm starts in the record's bytes.
#[derive(Clone, Copy, Debug, PartialEq, Eq)]
pub struct Next {
    pub rule: usize,
    pub place: usize,
}

// The next step of a record under a cleared book.
fn of_record(book: &ReadBook, record: &[u8]) -> Result<Option<Next>, Refusal>
    ensures { next_meaning result ≡ next_cleared (book_of book.now) «record».now }
{
    let nodes = record::read_record(record, book.places.symbols, book.places.arities)?;
    let first = first_place(book, &record[..2 * nodes]);
    Ok(first.map(|place| Next {
        rule: place.fit.rule,
        place: place.at,
    }))
}

// The next step of a record under a book that the ranks clear; none where no rule fits the record's term any more.
pub fn next_step(book: &[u8], ranks: &[u8], record: &[u8]) -> Result<Option<Next>, Refusal>
    ensures { next_meaning result ≡ next_step book.now ranks.now «record».now }
{
    let places = book::read_book(book)?;
    let book = ReadBook {
        bytes: book,
        places,
    };
    clearing::ranks_clear(&book, ranks)?;
    of_record(&book, record)
}
