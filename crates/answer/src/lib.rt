// The ranks of a solver's answer. The definitions stand in specs/.
#![tactic(auto)]

mod ranks;

ghost use Rattle.std.specs.Prelude.{◌≡◌, length};
ghost use Rattle.reply.specs.Lent.{laid, length_of};
ghost use Rattle.reply.specs.Replied.{replied};
ghost use Rattle.book.specs.BookOf.{book_of};
ghost use Rattle.answer_lines.specs.Marks.{assigned};
ghost use Rattle.answer.specs.Ranks.{ranks_checked, answered, ranks_from_answer};

use answer_lines::read_values;
use book::read::ReadBook;
use ranks::ranks_of;
use reply::Refusal;

// "9, 8", of the rank variables' values; "Accepted ranks are written to the first n bytes of the lent buffer".
fn checked_ranks(
    book: &ReadBook,
    table: &[Option<bool>; 64],
    out: &mut [u8],
) -> Result<usize, Refusal>
    ensures means { replied result ≡ length_of (ranks_checked (book_of book.now) (assigned table.now) (length out.old)) }
    ensures lays { out.new ≡ laid (ranks_checked (book_of book.now) (assigned table.now) (length out.old)) out.old }
{
    let symbols = book.places.symbols;
    if out.len() < symbols {
        return Err(Refusal::ShortBuffer);
    }
    let ranks = ranks_of(table, symbols, term::rank_bits(symbols));
    clearing::first_not_decreasing(book, ranks)?;
    out[..symbols].copy_from_slice(&ranks[..symbols]);
    Ok(symbols)
}

// "answer 12, 13, 14, 9, 8", of a book that was read.
fn answer_to(book: &ReadBook, text: &[u8], out: &mut [u8]) -> Result<usize, Refusal>
    ensures means { replied result ≡ length_of (answered (book_of book.now) text.now (length out.old)) }
    ensures lays { out.new ≡ laid (answered (book_of book.now) text.now (length out.old)) out.old }
{
    if 65536 < text.len() {
        return Err(Refusal::AnswerTooLong);
    }
    let symbols = book.places.symbols;
    let variables = counts::variables(&book.places);
    let table = read_values(text, variables, symbols * term::rank_bits(symbols))?;
    checked_ranks(book, &table, out)
}

// Ranks from a solver's answer: the book's refusals 1 to 6, then 12, 13, 14, 9, 8; accepted ranks stand in the first n bytes of the lent
// buffer, and its other bytes keep their values.
pub fn ranks_from_answer(book: &[u8], text: &[u8], out: &mut [u8]) -> Result<usize, Refusal>
    ensures means { replied result ≡ length_of (ranks_from_answer book.now text.now (length out.old)) }
    ensures lays { out.new ≡ laid (ranks_from_answer book.now text.now (length out.old)) out.old }
{
    let places = book::read_book(book)?;
    let read = ReadBook {
        bytes: book,
        places,
    };
    answer_to(&read, text, out)
}
