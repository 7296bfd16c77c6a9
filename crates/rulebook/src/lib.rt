// The boundary to C: a thin function for each entry point. rulebook_c exports them, and include/rulebook.h declares them.
#![tactic(auto)]

mod replies;

ghost use Rattle.std.specs.Prelude.{◌≡◌, length};
ghost use Rattle.reply.specs.Lent.{laid, length_of};
ghost use Rattle.book.specs.Reading.{read_book};
ghost use Rattle.order.specs.Clearing.{check_ranks};
ghost use Rattle.clauses.specs.File.{block};
ghost use Rattle.answer.specs.Ranks.{ranks_from_answer};
ghost use Rattle.steps.specs.Run.{run, ran_bytes};
ghost use Rattle.running.specs.RunMeaning.{run_told};
ghost use Rattle.steps.specs.Argument.{argument};
ghost use Rattle.rulebook.specs.Replies.{verdict_reply, book_reply, written_reply, ran_reply, part_reply};

use counts::count_blocks;
pub use replies::{BookReply, PartReply, RanReply, Verdict, WrittenReply};

// Reads a book. Told by hand: its count asks for a book that was read, as no `From<Result<Book, Refusal>>` could.
#[tactic(auto, unfolding(book::specs::Meaning::meaning, reply::specs::Replied::replied_as))]
pub fn rulebook_read_book(book: &[u8]) -> BookReply
    ensures { result ≡ book_reply (read_book book.now) }
{
    match book::read_book(book) {
        Ok(book) => BookReply {
            refusal: 0,
            place: 0,
            symbols: book.symbols as u64,
            rules: book.rules as u64,
            blocks: count_blocks(&book) as u64,
        },
        Err(refusal) => {
            let Verdict { refusal, place } = refusal.into();
            BookReply {
                refusal,
                place,
                symbols: 0,
                rules: 0,
                blocks: 0,
            }
        }
    }
}

// Whether the ranks, one byte a symbol, make every rule decrease.
pub fn rulebook_check_ranks(book: &[u8], ranks: &[u8]) -> Verdict
    ensures { result ≡ verdict_reply (check_ranks book.now ranks.now) }
{
    clearing::check_ranks(book, ranks).into()
}

// Writes one block of the clause file.
pub fn rulebook_write_block(book: &[u8], number: u64, out: &mut [u8]) -> WrittenReply
    ensures replies { result ≡ written_reply (length_of (block book.now number (length out.old))) }
    ensures lays { out.new ≡ laid (block book.now number (length out.old)) out.old }
{
    blocks::write_block(book, number, out).into()
}

// Reads a solver's answer and writes its ranks, if they make every rule decrease.
pub fn rulebook_ranks_from_answer(book: &[u8], answer: &[u8], out: &mut [u8]) -> WrittenReply
    ensures replies { result ≡ written_reply (length_of (ranks_from_answer book.now answer.now (length out.old))) }
    ensures lays { out.new ≡ laid (ranks_from_answer book.now answer.now (length out.old)) out.old }
{
    answer::ranks_from_answer(book, answer, out).into()
}

// Runs a record under a book that the ranks clear, and writes the term reached.
pub fn rulebook_run(
    book: &[u8],
    ranks: &[u8],
    record: &[u8],
    budget: u64,
    out: &mut [u8],
) -> RanReply
    ensures replies { result ≡ ran_reply (run_told (run book.now ranks.now «record».now budget
        (length out.old))) }
    ensures lays { out.new ≡ laid (ran_bytes (run book.now ranks.now «record».now budget
        (length out.old))) out.old }
{
    running::run(book, ranks, record, budget, out).into()
}

// Where argument `number`, from 0, of the record's root stands in the record.
pub fn rulebook_argument(book: &[u8], record: &[u8], number: u64) -> PartReply
    ensures { result ≡ part_reply (argument book.now «record».now number) }
{
    asking::argument_reply(book, record, number).into()
}
