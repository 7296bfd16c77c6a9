// The static library for C: each export calls the function of its name in `rulebook`, under the same clauses. include/rulebook.h declares them.
#![tactic(auto)]

ghost use Rattle.std.specs.Prelude.{◌≡◌, length};
ghost use Rattle.reply.specs.Lent.{laid, length_of};
ghost use Rattle.book.specs.Reading.{read_book};
ghost use Rattle.order.specs.Clearing.{check_ranks};
ghost use Rattle.clauses.specs.File.{block};
ghost use Rattle.answer.specs.Ranks.{ranks_from_answer};
ghost use Rattle.steps.specs.Run.{run, ran_bytes};
ghost use Rattle.running.specs.RunMeaning.{run_told};
ghost use Rattle.steps.specs.Argument.{argument};
ghost use Rattle.rulebook.specs.Replies.{verdict_reply, book_reply, written_reply, ran_reply, part_reply};

use rulebook::{BookReply, PartReply, RanReply, Verdict, WrittenReply};

// Reads a book.
#[unsafe(no_mangle)]
pub extern "C" fn rulebook_read_book(book: &[u8]) -> BookReply
    ensures { result ≡ book_reply (read_book book.now) }
{
    rulebook::rulebook_read_book(book)
}

// Whether the ranks, one byte a symbol, make every rule decrease.
#[unsafe(no_mangle)]
pub extern "C" fn rulebook_check_ranks(book: &[u8], ranks: &[u8]) -> Verdict
    ensures { result ≡ verdict_reply (check_ranks book.now ranks.now) }
{
    rulebook::rulebook_check_ranks(book, ranks)
}

// Writes one block of the clause file.
#[unsafe(no_mangle)]
pub extern "C" fn rulebook_write_block(book: &[u8], number: u64, out: &mut [u8]) -> WrittenReply
    ensures replies { result ≡ written_reply (length_of (block book.now number (length out.old))) }
    ensures lays { out.new ≡ laid (block book.now number (length out.old)) out.old }
{
    rulebook::rulebook_write_block(book, number, out)
}

// Reads a solver's answer and writes its ranks, if they make every rule decrease.
#[unsafe(no_mangle)]
pub extern "C" fn rulebook_ranks_from_answer(
    book: &[u8],
    answer: &[u8],
    out: &mut [u8],
) -> WrittenReply
    ensures replies { result ≡ written_reply (length_of (ranks_from_answer book.now answer.now (length out.old))) }
    ensures lays { out.new ≡ laid (ranks_from_answer book.now answer.now (length out.old)) out.old }
{
    rulebook::rulebook_ranks_from_answer(book, answer, out)
}

// Runs a record under a book that the ranks clear, and writes the term reached.
#[unsafe(no_mangle)]
pub extern "C" fn rulebook_run(
    book: &[u8],
    ranks: &[u8],
    record: &[u8],
    budget: u64,
    out: &mut [u8],
) -> RanReply
    ensures replies { result ≡ ran_reply (run_told (run book.now ranks.now «record».now budget
        (length out.old))) }
    ensures lays { out.new ≡ laid (ran_bytes (run book.now ranks.now «record».now budget
        (length out.old))) out.old }
{
    rulebook::rulebook_run(book, ranks, record, budget, out)
}

// Where argument `number`, from 0, of the record's root stands in the record.
#[unsafe(no_mangle)]
pub extern "C" fn rulebook_argument(book: &[u8], record: &[u8], number: u64) -> PartReply
    ensures { result ≡ part_reply (argument book.now «record».now number) }
{
    rulebook::rulebook_argument(book, record, number)
}
