// The run: steps against a budget.
#![tactic(auto)]

ghost use Rattle.std.specs.Prelude.{◌≤◌, Ok, length};
ghost use Rattle.reply.specs.Reply.{given};
ghost use Rattle.term.specs.Term.{Term};
ghost use Rattle.term.specs.At.{At};
ghost use Rattle.book.specs.BookOf.{book_of};
ghost use Rattle.steps.specs.Step.{NoNewVariable};
ghost use Rattle.steps.specs.Run.{run_from, ran_cleared, run};
ghost use Rattle.running.specs.RunMeaning.{RecordAt, RunsTo};

use book::read::ReadBook;
use reply::Refusal;
use std::mem;
pub use stepping::Outcome;
use stepping::step;

// A run: how it ended, after how many steps, and how long the record in the lent buffer is.
#[derive(Clone, Copy, Debug, PartialEq, Eq)]
pub struct RanTo {
    pub outcome: Outcome,
    pub steps: u64,
    pub length: usize,
}

// Runs the term in the first `size` bytes of the record: RecordAt speaks of a record with its end. `no_new` is a clause, as in `stepping`.
// "The new term is built in a working buffer of the run's own .. the lent buffer is written only with the final term", and its end record. Two
// working buffers take turns, so that a step copies the term once.
fn run_record(book: &ReadBook, record: &[u8], size: usize, budget: u64, out: &mut [u8]) -> RanTo
    requires no_new { NoNewVariable (book_of book.now).rules }
    requires record_at { RecordAt «record».now book.now.places.arities size }
    requires in_bounds { 513 ≤ length out.old }
    ensures { (t : Term) → At «record».now book.now.places.arities 0 t size →
        RunsTo (given (run_from (book_of book.now).rules budget 0 t)) (Ok result) out.old out.new }
{
    let mut one = [0u8; 513];
    let mut other = [0u8; 513];
    term::copy(record, 0, size, &mut one);
    let mut here: &mut [u8] = &mut one;
    let mut there: &mut [u8] = &mut other;
    let mut length = size;
    let mut steps: u64 = 0;
    // No `for` over the budget: the run ends where `step` says so, and behind the range there would be a place that no run comes to.
    let outcome = loop {
        match step(book, &here[..length], budget - steps, there) {
            Err(outcome) => break outcome,
            Ok(next) => length = next,
        }
        mem::swap(&mut here, &mut there);
        steps += 1;
    };
    term::copy(here, 0, length, out);
    out[length] = 5;
    RanTo {
        outcome,
        steps,
        length: length + 1,
    }
}

// The run of a cleared book: "11, 9".
fn run_cleared(
    book: &ReadBook,
    record: &[u8],
    budget: u64,
    out: &mut [u8],
) -> Result<RanTo, Refusal>
    requires no_new { NoNewVariable (book_of book.now).rules }
    ensures { RunsTo (ran_cleared (book_of book.now) «record».now budget (length out.old))
        result out.old out.new }
{
    let nodes = record::read_record(record, book.places.symbols, book.places.arities)?;
    if out.len() < 513 {
        return Err(Refusal::ShortBuffer);
    }
    Ok(run_record(book, record, 2 * nodes, budget, out))
}

// Runs a record under a book that the ranks clear, against a budget. The start of the lent buffer then holds the term reached with its end
// record; a refusal leaves it untouched.
pub fn run(
    book: &[u8],
    ranks: &[u8],
    record: &[u8],
    budget: u64,
    out: &mut [u8],
) -> Result<RanTo, Refusal>
    ensures { RunsTo (run book.now ranks.now «record».now budget (length out.old))
        result out.old out.new }
{
    let places = book::read_book(book)?;
    let book = ReadBook {
        bytes: book,
        places,
    };
    clearing::ranks_clear(&book, ranks)?;
    run_cleared(&book, record, budget, out)
}
