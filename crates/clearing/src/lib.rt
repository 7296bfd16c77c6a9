// The rank check: whether proposed ranks make every rule of a book decrease.
#![tactic(auto)]

ghost use Rattle.std.specs.Prelude.{◌≡◌, ◌≤◌, length};
ghost use Rattle.reply.specs.Replied.{replied};
ghost use Rattle.book.specs.BookOf.{book_of};
ghost use Rattle.order.specs.Test.{exceeds};
ghost use Rattle.order.specs.Clearing.{all_decrease, ranks_clear, check_ranks};
ghost use Rattle.order.specs.SameRanks.{SameRanks};

use book::read::ReadBook;
use comparing::Ranked;
use reply::Refusal;
use term::Terms;

// Whether every rule decreases: 8 at the lowest that does not.
#[tactic(auto, using(crate::proofs::Rules::few_rules))]
pub fn first_not_decreasing(book: &ReadBook, ranks: [u8; 16]) -> Result<(), Refusal>
    ensures { replied result ≡ all_decrease (exceeds ranks) 0 (book_of book.now).rules }
{
    let terms = Terms {
        bytes: book.bytes,
        arities: book.places.arities,
    };
    let ranked = Ranked { terms, ranks };
    let rules = &book.places.places[..book.places.rules];
    for (rule, its) in rules.iter().enumerate() {
        if !ranked.exceeds(its.left.at, its.right.at) {
            return Err(Refusal::NotDecreasing(rule));
        }
    }
    Ok(())
}

// The ranks in a table of 16, 0 for a symbol that has none.
fn padded(ranks: &[u8]) -> [u8; 16]
    requires { length ranks.now ≤ 16 }
    ensures { SameRanks result ranks.now }
{
    let mut table = [0u8; 16];
    table[..ranks.len()].copy_from_slice(ranks);
    table
}

// "ranks 7, 8", of a book that was read.
pub fn ranks_clear(book: &ReadBook, ranks: &[u8]) -> Result<(), Refusal>
    ensures { replied result ≡ ranks_clear (book_of book.now) ranks.now }
{
    if ranks.len() != book.places.symbols {
        return Err(Refusal::WrongRankCount);
    }
    first_not_decreasing(book, padded(ranks))
}

// Whether these ranks make every rule of the book decrease: the book's refusals 1 to 6, then 7, then 8 at the lowest rule.
#[tactic(auto, using(crate::proofs::Verdicts::unreadable, crate::proofs::Verdicts::readable))]
pub fn check_ranks(book: &[u8], ranks: &[u8]) -> Result<(), Refusal>
    ensures { replied result ≡ check_ranks book.now ranks.now }
{
    let places = book::read_book(book)?;
    let book = ReadBook {
        bytes: book,
        places,
    };
    ranks_clear(&book, ranks)
}
