// The blocks of a read book, laid into lent buffers.
ghost use Rattle.std.specs.Prelude.{ℕ, List, ◌≡◌, length};
ghost use Rattle.std.proofs.Math.Option.{some};
ghost use Rattle.std.proofs.Math.ListN.{get_elem?};
ghost use Rattle.reply.specs.Lent.{laid, length_of};
ghost use Rattle.reply.specs.Replied.{replied};
ghost use Rattle.text.specs.Laying.{Lays};
ghost use Rattle.book.specs.BookOf.{book_of};
ghost use Rattle.clauses.specs.File.{file_blocks, block_of};
ghost use Rattle.blocks.specs.Found.{FindsPlace, SomeNumber};

use crate::finding::{Place, find_block};
use crate::header::write_header;
use book::read::ReadBook;
use pair_blocks::write_pair;
use reply::Refusal;
use rule_blocks::rules::write_rule_block;
use term::Terms;

// The block at a place that was found.
fn write_place(book: &ReadBook, place: Place, out: &mut [u8]) -> usize
    requires { SomeNumber book.now place }
    ensures { (number : ℕ) (text : List ℕ) → FindsPlace book.now number place →
        get_elem? (file_blocks (book_of book.now)) number ≡ some text → Lays text out.old result out.new }
{
    match place {
        Place::Header => write_header(book, out),
        Place::Pair(p) => write_pair(book.places.symbols, p, out),
        Place::InRule(rule, number) => {
            let terms = Terms {
                bytes: book.bytes,
                arities: book.places.arities,
            };
            write_rule_block(&terms, rule, number, out)
        }
    }
}

// "block 10, 9", of a book that was read.
#[tactic(auto, using(crate::proofs::BlockCall::short_means, crate::proofs::BlockCall::short_leaves))]
pub fn write_read_block(book: &ReadBook, number: usize, out: &mut [u8]) -> Result<usize, Refusal>
    ensures means { replied result ≡ length_of (block_of (book_of book.now) number (length out.old)) }
    ensures leaves { out.new ≡ laid (block_of (book_of book.now) number (length out.old)) out.old }
{
    let place = find_block(book, number).ok_or(Refusal::NoSuchBlock)?;
    if out.len() < 512 {
        return Err(Refusal::ShortBuffer);
    }
    Ok(write_place(book, place, out))
}
