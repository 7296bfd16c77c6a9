// The block call: the blocks of a book's clause file by their numbers, laid into lent buffers. The definitions stand in specs/.
#![tactic(auto)]

mod bases;
mod finding;
mod header;
pub mod writing;

ghost use Rattle.std.specs.Prelude.{◌≡◌, length};
ghost use Rattle.reply.specs.Lent.{laid, length_of};
ghost use Rattle.reply.specs.Replied.{replied};
ghost use Rattle.clauses.specs.File.{block};

use book::read::ReadBook;
use reply::Refusal;

// "The block call writes the block at the start of the lent buffer, replies with its length, and keeps the later bytes": refusals 1 to
// 6, then 10, then 9.
pub fn write_block(book: &[u8], number: u64, out: &mut [u8]) -> Result<usize, Refusal>
    ensures means { replied result ≡ length_of (block book.now number (length out.old)) }
    ensures leaves { out.new ≡ laid (block book.now number (length out.old)) out.old }
{
    let places = book::read_book(book)?;
    let read = ReadBook {
        bytes: book,
        places,
    };
    writing::write_read_block(&read, number as usize, out)
}
