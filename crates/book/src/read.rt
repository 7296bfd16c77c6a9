// A book that was read, with the bytes in which it stands.
ghost use Rattle.std.specs.Prelude.{◌≡◌, IfOk};
ghost use Rattle.book.specs.Placed.{placed};
ghost use Rattle.book.specs.WasRead.{ReadFrom};

use crate::Book;
use reply::Refusal;

// The book's bytes, and where its rules stand in them.
#[derive(Clone, Copy)]
pub struct ReadBook<'a> {
    pub bytes: &'a [u8],
    pub places: Book,
    pub ghost read: { ReadFrom bytes.now places },
}
