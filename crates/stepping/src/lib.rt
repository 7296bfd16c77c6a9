// One step of a run: the place and the rule are found, and the next term is built.
#![tactic(auto)]

ghost use Rattle.std.specs.Prelude.{◌≤◌, length};
ghost use Rattle.term.specs.Term.{Term};
ghost use Rattle.term.specs.At.{At};
ghost use Rattle.book.specs.BookOf.{book_of};
ghost use Rattle.steps.specs.Step.{NoNewVariable};
ghost use Rattle.matching.specs.FirstPlace.{Whole};
ghost use Rattle.stepping.specs.Stepped.{Tells};

use book::read::ReadBook;
use building::{build, right_length};
use matching::first_place;
use term::Terms;

// How a run ends.
#[derive(Clone, Copy, Debug, PartialEq, Eq)]
pub enum Outcome {
    Done,
    Spent,
    TooLarge,
}

// `NoNewVariable` is a clause and no ghost field: that has to be a proposition, and a variable that occurs twice proves it twice.
// The step of the term in `bytes`, with so many steps left: the next term is built in `out`, and has so many bytes, unless the run ends here.
pub fn step(book: &ReadBook, bytes: &[u8], left: u64, out: &mut [u8]) -> Result<usize, Outcome>
    requires no_new { NoNewVariable (book_of book.now).rules }
    requires whole { Whole bytes.now book.now.places.arities }
    requires bytes_len_bound { length bytes.now ≤ 512 }
    requires in_bounds { 512 ≤ length out.old }
    ensures { (t : Term) → At bytes.now book.now.places.arities 0 t (length bytes.now) →
        Tells result book.now.places.arities (book_of book.now).rules t left out.old out.new }
{
    let place = first_place(book, bytes).ok_or(Outcome::Done)?;
    if left == 0 {
        return Err(Outcome::Spent);
    }
    let arities = book.places.arities;
    let terms = Terms { bytes, arities };
    let right = book.places.places[place.fit.rule].right;
    let end = right.at + 2 * right.nodes;
    let length = place.at
        + right_length(book.bytes, right.at, end, &terms, &place.fit.table)
        + (bytes.len() - place.end);
    if 512 < length {
        return Err(Outcome::TooLarge);
    }
    Ok(build(book.bytes, right.at, end, &terms, &place, out))
}
