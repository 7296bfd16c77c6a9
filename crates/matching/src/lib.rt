// The place of a step: "the first place in postorder at which some rule fits, and there the rule with the lowest number".
#![tactic(auto)]

mod table;

ghost use Rattle.std.specs.Prelude.{ℕ, length};
ghost use Rattle.term.specs.Term.{Term};
ghost use Rattle.term.specs.At.{At, Standing};
ghost use Rattle.book.specs.BookOf.{book_of};
ghost use Rattle.matching.specs.FirstPlace.{Whole, FirstRule, FirstPlace};

use book::read::ReadBook;
use building::{Fit, Place};
use table::{begins_alike, matched};
use term::Terms;

// The rule with the lowest number that fits the subterm at this place.
#[tactic(auto, using(crate::proofs::LeftsAt::few_rules))]
fn first_rule(book: &ReadBook, bytes: &[u8], at: usize) -> Option<Fit>
    requires { Standing bytes.now book.now.places.arities at }
    ensures { (s : Term) (e : ℕ) → At bytes.now book.now.places.arities at s e →
        FirstRule bytes.now book.now.places.arities (book_of book.now).rules s at result }
{
    let terms = Terms {
        bytes,
        arities: book.places.arities,
    };
    for (rule, places) in book.places.places[..book.places.rules].iter().enumerate() {
        let left = places.left;
        if begins_alike(book.bytes, left.at, &terms, at) {
            let end = left.at + 2 * left.nodes;
            if let Some(table) = matched(book.bytes, left.at, end, &terms, at) {
                return Some(Fit { rule, table });
            }
        }
    }
    None
}

// The places in prefix order, each tried once. Where a rule fits, a place inside the subterm comes earlier in postorder and every
// place behind it later: so the place is kept, and the search goes on inside.
pub fn first_place(book: &ReadBook, bytes: &[u8]) -> Option<Place>
    requires { Whole bytes.now book.now.places.arities }
    ensures { (t : Term) → At bytes.now book.now.places.arities 0 t (length bytes.now) →
        FirstPlace bytes.now book.now.places.arities (book_of book.now).rules t result }
{
    let terms = Terms {
        bytes,
        arities: book.places.arities,
    };
    let mut first = None;
    let mut bound = bytes.len();
    let mut at = 0;
    // No `for`: the bound falls on the way, so its body would begin with a test and a break.
    while at < bound {
        if let Some(fit) = first_rule(book, bytes, at) {
            bound = terms.end_of(at);
            first = Some(Place {
                at,
                end: bound,
                fit,
            });
        }
        at += 2;
    }
    first
}
