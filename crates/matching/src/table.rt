// Whether a rule's left side fits a subterm, and the match that makes it fit.
ghost use Rattle.std.specs.Prelude.{◌≡◌, ℕ, ◌<◌};
ghost use Rattle.term.specs.Term.{Term};
ghost use Rattle.term.specs.At.{At, Standing};
ghost use Rattle.matching.specs.Alike.{begins_alike};
ghost use Rattle.matching.specs.Table.{Meets, TableAt, LeftAt, Holds};

use building::Match;
use term::Terms;
use text::wide;

// Variable x meets the term at this place. Where it is free it is bound here; "a variable that occurs twice needs identical terms".
fn meet(terms: &Terms, mut table: Match, x: usize, place: usize) -> Option<Match>
    requires x_bound { x < 16 }
    requires table_at { TableAt terms.now.bytes.now terms.now.arities table }
    requires standing { Standing terms.now.bytes.now terms.now.arities place }
    ensures { Meets terms.now.bytes.now terms.now.arities table x place result }
{
    if let Some(start) = table.starts[x] {
        if !terms.same_at(start, place) {
            return None;
        }
    } else {
        table.starts[x] = Some(place);
    }
    Some(table)
}

// Whether a left side begins with a variable, or with the symbol of the subterm at this place: otherwise it can't fit, and no table
// need be made.
pub fn begins_alike(book: &[u8], left: usize, terms: &Terms, at: usize) -> bool
    requires left { Standing book.now terms.now.arities left }
    requires at { Standing terms.now.bytes.now terms.now.arities at }
    ensures { (l s : Term) (d e : ℕ) → At book.now terms.now.arities left l d → At terms.now.bytes.now terms.now.arities at s e →
        result ≡ begins_alike l s }
{
    let lefts = Terms {
        bytes: book,
        arities: terms.arities,
    };
    let symbol = lefts.symbol_at(left);
    symbol.is_none() || symbol == terms.symbol_at(at)
}

// The left side from left_at to left_end against the subterm at this place, node by node up to the first that does not fit. Its two ends and
// no slice: LeftAt speaks of a side by its places in the book.
pub fn matched(
    book: &[u8],
    left_at: usize,
    left_end: usize,
    terms: &Terms,
    at: usize,
) -> Option<Match>
    requires left_at { LeftAt book.now terms.now.arities left_at left_end }
    requires standing { Standing terms.now.bytes.now terms.now.arities at }
    ensures { (l s : Term) (e : ℕ) → At book.now terms.now.arities left_at l left_end → At terms.now.bytes.now terms.now.arities at s e →
        Holds terms.now.bytes.now terms.now.arities l s at result }
{
    let lefts = Terms {
        bytes: book,
        arities: terms.arities,
    };
    let mut table = Match { starts: [None; 16] };
    let mut place = at;
    for left in (left_at..left_end).step_by(2) {
        match lefts.symbol_at(left) {
            Some(symbol) => {
                if terms.symbol_at(place) != Some(symbol) {
                    return None;
                }
                place += 2;
            }
            None => {
                table = meet(terms, table, wide(book[left + 1]), place)?;
                place = terms.end_of(place);
            }
        }
    }
    Some(table)
}
