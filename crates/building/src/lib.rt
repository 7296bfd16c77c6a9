// The next term, built in a working buffer: a right side under a match is laid down between the bytes before the place and those behind it.
#![tactic(auto)]

ghost use Rattle.std.specs.Prelude.{◌≡◌, ◌≤◌, length};
ghost use Rattle.term.specs.Prefix.{prefix};
ghost use Rattle.building.specs.Right.{RightAt, UnderMatch, FitsBehind, LaidBehind, Within, Built, BuiltFits};

use term::Terms;
use text::wide;

// "A table of 16 places, one for each variable, holds the match": where each variable's term starts in the bytes, if it is bound.
#[derive(Clone, Copy)]
pub struct Match {
    pub starts: [Option<usize>; 16],
}

// A rule that fits, with its match.
#[derive(Clone, Copy)]
pub struct Fit {
    pub rule: usize,
    pub table: Match,
}

// A subterm of the record, from `at` to `end`, and the rule that fits it.
#[derive(Clone, Copy)]
pub struct Place {
    pub at: usize,
    pub end: usize,
    pub fit: Fit,
}

// How many bytes the right side from right_at to right_end has under the match. Its two ends and no slice: RightAt and UnderMatch speak of a
// side by its places in the book.
pub fn right_length(
    book: &[u8],
    right_at: usize,
    right_end: usize,
    terms: &Terms,
    table: &Match,
) -> usize
    requires right_at { RightAt book.now terms.now.bytes.now terms.now.arities table.now right_at right_end }
    requires bytes_len_bound { length terms.now.bytes.now ≤ 512 }
    ensures { UnderMatch book.now terms.now.bytes.now terms.now.arities table.now right_at right_end (λ t. result ≡ length (prefix t)) }
{
    let rights = Terms {
        bytes: book,
        arities: terms.arities,
    };
    let mut total: usize = 0;
    for right in (right_at..right_end).step_by(2) {
        if rights.symbol_at(right).is_some() {
            total += 2;
        } else {
            let start = table.starts[wide(book[right + 1])].unwrap();
            total += terms.end_of(start) - start;
        }
    }
    total
}

// Lays the right side under the match into the buffer, behind the first `at` bytes: "writing each copied subterm into the buffer's
// remainder, after the bytes already laid down". Answers where it ends.
fn lay(
    book: &[u8],
    right_at: usize,
    right_end: usize,
    terms: &Terms,
    table: &Match,
    out: &mut [u8],
    at: usize,
) -> usize
    requires right_at { RightAt book.now terms.now.bytes.now terms.now.arities table.now right_at right_end }
    requires under_match { UnderMatch book.now terms.now.bytes.now terms.now.arities table.now right_at right_end
        (FitsBehind at (length out.old)) }
    ensures { UnderMatch book.now terms.now.bytes.now terms.now.arities table.now right_at right_end
        (LaidBehind at result out.old out.new) }
{
    let rights = Terms {
        bytes: book,
        arities: terms.arities,
    };
    let mut end = at;
    for right in (right_at..right_end).step_by(2) {
        if rights.symbol_at(right).is_some() {
            end += term::copy(book, right, right + 2, &mut out[end..]);
        } else {
            let start = table.starts[wide(book[right + 1])].unwrap();
            end += term::copy(terms.bytes, start, terms.end_of(start), &mut out[end..]);
        }
    }
    end
}

// Builds the next term: the bytes before the place, the right side from right_at to right_end under the match, and the bytes behind
// the place, "the rest of the term as it was". Answers its length; later bytes of the buffer keep their values.
pub fn build(
    book: &[u8],
    right_at: usize,
    right_end: usize,
    terms: &Terms,
    place: &Place,
    out: &mut [u8],
) -> usize
    requires right_at { RightAt book.now terms.now.bytes.now terms.now.arities place.now.fit.table right_at right_end }
    requires within { Within terms.now.bytes.now place.now }
    requires under_match { UnderMatch book.now terms.now.bytes.now terms.now.arities place.now.fit.table right_at right_end
        (BuiltFits terms.now.bytes.now place.now (length out.old)) }
    ensures { UnderMatch book.now terms.now.bytes.now terms.now.arities place.now.fit.table right_at right_end
        (Built terms.now.bytes.now place.now result out.old out.new) }
{
    let bytes = terms.bytes;
    term::copy(bytes, 0, place.at, out);
    let end = lay(
        book,
        right_at,
        right_end,
        terms,
        &place.fit.table,
        out,
        place.at,
    );
    end + term::copy(bytes, place.end, bytes.len(), &mut out[end..])
}
