// "Block 0: `p cnf V M` and a newline, V the base after the last rule, M the number of clauses that follow."
ghost use mathlib.Core.List.{[], ◌∷◌, ◌++◌, flatten};
ghost use Rattle.std.specs.Prelude.{◌≡◌, length};
ghost use Rattle.text.specs.Decimal.{decimal};
ghost use Rattle.text.specs.Laying.{Lays};
ghost use Rattle.book.specs.BookOf.{book_of};
ghost use Rattle.clauses.specs.Blocks.{blocks};
ghost use Rattle.clauses.specs.File.{counts_text, header};

use crate::bases::{first_base, placed_rule};
use book::read::ReadBook;
use counts::variables;
use numbering::pairs_clauses;
use rule_blocks::rules::rule_clauses;
use term::Terms;
use text::writing::{write_byte, write_decimal, write_text};

// "M the number of clauses that follow".
#[tactic(auto, using(counts::proofs::ReadRules::read_few_symbols, counts::proofs::ReadRules::read_few_rules, crate::proofs::RulesWalk::few_nodes, crate::proofs::RulesWalk::small_base))]
fn clause_count(book: &ReadBook) -> usize
    ensures { result ≡ length (flatten (blocks (book_of book.now))) }
{
    let terms = Terms {
        bytes: book.bytes,
        arities: book.places.arities,
    };
    let mut base = first_base(book.places.symbols);
    let mut clauses = pairs_clauses(book.places.symbols);
    for i in 0..book.places.rules {
        let rule = placed_rule(&book.places, base, i);
        clauses += rule_clauses(&terms, rule);
        base += 2 * (rule.height * rule.width);
    }
    clauses
}

// A number and the byte behind it.
fn write_number(n: usize, behind: u8, out: &mut [u8]) -> usize
    ensures { Lays (decimal n ++ (behind ∷ [])) out.old result out.new }
{
    let at = write_decimal(n, out);
    at + write_byte(behind, &mut out[at..])
}

// V and M of the header, and its newline.
fn write_counts(variables: usize, clauses: usize, out: &mut [u8]) -> usize
    ensures { Lays (counts_text variables clauses) out.old result out.new }
{
    let at = write_number(variables, b' ', out);
    at + write_number(clauses, b'\n', &mut out[at..])
}

// "Block 0: `p cnf V M` and a newline".
pub fn write_header(book: &ReadBook, out: &mut [u8]) -> usize
    ensures { Lays (header (book_of book.now)) out.old result out.new }
{
    let v = variables(&book.places);
    let m = clause_count(book);
    let at = write_text(b"p cnf ", out);
    at + write_counts(v, m, &mut out[at..])
}
