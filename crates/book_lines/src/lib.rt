// The lines that tell a book. Each function lays its text onto the start of the buffer that is lent to it, as far as it fits, and answers
// how many bytes it laid.
#![tactic(auto)]

ghost use Rattle.std.specs.Prelude.{◌<◌, ◌++◌, get_or};
ghost use Rattle.text.specs.Laying.{Lays};
ghost use Rattle.book.specs.BookOf.{book_of};
ghost use Rattle.book.specs.Reading.{read_book};
ghost use Rattle.term_text.specs.TermText.{term_text};
ghost use Rattle.term_lines.specs.Lines.{LaysFor};
ghost use Rattle.book_lines.specs.Lines.{
  one_by_one,
  symbol_text,
  head_lines,
  sides_text,
  rule_line,
  book_lines,
  shown_lines,
  no_rule,
};

use book::read::ReadBook;
use number_text::{write_counted, write_line};
use reply_lines::write_refused;
use term::Terms;
use term_text::write_term;
use text::wide;
use text::writing::{write_byte, write_text};

// A symbol and its arity.
fn write_symbol(f: usize, arity: u8, out: &mut [u8]) -> usize
    ensures { Lays (symbol_text f arity) out.old result out.new }
{
    let at = write_counted(b" f", f, out);
    at + write_counted(b"/", wide(arity), &mut out[at..])
}

// Each symbol with its arity.
fn write_symbols(arities: &[u8], out: &mut [u8]) -> usize
    ensures { Lays (one_by_one symbol_text 0 arities.now) out.old result out.new }
{
    let mut at = 0;
    for (f, &arity) in arities.iter().enumerate() {
        at += write_symbol(f, arity, &mut out[at..]);
    }
    at
}

// `symbols` and each symbol with its arity, `rules` and how many there are.
fn write_head(arities: &[u8], rules: usize, out: &mut [u8]) -> usize
    ensures { Lays (head_lines arities.now rules) out.old result out.new }
{
    let start = write_text(b"symbols", out);
    let at = start + write_symbols(arities, &mut out[start..]);
    at + write_line(b"\nrules ", rules, &mut out[at..])
}

// A side of a rule behind this word.
fn write_side(word: &[u8], terms: &Terms, u: usize, out: &mut [u8]) -> usize
    ensures { LaysFor terms.now.bytes.now terms.now.arities u (λ t. word.now ++ term_text t) out.old result out.new }
{
    let at = write_text(word, out);
    let side = write_term(terms, u, &mut out[at..]);
    at + side.laid
}

// Both sides of rule i.
#[tactic(auto, using(crate::proofs::Rules::few_rules_lem))]
fn write_sides(book: &ReadBook, i: usize, out: &mut [u8]) -> usize
    requires { i < book.now.places.rules }
    ensures { Lays (sides_text (get_or (book_of book.now).rules i no_rule)) out.old result out.new }
{
    let terms = Terms {
        bytes: book.bytes,
        arities: book.places.arities,
    };
    let rule = book.places.places[i];
    let middle = write_side(b": ", &terms, rule.left.at, out);
    let at = middle + write_side(b" -> ", &terms, rule.right.at, &mut out[middle..]);
    at + write_byte(b'\n', &mut out[at..])
}

fn write_rule(book: &ReadBook, i: usize, out: &mut [u8]) -> usize
    requires { i < book.now.places.rules }
    ensures { Lays (rule_line i (get_or (book_of book.now).rules i no_rule)) out.old result out.new }
{
    let at = write_counted(b"rule ", i, out);
    at + write_sides(book, i, &mut out[at..])
}

fn write_rules(book: &ReadBook, out: &mut [u8]) -> usize
    ensures { Lays (one_by_one rule_line 0 (book_of book.now).rules) out.old result out.new }
{
    let mut at = 0;
    for i in 0..book.places.rules {
        at += write_rule(book, i, &mut out[at..]);
    }
    at
}

#[tactic(auto, using(crate::proofs::Rules::few_symbols_lem))]
fn write_found(book: &ReadBook, out: &mut [u8]) -> usize
    ensures { Lays (book_lines (book_of book.now)) out.old result out.new }
{
    let at = write_head(
        &book.places.arities[..book.places.symbols],
        book.places.rules,
        out,
    );
    at + write_rules(book, &mut out[at..])
}

// The book that these bytes are: its symbols and a line a rule; or the refusal.
pub fn write_book(bytes: &[u8], out: &mut [u8]) -> usize
    ensures { Lays (shown_lines (read_book bytes.now)) out.old result out.new }
{
    match book::read_book(bytes) {
        Ok(places) => write_found(&ReadBook { bytes, places }, out),
        Err(refusal) => write_refused(refusal, out),
    }
}
