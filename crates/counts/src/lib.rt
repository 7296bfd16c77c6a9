// V, and how many blocks there are: what is counted without looking at a term.
#![tactic(auto)]

ghost use Rattle.std.specs.Prelude.{ℕ, List, ◌≡◌, length};
ghost use Rattle.book.specs.Meaning.{book_at};
ghost use Rattle.book.specs.WasRead.{ReadFrom, WasRead};
ghost use Rattle.clauses.specs.Blocks.{«V»};
ghost use Rattle.clauses.specs.File.{file_blocks};

use book::Book;

// "V the base after the last rule", "from n²·k on .. the base grows by 2|l||r| a rule". A `ReadBook` would ask a caller for the bytes too,
// `WasRead` does not.
#[tactic(auto, using(crate::proofs::ReadRules::read_few_rules))]
pub fn variables(book: &Book) -> usize
    requires { WasRead book.now }
    ensures { (bytes : List ℕ) → ReadFrom bytes book.now → result ≡ «V» (book_at bytes book.now) }
{
    let n = book.symbols;
    let bits = n * term::rank_bits(n);
    let mut base = n * bits;
    for rule in &book.places[..book.rules] {
        base += 2 * (rule.left.nodes * rule.right.nodes);
    }
    base
}

// "Blocks are numbered from 0": the header, "a block for each ordered pair f ≠ g", and for each rule a block and "a block for each (u,v)".
#[tactic(auto, using(crate::proofs::ReadRules::read_few_rules))]
pub fn count_blocks(book: &Book) -> usize
    requires { WasRead book.now }
    ensures { (bytes : List ℕ) → ReadFrom bytes book.now → result ≡ length (file_blocks (book_at bytes book.now)) }
{
    let symbols = book.symbols;
    let mut blocks = 1 + symbols * symbols - symbols;
    for rule in &book.places[..book.rules] {
        blocks += 1 + rule.left.nodes * rule.right.nodes;
    }
    blocks
}
