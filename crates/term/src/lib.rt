// Terms as places in bytes. The definitions stand in specs/.
#![tactic(auto)]

pub mod kinds;

ghost use Rattle.std.specs.Prelude.{◌≡◌, ℕ, length, get_or};
ghost use Rattle.reply.specs.Lent.{overlaid};
ghost use Rattle.term.specs.Tables.{body_length, rank_bits};
ghost use Rattle.term.specs.Term.{Term, count, same};
ghost use Rattle.term.specs.Root.{symbol_of, arguments};
ghost use Rattle.term.specs.At.{At, Standing};
ghost use Rattle.term.specs.Copied.{copied};

use kinds::Kind;
use text::wide;
use text::writing::write_text;

// "Constant tables give body length per kind and rank bits for each symbol count."
const BODY_LENGTHS: [u8; 6] = [0, 1, 0, 1, 1, 0];

const RANK_BITS: [u8; 17] = [0, 0, 1, 2, 2, 3, 3, 3, 3, 4, 4, 4, 4, 4, 4, 4, 4];

// A table's entry for a number; 0 past the table's end.
fn entry(table: &[u8], number: usize) -> usize
    ensures { result ≡ get_or table.now number 0 }
{
    wide(table.get(number).copied().unwrap_or(0))
}

// How many bytes the body of a record of this kind has; 0 for an unknown kind.
#[tactic(auto, unfolding(crate::specs::Tables::body_length, crate::specs::Tables::body_lengths))]
pub fn body_length(kind: u8) -> usize
    ensures { result ≡ body_length kind }
{
    entry(&BODY_LENGTHS, wide(kind))
}

// k of the clause file for so many symbols: the least number with 2^k at least that many, 0 for none or one; 0 above 16 symbols.
#[tactic(auto, unfolding(crate::specs::Tables::rank_bits, crate::specs::Tables::rank_bits_table))]
pub fn rank_bits(symbols: usize) -> usize
    ensures { result ≡ rank_bits symbols }
{
    entry(&RANK_BITS, symbols)
}

// Bytes in which terms stand, and the arity of each symbol. That a term stands at a place is a clause of each method and no type: it is a fact
// about one place among many.
#[derive(Clone, Copy)]
pub struct Terms<'a> {
    pub bytes: &'a [u8],
    pub arities: [u8; 16],
}

impl Terms<'_> {
    // The symbol at the root of the term at this place; none where that is a variable.
    pub fn symbol_at(&self, at: usize) -> Option<usize>
        requires { Standing self.now.bytes.now self.now.arities at }
        ensures { (t : Term) (e : ℕ) → At self.now.bytes.now self.now.arities at t e → result ≡ symbol_of t }
    {
        if Kind::try_from(self.bytes[at]) == Ok(Kind::SymbolNode) {
            Some(wide(self.bytes[at + 1]))
        } else {
            None
        }
    }

    // How many arguments the root of the term at this place has: those of its symbol, and none of a variable.
    #[tactic(auto, using(crate::proofs::At::symbol_declared, crate::proofs::At::arguments_of_symbol, crate::proofs::At::arguments_of_none))]
    pub fn arguments_at(&self, at: usize) -> usize
        requires { Standing self.now.bytes.now self.now.arities at }
        ensures { (t : Term) (e : ℕ) → At self.now.bytes.now self.now.arities at t e → result ≡ count (arguments t) }
    {
        match self.symbol_at(at) {
            Some(symbol) => wide(self.arities[symbol]),
            None => 0,
        }
    }

    // The place behind the term that stands at this place. `missing` subterms are still to come: a node is one of them and brings
    // its arguments.
    pub fn end_of(&self, at: usize) -> usize
        requires { Standing self.now.bytes.now self.now.arities at }
        ensures { (t : Term) (e : ℕ) → At self.now.bytes.now self.now.arities at t e → result ≡ e }
    {
        let mut place = at;
        let mut missing: usize = 1;
        // A `while`: the count falls by one and rises by the arguments, so no range or iterator has the turns.
        while 0 < missing {
            missing = missing - 1 + self.arguments_at(place);
            place += 2;
        }
        place
    }

    // Whether the terms at the places a and b are identical: node by node in prefix order, up to the first that differs. As long as
    // none does, both have the same subterms still to come.
    pub fn same_at(&self, a: usize, b: usize) -> bool
        requires standing { Standing self.now.bytes.now self.now.arities a }
        requires standing_2 { Standing self.now.bytes.now self.now.arities b }
        ensures { (s t : Term) (d e : ℕ) → At self.now.bytes.now self.now.arities a s d → At self.now.bytes.now self.now.arities b t e → result ≡ same s t }
    {
        let mut left = a;
        let mut right = b;
        let mut missing: usize = 1;
        // A `while`: the count falls by one and rises by the arguments, so no range or iterator has the turns.
        while 0 < missing {
            if self.bytes[left] != self.bytes[right] {
                return false;
            }
            if self.bytes[left + 1] != self.bytes[right + 1] {
                return false;
            }
            missing = missing - 1 + self.arguments_at(left);
            left += 2;
            right += 2;
        }
        true
    }
}

// Lays the bytes from start to end at the start of `out`, as far as there are such and as many as fit, and answers how many.
// Later bytes of `out` keep their values.
pub fn copy(bytes: &[u8], start: usize, end: usize, out: &mut [u8]) -> usize
    ensures laid { result ≡ length (copied bytes.now start end (length out.old)) }
    ensures kept { out.new ≡ overlaid (copied bytes.now start end (length out.old)) out.old }
{
    let stop = end.min(bytes.len());
    if stop <= start {
        return 0;
    }
    write_text(&bytes[start..stop], out)
}
