// The blocks of pairs of symbols: G(f,g,j), "the low j bits of f are the larger number", bit by bit.
#![tactic(auto)]

ghost use Rattle.std.specs.Prelude.{◌-◌, ◌*◌, ◌≤◌, ◌<◌, ◌≡◌, get_or};
ghost use mathlib.Core.List.{[], flat_map};
ghost use Rattle.term.specs.Tables.{rank_bits};
ghost use Rattle.clauses.specs.Numbering.{bit};
ghost use Rattle.clauses.specs.Blocks.{lowest_bit, higher_bit, pair_clauses, pair_block, pair_blocks};
ghost use Rattle.clauses.specs.File.{clause_bytes};
ghost use Rattle.text.specs.Laying.{Lays};
ghost use Rattle.clause_bytes.specs.Meaning.{meant};
ghost use Rattle.clauses.specs.Pairs.{Pair, other_symbol};
ghost use Rattle.pair_blocks.specs.EachTwo.{each_two};

use clause_bytes::writing::{Literal, write_clause};
use numbering::larger_number;

// "bit b of symbol f (b = 0 is the lowest): f·k + b + 1", of either symbol of a pair.
#[tactic(auto, unfolding(clauses::specs::Numbering::bit))]
fn bit_number(k: usize, f: usize, b: usize) -> usize
    requires { (f < 16) × (k ≤ 4) × (b < 4) }
    ensures { result ≡ bit k f b }
{
    f * k + b + 1
}

// "for j = 1 (−G a)(−G −b)(G −a b)"
fn write_lowest_bit(larger: usize, a: usize, b: usize, out: &mut [u8]) -> usize
    ensures { Lays (flat_map clause_bytes (lowest_bit larger a b)) out.old result out.new }
{
    let mut at = write_clause(&[Literal::IsNot(larger), Literal::Is(a)], out);
    at += write_clause(&[Literal::IsNot(larger), Literal::IsNot(b)], &mut out[at..]);
    at + write_clause(
        &[Literal::Is(larger), Literal::IsNot(a), Literal::Is(b)],
        &mut out[at..],
    )
}

// The whole with each two of three literals.
fn write_each_two(whole: Literal, x: Literal, y: Literal, z: Literal, out: &mut [u8]) -> usize
    ensures { Lays (flat_map clause_bytes (each_two (meant whole) (meant x) (meant y) (meant z))) out.old result out.new }
{
    let mut at = write_clause(&[whole, x, y], out);
    at += write_clause(&[whole, x, z], &mut out[at..]);
    at + write_clause(&[whole, y, z], &mut out[at..])
}

// "for larger j (G −a b)(G −a −q)(G b −q)(−G a −b)(−G a q)(−G −b q)"
fn write_higher_bit(larger: usize, a: usize, b: usize, q: usize, out: &mut [u8]) -> usize
    ensures { Lays (flat_map clause_bytes (higher_bit larger a b q)) out.old result out.new }
{
    let at = write_each_two(
        Literal::Is(larger),
        Literal::IsNot(a),
        Literal::Is(b),
        Literal::IsNot(q),
        out,
    );
    at + write_each_two(
        Literal::IsNot(larger),
        Literal::Is(a),
        Literal::IsNot(b),
        Literal::Is(q),
        &mut out[at..],
    )
}

// The clauses of a pair at one bit.
fn write_pair_clauses(n: usize, k: usize, f: usize, g: usize, b: usize, out: &mut [u8]) -> usize
    requires { Pair n f g × (k ≤ 4) × (b < k) }
    ensures { Lays (flat_map clause_bytes (pair_clauses n k f g b)) out.old result out.new }
{
    let larger = larger_number(n, k, f, g, b + 1);
    let of_f = bit_number(k, f, b);
    let of_g = bit_number(k, g, b);
    if b == 0 {
        write_lowest_bit(larger, of_f, of_g, out)
    } else {
        write_higher_bit(larger, of_f, of_g, larger_number(n, k, f, g, b), out)
    }
}

// The block of a pair: its clauses at each bit.
#[tactic(auto, using(clause_bytes::proofs::EachLaid::none_laid))]
fn write_pair_block(n: usize, k: usize, f: usize, g: usize, out: &mut [u8]) -> usize
    requires { Pair n f g × (k ≤ 4) }
    ensures { Lays (flat_map clause_bytes (pair_block n k f g)) out.old result out.new }
{
    let mut at = 0;
    for b in 0..k {
        at += write_pair_clauses(n, k, f, g, b, &mut out[at..]);
    }
    at
}

// The symbol with number r among those besides f.
#[tactic(auto, unfolding(clauses::specs::Pairs::other_symbol))]
fn other_symbol(f: usize, r: usize) -> usize
    requires { r < 16 }
    ensures { result ≡ other_symbol f r }
{
    if r < f { r } else { r + 1 }
}

// The block of the pair with number p.
pub fn write_pair(n: usize, p: usize, out: &mut [u8]) -> usize
    requires { (n ≤ 16) × (p < n * (n - 1)) }
    ensures { Lays (flat_map clause_bytes (get_or (pair_blocks n (rank_bits n)) p [])) out.old result out.new }
{
    let k = term::rank_bits(n);
    let others = n - 1;
    let f = p / others;
    let g = other_symbol(f, p % others);
    write_pair_block(n, k, f, g, out)
}
