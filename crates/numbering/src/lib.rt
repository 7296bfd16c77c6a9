// "Numbering of variables, from 1": the numbers that the book's symbols alone settle.
#![tactic(auto)]

ghost use Rattle.std.specs.Prelude.{◌-◌, ◌≤◌, ◌≡◌, length};
ghost use mathlib.Core.List.{flatten};
ghost use Rattle.term.specs.Tables.{rank_bits};
ghost use Rattle.clauses.specs.Numbering.{pair_number, G};
ghost use Rattle.clauses.specs.Blocks.{pair_blocks};
ghost use Rattle.clauses.specs.Pairs.{Pair};

// "p = f(n−1) + g if g < f, else f(n−1) + g − 1"
#[tactic(auto, unfolding(clauses::specs::Numbering::pair_number))]
fn pair_number(n: usize, f: usize, g: usize) -> usize
    requires { Pair n f g }
    ensures { result ≡ pair_number n f g }
{
    let first = f * n.saturating_sub(1);
    if g < f { first + g } else { first + g - 1 }
}

// G(f,g,j), "the low j bits of f are the larger number".
#[tactic(auto, unfolding(clauses::specs::Numbering::G), using(crate::proofs::Small::bits_small, crate::proofs::Small::larger_small))]
pub fn larger_number(n: usize, k: usize, f: usize, g: usize, j: usize) -> usize
    requires { Pair n f g × (k ≤ 4) × (j ≤ 4) }
    ensures { result ≡ G n k f g j }
{
    n * k + pair_number(n, f, g) * k + j
}

// How many clauses the blocks of the n(n − 1) pairs have: 6k − 3 each.
#[tactic(auto, using(clauses::proofs::RankBits::rank_bits_few, crate::proofs::Small::clauses_small))]
pub fn pairs_clauses(n: usize) -> usize
    requires { n ≤ 16 }
    ensures few { result ≤ 5376 }
    ensures count { result ≡ length (flatten (pair_blocks n (rank_bits n))) }
{
    let k = term::rank_bits(n);
    n * n.saturating_sub(1) * (6 * k).saturating_sub(3)
}
