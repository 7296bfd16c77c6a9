// The rules of a read book at their places, each with its base: "from n²·k on, rule by rule .. the base grows by 2|l||r| a rule".
ghost use Rattle.std.specs.Prelude.{◌≤◌, ◌<◌, ◌≡◌};
ghost use Rattle.term.specs.Tables.{rank_bits};
ghost use Rattle.clauses.specs.Numbering.{first_base};
ghost use Rattle.blocks.specs.RulePlaces.{placed_rule};

use book::Book;
use rule_blocks::PlacedRule;

// Rule i, whose numbers of C and D start at this base.
#[tactic(auto, unfolding(crate::specs::RulePlaces::placed_rule))]
pub fn placed_rule(book: &Book, base: usize, i: usize) -> PlacedRule
    requires { i < 32 }
    ensures { result ≡ placed_rule book.now base i }
{
    let places = book.places[i];
    PlacedRule {
        symbols: book.symbols,
        bits: term::rank_bits(book.symbols),
        base,
        left: places.left.at,
        height: places.left.nodes,
        right: places.right.at,
        width: places.right.nodes,
    }
}

// "from n²·k on": the base before the first rule.
#[tactic(auto, unfolding(clauses::specs::Numbering::first_base))]
pub fn first_base(n: usize) -> usize
    requires { n ≤ 16 }
    ensures { result ≡ first_base n (rank_bits n) }
{
    n * n * term::rank_bits(n)
}
