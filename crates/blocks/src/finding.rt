// Where the block of a number is.
ghost use Rattle.blocks.specs.Found.{Finds, FindsBlock};

use crate::bases::{first_base, placed_rule};
use book::read::ReadBook;
use rule_blocks::PlacedRule;

// Where a block is: the header, a pair with its number p, or a rule at its places and the block's number there.
#[derive(Clone, Copy)]
pub enum Place {
    Header,
    Pair(usize),
    InRule(PlacedRule, usize),
}

// The block of this number among the rules' blocks, as its rule and its number there: "for each rule a block (C of 0,0), and a block for
// each (u,v)", so |l||r| + 1.
#[tactic(auto, using(counts::proofs::ReadRules::read_few_symbols, counts::proofs::ReadRules::read_few_rules, crate::proofs::RulesWalk::few_nodes, crate::proofs::RulesWalk::small_base))]
fn find_rule(book: &ReadBook, number: usize) -> Option<(PlacedRule, usize)>
    ensures { Finds book.now number result }
{
    let mut base = first_base(book.places.symbols);
    let mut rest = number;
    for i in 0..book.places.rules {
        let rule = placed_rule(&book.places, base, i);
        let nodes = rule.height * rule.width;
        if rest <= nodes {
            return Some((rule, rest));
        }
        rest -= nodes + 1;
        base += 2 * nodes;
    }
    None
}

// The block of this number: the header, "Then a block for each ordered pair f ≠ g, by p. .. Then for each rule".
pub fn find_block(book: &ReadBook, number: usize) -> Option<Place>
    ensures { FindsBlock book.now number result }
{
    if number == 0 {
        return Some(Place::Header);
    }
    let n = book.places.symbols;
    let many = n * n - n;
    if number <= many {
        return Some(Place::Pair(number - 1));
    }
    let (rule, rest) = find_rule(book, number - 1 - many)?;
    Some(Place::InRule(rule, rest))
}
