// The blocks of one rule, by number: (C of 0,0), then (u,v), v fastest. That a rule stands at these places is a clause of each function and no
// type: it is a fact about one rule among many in the same bytes.
ghost use Rattle.std.specs.Prelude.{◌+◌, ◌*◌, ◌≤◌, ◌<◌, ◌≡◌, length, get_or};
ghost use mathlib.Core.List.{[], flat_map, flatten};
ghost use Rattle.book.specs.Book.{Rule};
ghost use Rattle.clauses.specs.Blocks.{rule_blocks};
ghost use Rattle.clauses.specs.File.{clause_bytes};
ghost use Rattle.text.specs.Laying.{Lays};
ghost use Rattle.rule_blocks.specs.Nodes.{setting_of};
ghost use Rattle.rule_blocks.specs.TwoNodes.{numbered_nodes};
ghost use Rattle.rule_blocks.specs.Rules.{RuleStands, SomeRule};

use crate::PlacedRule;
use crate::nodes::TwoNodes;
use clause_bytes::writing::{Literal, write_clause};
use term::Terms;

// The two nodes of the rule's block of this number, which is not the first.
#[tactic(auto, unfolding(crate::specs::TwoNodes::numbered_nodes))]
fn numbered_nodes<'a>(terms: &Terms<'a>, placed: PlacedRule, number: usize) -> TwoNodes<'a>
    requires { (0 < number) × (0 < placed.width) }
    ensures { result ≡ numbered_nodes terms.now placed number }
{
    TwoNodes {
        terms: *terms,
        placed,
        u: (number - 1) / placed.width,
        v: (number - 1) % placed.width,
    }
}

// The rule's block of this number.
pub fn write_rule_block(terms: &Terms, placed: PlacedRule, number: usize, out: &mut [u8]) -> usize
    requires { SomeRule terms.now.bytes.now terms.now.arities placed × (number ≤ placed.height * placed.width) }
    ensures { (rule : Rule) → RuleStands terms.now.bytes.now terms.now.arities placed rule →
        Lays (flat_map clause_bytes (get_or (rule_blocks (setting_of placed) rule) number [])) out.old result out.new }
{
    if number == 0 {
        return write_clause(&[Literal::Is(placed.c_number(0, 0))], out);
    }
    numbered_nodes(terms, placed, number).write_block(out)
}

// How many clauses the rule's block of this number has.
fn rule_block_clauses(terms: &Terms, placed: PlacedRule, number: usize) -> usize
    requires { SomeRule terms.now.bytes.now terms.now.arities placed × (number ≤ placed.height * placed.width) }
    ensures few { result ≤ 16 }
    ensures count { (rule : Rule) → RuleStands terms.now.bytes.now terms.now.arities placed rule →
        result ≡ length (get_or (rule_blocks (setting_of placed) rule) number []) }
{
    if number == 0 {
        return 1;
    }
    numbered_nodes(terms, placed, number).clauses()
}

// How many clauses the rule has in all its blocks.
pub fn rule_clauses(terms: &Terms, placed: PlacedRule) -> usize
    requires { SomeRule terms.now.bytes.now terms.now.arities placed }
    ensures few { result ≤ 16 * 101 }
    ensures count { (rule : Rule) → RuleStands terms.now.bytes.now terms.now.arities placed rule → result ≡ length (flatten (rule_blocks (setting_of placed) rule)) }
{
    let blocks = placed.height * placed.width + 1;
    let mut clauses = 0;
    for number in 0..blocks {
        clauses += rule_block_clauses(terms, placed, number);
    }
    clauses
}
