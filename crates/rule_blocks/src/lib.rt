// The blocks of a rule: (C of 0,0), and one for each node of its left side with each of its right.
#![tactic(auto)]

mod nodes;
pub mod rules;

// A rule at its places: n, k and the rule's base, which its blocks share, where its sides stand in the book's bytes, |l| and |r|.
#[derive(Clone, Copy)]
pub struct PlacedRule {
    pub symbols: usize,
    pub bits: usize,
    pub base: usize,
    pub left: usize,
    pub height: usize,
    pub right: usize,
    pub width: usize,
}
