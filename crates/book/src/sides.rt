// The side of a rule that is being read: how many of its subterms are missing, and how many nodes came.
ghost use Rattle.std.specs.Prelude.{◌≡◌, ◌<◌, ◌≤◌};
ghost use Rattle.book.specs.Sides.{side_open, no_rule_yet, left_open, no_side, opened, with_node};

// Where the reading of a book stands: the left side is open from the start of its rule on, the right side as soon as the left is whole,
// and none once the right is whole.
#[derive(Clone, Copy, Debug, Default, PartialEq, Eq)]
pub enum Stage {
    #[default]
    BeforeRules,
    InLeft,
    InRight,
    RuleWhole,
}

impl Stage {
    // Whether a side is open.
    #[tactic(auto, unfolding(crate::specs::Sides::side_open))]
    pub fn side_open(self) -> bool
        ensures { result ≡ side_open self }
    {
        matches!(self, Stage::InLeft | Stage::InRight)
    }

    // Whether symbols may still come.
    #[tactic(auto, unfolding(crate::specs::Sides::no_rule_yet))]
    pub fn no_rule_yet(self) -> bool
        ensures { result ≡ no_rule_yet self }
    {
        self == Stage::BeforeRules
    }

    // Whether the side that is open is a left one.
    #[tactic(auto, unfolding(crate::specs::Sides::left_open))]
    pub fn left_open(self) -> bool
        ensures { result ≡ left_open self }
    {
        self == Stage::InLeft
    }
}

// Where no side is open both counts are 0.
#[derive(Clone, Copy, Default)]
pub struct Side {
    pub stage: Stage,
    pub missing: usize,
    pub nodes: usize,
}

impl Side {
    // No side is open.
    #[tactic(auto, unfolding(crate::specs::Sides::no_side))]
    pub fn none(stage: Stage) -> Side
        ensures { result ≡ no_side stage }
    {
        Side {
            stage,
            missing: 0,
            nodes: 0,
        }
    }

    // A side of which nothing came yet.
    #[tactic(auto, unfolding(crate::specs::Sides::opened))]
    pub fn opened(stage: Stage) -> Side
        ensures { result ≡ opened stage }
    {
        Side {
            stage,
            missing: 1,
            nodes: 0,
        }
    }

    // One node more, which opens so many subterms.
    #[tactic(auto, unfolding(crate::specs::Sides::with_node))]
    pub fn with_node(self, opens: usize) -> Side
        requires missing_nonzero { 0 < self.missing }
        requires missing_bound { self.missing ≤ 65536 }
        requires nodes_bound { self.nodes ≤ 65536 }
        requires opens_bound { opens ≤ 65536 }
        ensures { result ≡ with_node self opens }
    {
        Side {
            stage: self.stage,
            missing: self.missing - 1 + opens,
            nodes: self.nodes + 1,
        }
    }
}
