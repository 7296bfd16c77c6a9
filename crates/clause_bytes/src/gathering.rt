// The parts of a whole, gathered one by one.
ghost use Rattle.std.specs.Prelude.{◌≤◌};

// The variables of the parts, `many` of them, at most 8: G or D and six arguments are 7.
// An array and a count: no heap, so there is no list that grows.
#[derive(Clone, Copy)]
pub struct Parts {
    pub many: usize,
    of: [usize; 8],
    pub ghost within: { many ≤ 8 },
}

impl Parts {
    ghost use Rattle.std.specs.Prelude.{◌+◌, ◌<◌, [], ◌∷◌, ◌++◌, ◌≡◌};
    ghost use Rattle.clause_bytes.specs.Meaning.{parts_in};

    // None.
    #[tactic(auto, unfolding(crate::specs::Meaning::parts_in))]
    pub fn none() -> Self
        ensures { (result.many ≡ 0) × (parts_in result ≡ []) }
    {
        Parts {
            many: 0,
            of: [0; 8],
        }
    }

    // One part more.
    #[tactic(auto, unfolding(crate::specs::Meaning::parts_in))]
    pub fn with(self, part: usize) -> Self
        requires { self.many < 8 }
        ensures { (result.many ≡ self.many + 1) × (parts_in result ≡ parts_in self ++ (part ∷ [])) }
    {
        let mut of = self.of;
        of[self.many] = part;
        Parts {
            many: self.many + 1,
            of,
        }
    }

    // The parts, and nothing of what stands behind them.
    #[tactic(auto, unfolding(crate::specs::Meaning::parts_in))]
    pub fn as_slice(&self) -> &[usize]
        ensures { result.now ≡ parts_in self.now }
    {
        &self.of[..self.many]
    }
}
