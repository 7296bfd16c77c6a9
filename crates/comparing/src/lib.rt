// The order on terms that stand in bytes: "Comparing two terms and comparing two argument lists call each other, the sizes of both
// sides together falling." A term is the place of its first node; every node is two bytes.
#![tactic(auto)]

ghost use Rattle.std.specs.Prelude.{◌≡◌, ◌<◌};
ghost use Rattle.term.specs.At.{Standing};
ghost use Rattle.order.specs.Precedence.{above};
ghost use Rattle.comparing.specs.Compared.{RootAt, ArgumentsAt, ListsAt, ExceedsAt, SomeReachesAt, ExceedsEveryAt, DecreasesAt};

use term::Terms;

// The root of a term that is no variable: its symbol, how many arguments there are, and the place of the first.
#[derive(Clone, Copy)]
pub(crate) struct Root {
    pub symbol: usize,
    pub many: usize,
    pub first: usize,
}

// The root of the term at a place; none where that is a variable. On its own, since a proof is told of a borrowed `Terms` that it has 16
// arities and that its places fit, and of one inside a `Ranked` neither: the goals that open are what `higher` requires, and s + 2.
fn root_at(terms: &Terms, at: usize) -> Option<Root>
    requires { Standing terms.now.bytes.now terms.now.arities at }
    ensures { RootAt terms.now.bytes.now terms.now.arities at result }
{
    let symbol = terms.symbol_at(at)?;
    let many = terms.arguments_at(at);
    Some(Root {
        symbol,
        many,
        first: at + 2,
    })
}

// What a comparison knows: terms that stand in some bytes, and each symbol's rank.
#[derive(Clone, Copy)]
pub struct Ranked<'a> {
    pub terms: Terms<'a>,
    pub ranks: [u8; 16],
}

impl Ranked<'_> {
    // "f is above g exactly if its rank is larger."
    #[tactic(auto, unfolding(order::specs::Precedence::above))]
    fn higher(&self, f: usize, g: usize) -> bool
        requires { (f < 16) × (g < 16) }
        ensures { result ≡ above self.now.ranks f g }
    {
        self.ranks[g] < self.ranks[f]
    }

    // "A term s exceeds t when s = f(s1..sm) and one of these holds": (3) is tried first, then (2), then (1).
    #[cycle(decreases_at_exceeds_exceeds_every_some_reaches)]
    pub fn exceeds(&self, s: usize, t: usize) -> bool
        requires s_stands { Standing self.now.terms.bytes.now self.now.terms.arities s }
        requires t_stands { Standing self.now.terms.bytes.now self.now.terms.arities t }
        ensures { ExceedsAt self.now.terms.bytes.now self.now.terms.arities self.now.ranks s t result }
    {
        let Some(left) = root_at(&self.terms, s) else {
            return false;
        };
        if self.some_reaches(left.many, left.first, t) {
            return true;
        }
        let Some(right) = root_at(&self.terms, t) else {
            return false;
        };
        if self.higher(left.symbol, right.symbol) {
            return self.exceeds_every(s, right.many, right.first);
        }
        left.symbol == right.symbol && self.decreases_at(s, left.many, left.first, right.first)
    }

    // (3) "some si is identical to t or exceeds t", of the arguments that stand from ss on.
    #[cycle(decreases_at_exceeds_exceeds_every_some_reaches)]
    fn some_reaches(&self, many: usize, ss: usize, t: usize) -> bool
        requires ss_stand { ArgumentsAt self.now.terms.bytes.now self.now.terms.arities many ss }
        requires t_stands { Standing self.now.terms.bytes.now self.now.terms.arities t }
        ensures { SomeReachesAt self.now.terms.bytes.now self.now.terms.arities self.now.ranks many ss t result }
    {
        let mut at = ss;
        for _ in 0..many {
            if self.terms.same_at(at, t) || self.exceeds(at, t) {
                return true;
            }
            at = self.terms.end_of(at);
        }
        false
    }

    // "s exceeds every tj", of the arguments that stand from ts on.
    #[cycle(decreases_at_exceeds_exceeds_every_some_reaches)]
    fn exceeds_every(&self, s: usize, many: usize, ts: usize) -> bool
        requires s_stands { Standing self.now.terms.bytes.now self.now.terms.arities s }
        requires ts_stand { ArgumentsAt self.now.terms.bytes.now self.now.terms.arities many ts }
        ensures { ExceedsEveryAt self.now.terms.bytes.now self.now.terms.arities self.now.ranks s many ts result }
    {
        let mut at = ts;
        for _ in 0..many {
            if !self.exceeds(s, at) {
                return false;
            }
            at = self.terms.end_of(at);
        }
        true
    }

    // (1) "for some i the arguments before i are identical, si exceeds ti, and s exceeds every tj with j > i": i is the first place at
    // which the arguments from ss and from ts on differ.
    #[cycle(decreases_at_exceeds_exceeds_every_some_reaches)]
    fn decreases_at(&self, s: usize, many: usize, ss: usize, ts: usize) -> bool
        requires { ListsAt self.now.terms.bytes.now self.now.terms.arities s many ss ts }
        ensures { DecreasesAt self.now.terms.bytes.now self.now.terms.arities self.now.ranks s many ss ts result }
    {
        let mut s_at = ss;
        let mut t_at = ts;
        for before in 0..many {
            let t_later = self.terms.end_of(t_at);
            if !self.terms.same_at(s_at, t_at) {
                return self.exceeds(s_at, t_at)
                    && self.exceeds_every(s, many - before - 1, t_later);
            }
            s_at = self.terms.end_of(s_at);
            t_at = t_later;
        }
        false
    }
}
