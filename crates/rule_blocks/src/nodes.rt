// The block of two nodes, one of a rule's left side and one of its right: s and t are the subterms there.
ghost use Rattle.std.specs.Prelude.{ℕ, ◌+◌, ◌*◌, ◌≤◌, ◌≡◌, length};
ghost use mathlib.Core.List.{◌∷◌, ◌++◌, map, flat_map};
ghost use Rattle.term.specs.Term.{Term, Args, size};
ghost use Rattle.term.specs.At.{At, ArgsAt};
ghost use Rattle.clauses.specs.Blocks.{Numbered, numbered_args, CAt, parts_behind, parts_of_d, parts_of_c, some_identical, clauses_of_c};
ghost use Rattle.clauses.specs.File.{clause_bytes};
ghost use Rattle.text.specs.Laying.{Lays};
ghost use Rattle.clause_bytes.specs.Meaning.{parts_in};
ghost use Rattle.clauses.specs.Numbering.{G};
ghost use Rattle.clauses.specs.Pairs.{Pair};
ghost use Rattle.rule_blocks.specs.Nodes.{setting_of, nodes_block, WithinMaximum, NodeAt, NodesAt};
ghost use Rattle.rule_blocks.specs.TwoNodes.{Stand, AreAt};

use crate::PlacedRule;
use clause_bytes::gathering::Parts;
use clause_bytes::parts::{write_all_parts, write_some_parts};
use clause_bytes::writing::{Literal, write_clause};
use numbering::larger_number;
use term::Terms;

impl PlacedRule {
    // "C = base + 2(u|r| + v) + 1"
    #[tactic(auto, unfolding(crate::specs::Nodes::setting_of, clauses::specs::Blocks::CAt, clauses::specs::Numbering::C))]
    pub fn c_number(self, u: usize, v: usize) -> usize
        requires { WithinMaximum self × (u ≤ 10) × (v ≤ 10) }
        ensures { result ≡ CAt (setting_of self) u v }
    {
        self.base + 2 * (u * self.width + v) + 1
    }
}

// The number of the node behind the subterm at this node of the side that starts at `start`.
fn node_behind(terms: &Terms, start: usize, node: usize) -> usize
    requires { NodeAt terms.now.bytes.now terms.now.arities start node }
    ensures { (t : Term) (e : ℕ) → At terms.now.bytes.now terms.now.arities (start + 2 * node) t e → result ≡ node + size t }
{
    (terms.end_of(start + 2 * node) - start) / 2
}

// To the parts, `first + step·node` for each of so many subterms that stand one after another from this node on.
fn parts_along(
    terms: &Terms,
    start: usize,
    node: usize,
    many: usize,
    first: usize,
    step: usize,
    parts: Parts,
) -> Parts
    requires { NodesAt terms.now.bytes.now terms.now.arities start node many × (parts.many + many ≤ 8) × (first ≤ 65536) × (step ≤ 65536) }
    ensures count { result.many ≡ parts.many + many }
    ensures are { (ts : Args) (e : ℕ) → ArgsAt terms.now.bytes.now terms.now.arities many (start + 2 * node) ts e →
        parts_in result ≡ parts_in parts ++ map (λ (t : Numbered). first + step * t.node) (numbered_args node ts) }
{
    let mut at = node;
    let mut so_far = parts;
    for _ in 0..many {
        so_far = so_far.with(first + step * at);
        at = node_behind(terms, start, at);
    }
    so_far
}

// The parts behind the arguments of one symbol at node u of the left side and node v of the right, `many` of them on each: "the
// arguments first differ at i, C(si,ti), then C(s,tj) for j > i".
// On its own, since of a `Terms` inside a `TwoNodes` a proof is not told that its places fit.
fn parts_behind(terms: &Terms, placed: PlacedRule, u: usize, v: usize, many: usize) -> Parts
    requires within_maximum { WithinMaximum placed × (u ≤ 10) × (many ≤ 6) }
    requires nodes_at { NodesAt terms.now.bytes.now terms.now.arities placed.left (u + 1) many
        × NodesAt terms.now.bytes.now terms.now.arities placed.right (v + 1) many }
    ensures count { result.many ≤ 7 }
    ensures are { (ss ts : Args) (d e : ℕ) → ArgsAt terms.now.bytes.now terms.now.arities many (placed.left + 2 * (u + 1)) ss d →
        ArgsAt terms.now.bytes.now terms.now.arities many (placed.right + 2 * (v + 1)) ts e →
        parts_in result ≡ parts_behind (setting_of placed) u (numbered_args (u + 1) ss) (numbered_args (v + 1) ts) }
{
    let mut a = u + 1;
    let mut b = v + 1;
    for passed in 0..many {
        let behind = node_behind(terms, placed.right, b);
        if !terms.same_at(placed.left + 2 * a, placed.right + 2 * b) {
            let parts = Parts::none().with(placed.c_number(a, b));
            let first = placed.c_number(u, 0);
            return parts_along(
                terms,
                placed.right,
                behind,
                many - 1 - passed,
                first,
                2,
                parts,
            );
        }
        a = node_behind(terms, placed.left, a);
        b = behind;
    }
    Parts::none()
}

// Node u of a rule's left side and node v of its right. That subterms stand there is a clause of each method and no ghost field: its proofs
// name the subterms, so two of them need not be equal.
#[derive(Clone, Copy)]
pub struct TwoNodes<'a> {
    pub terms: Terms<'a>,
    pub placed: PlacedRule,
    pub u: usize,
    pub v: usize,
}

impl TwoNodes<'_> {
    // D's parts at different symbols f and g, of which g has so many arguments: "G(f,g,k), then C(s,tj) for each j".
    fn parts_apart(&self, f: usize, g: usize, many: usize) -> Parts
        requires within_maximum { WithinMaximum self.now.placed × (self.now.u ≤ 10) × (many ≤ 6) × Pair self.now.placed.symbols f g }
        requires nodes_at { NodesAt self.now.terms.bytes.now self.now.terms.arities self.now.placed.right (self.now.v + 1) many }
        ensures count { result.many ≤ 7 }
        ensures are { (ts : Args) (e : ℕ) →
            ArgsAt self.now.terms.bytes.now self.now.terms.arities many (self.now.placed.right + 2 * (self.now.v + 1)) ts e →
            parts_in result ≡ G self.now.placed.symbols self.now.placed.bits f g self.now.placed.bits
            ∷ map (λ (t : Numbered). CAt (setting_of self.now.placed) self.now.u t.node) (numbered_args (self.now.v + 1) ts) }
    {
        let placed = self.placed;
        let larger = larger_number(placed.symbols, placed.bits, f, g, placed.bits);
        let parts = Parts::none().with(larger);
        let first = placed.c_number(self.u, 0);
        parts_along(&self.terms, placed.right, self.v + 1, many, first, 2, parts)
    }

    // D's parts.
    fn parts_of_d(&self) -> Parts
        requires { Stand self.now }
        ensures count { result.many ≤ 7 }
        ensures are { (s t : Term) → AreAt self.now s t → parts_in result ≡ parts_of_d (setting_of self.now.placed) self.now.u self.now.v s t }
    {
        let left = self.placed.left + 2 * self.u;
        let right = self.placed.right + 2 * self.v;
        let Some(f) = self.terms.symbol_at(left) else {
            return Parts::none();
        };
        let Some(g) = self.terms.symbol_at(right) else {
            return Parts::none();
        };
        let many = self.terms.arguments_at(right);
        if f == g {
            parts_behind(&self.terms, self.placed, self.u, self.v, many)
        } else {
            self.parts_apart(f, g, many)
        }
    }

    // C's parts: "C(si,t) for each i, then D".
    #[tactic(auto, using(crate::proofs::Behind::C_small))]
    fn parts_of_c(&self) -> Parts
        requires { Stand self.now }
        ensures count { result.many ≤ 7 }
        ensures are { (s t : Term) → AreAt self.now s t → parts_in result ≡ parts_of_c (setting_of self.now.placed) self.now.u self.now.v s }
    {
        let left = self.placed.left;
        let many = self.terms.arguments_at(left + 2 * self.u);
        let first = self.placed.c_number(0, self.v);
        let step = 2 * self.placed.width;
        let parts = parts_along(
            &self.terms,
            left,
            self.u + 1,
            many,
            first,
            step,
            Parts::none(),
        );
        parts.with(self.placed.c_number(self.u, self.v) + 1)
    }

    // "some si is identical to t"
    fn some_identical(&self) -> bool
        requires { Stand self.now }
        ensures { (s t : Term) → AreAt self.now s t → result ≡ some_identical s t }
    {
        let left = self.placed.left;
        let right = self.placed.right + 2 * self.v;
        let many = self.terms.arguments_at(left + 2 * self.u);
        let mut at = self.u + 1;
        for _ in 0..many {
            if self.terms.same_at(left + 2 * at, right) {
                return true;
            }
            at = node_behind(&self.terms, left, at);
        }
        false
    }

    // C's clauses: "If some si is identical to t: (C). Otherwise its parts are C(si,t) for each i, then D".
    fn write_c_clauses(&self, out: &mut [u8]) -> usize
        requires { Stand self.now }
        ensures { (s t : Term) → AreAt self.now s t →
            Lays (flat_map clause_bytes (clauses_of_c (setting_of self.now.placed) self.now.u self.now.v s t)) out.old result out.new }
    {
        let c = self.placed.c_number(self.u, self.v);
        if self.some_identical() {
            write_clause(&[Literal::Is(c)], out)
        } else {
            write_some_parts(c, self.parts_of_c(), out)
        }
    }

    // Their block: "D first", then C.
    #[tactic(auto, using(crate::proofs::Behind::C_small))]
    pub fn write_block(&self, out: &mut [u8]) -> usize
        requires { Stand self.now }
        ensures { (s t : Term) → AreAt self.now s t →
            Lays (flat_map clause_bytes (nodes_block (setting_of self.now.placed) self.now.u self.now.v s t)) out.old result out.new }
    {
        let d = self.placed.c_number(self.u, self.v) + 1;
        let at = write_all_parts(d, self.parts_of_d(), out);
        at + self.write_c_clauses(&mut out[at..])
    }

    // How many clauses their block has: a whole has one for each part and one more.
    pub fn clauses(&self) -> usize
        requires { Stand self.now }
        ensures few { result ≤ 16 }
        ensures count { (s t : Term) → AreAt self.now s t →
            result ≡ length (nodes_block (setting_of self.now.placed) self.now.u self.now.v s t) }
    {
        let d = self.parts_of_d();
        if self.some_identical() {
            d.many + 2
        } else {
            d.many + self.parts_of_c().many + 2
        }
    }
}
