// A whole and its parts: the clauses that make the whole true exactly if all of its parts are, or some.
ghost use Rattle.std.specs.Prelude.{◌≡◌};
ghost use mathlib.Core.List.{flat_map, map};
ghost use Rattle.clauses.specs.Wholes.{all_parts, some_parts};
ghost use Rattle.clauses.specs.File.{clause_bytes};
ghost use Rattle.text.specs.Laying.{Lays};
ghost use Rattle.clause_bytes.specs.Meaning.{meant, parts_in, against, part_clauses, both_ways};

pub use crate::gathering::Parts;
use crate::literals::{write_clause_end, write_literal};
use crate::writing::{Literal, write_clause};

impl Literal {
    // A part as it stands in a clause with this whole: with the other sign.
    #[tactic(auto, unfolding(crate::specs::Meaning::meant, crate::specs::Meaning::against))]
    fn against(self, part: usize) -> Literal
        ensures { meant result ≡ against (meant self) part }
    {
        match self {
            Literal::Is(_) => Literal::IsNot(part),
            Literal::IsNot(_) => Literal::Is(part),
        }
    }
}

// A clause of the whole and a part, for each part.
#[tactic(auto, using(crate::proofs::EachLaid::none_laid))]
fn write_part_clauses(whole: Literal, parts: &[usize], out: &mut [u8]) -> usize
    ensures { Lays (flat_map clause_bytes (part_clauses (meant whole) parts.now)) out.old result out.new }
{
    let mut at = 0;
    for &part in parts {
        at += write_clause(&[whole, whole.against(part)], &mut out[at..]);
    }
    at
}

// The rest of a clause behind the whole: all its parts, and the clause's end.
#[tactic(auto, using(crate::proofs::EachLaid::none_laid))]
fn write_part_literals(whole: Literal, parts: &[usize], out: &mut [u8]) -> usize
    ensures { Lays (clause_bytes (map (against (meant whole)) parts.now)) out.old result out.new }
{
    let mut at = 0;
    for &part in parts {
        at += write_literal(whole.against(part), &mut out[at..]);
    }
    at + write_clause_end(&mut out[at..])
}

// A clause for each part, of the whole and it, and one clause of the whole with the other sign and all parts.
fn write_both_ways(one: Literal, other: Literal, parts: &[usize], out: &mut [u8]) -> usize
    ensures { Lays (flat_map clause_bytes (both_ways (meant one) (meant other) parts.now)) out.old result out.new }
{
    let mut at = write_part_clauses(one, parts, out);
    at += write_literal(other, &mut out[at..]);
    at + write_part_literals(other, parts, &mut out[at..])
}

// The whole exactly if all parts: "(−D qi) for each i, then (D −q1 .. −qp)"; with no parts "(−D)".
pub fn write_all_parts(whole: usize, parts: Parts, out: &mut [u8]) -> usize
    ensures { Lays (flat_map clause_bytes (all_parts whole (parts_in parts))) out.old result out.new }
{
    let parts = parts.as_slice();
    if parts.is_empty() {
        write_clause(&[Literal::IsNot(whole)], out)
    } else {
        write_both_ways(Literal::IsNot(whole), Literal::Is(whole), parts, out)
    }
}

// The whole exactly if some part: "(C −part) for each, then (−C part1 .. )".
pub fn write_some_parts(whole: usize, parts: Parts, out: &mut [u8]) -> usize
    ensures { Lays (flat_map clause_bytes (some_parts whole (parts_in parts))) out.old result out.new }
{
    write_both_ways(
        Literal::Is(whole),
        Literal::IsNot(whole),
        parts.as_slice(),
        out,
    )
}
