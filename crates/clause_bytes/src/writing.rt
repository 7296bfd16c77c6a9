// Clauses.
ghost use Rattle.std.specs.Prelude.{map};
ghost use Rattle.text.specs.Laying.{Lays};
ghost use Rattle.clauses.specs.File.{clause_bytes};
ghost use Rattle.clause_bytes.specs.Meaning.{meant};

use crate::literals::{write_clause_end, write_literal};

// A variable of the file, or its negation.
#[derive(Clone, Copy)]
pub enum Literal {
    Is(usize),
    IsNot(usize),
}

// A clause of these literals.
#[tactic(auto, using(crate::proofs::EachLaid::none_laid))]
pub fn write_clause(literals: &[Literal], out: &mut [u8]) -> usize
    ensures { Lays (clause_bytes (map meant literals.now)) out.old result out.new }
{
    let mut at = 0;
    for &literal in literals {
        at += write_literal(literal, &mut out[at..]);
    }
    at + write_clause_end(&mut out[at..])
}
