// The kinds of a book's records.
ghost use Rattle.std.specs.Prelude.{◌≡◌};
ghost use Rattle.term.specs.Tables.{kind_of};
ghost use Rattle.term.specs.Kinds.{kind_read};

// "Bytes of a book": a symbol, the start of a rule, a symbol node, a variable node, the end.
#[derive(Clone, Copy, Debug, PartialEq, Eq)]
pub enum Kind {
    Symbol,
    Rule,
    SymbolNode,
    VariableNode,
    End,
}

// A byte that is no record's kind.
#[derive(Clone, Copy, Debug, PartialEq, Eq)]
pub struct UnknownKind;

impl TryFrom<u8> for Kind {
    type Error = UnknownKind;

    ghost try_from_gives = { λ byte kind. kind_read kind ≡ kind_of byte };

    #[tactic(auto, unfolding(crate::specs::Kinds::kind_read, crate::specs::Kinds::on_paper, crate::specs::Tables::kind_of))]
    fn try_from(byte: u8) -> Result<Kind, UnknownKind> {
        match byte {
            1 => Ok(Kind::Symbol),
            2 => Ok(Kind::Rule),
            3 => Ok(Kind::SymbolNode),
            4 => Ok(Kind::VariableNode),
            5 => Ok(Kind::End),
            _ => Err(UnknownKind),
        }
    }
}
