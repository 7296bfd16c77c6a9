// The tests of one record of a book.
ghost use Rattle.std.specs.Prelude.{◌≡◌, ◌+◌, ◌<◌, length, get_or, IfOk};
ghost use Rattle.term.specs.Kinds.{on_paper};
ghost use Rattle.term.specs.Tables.{kind_of};
ghost use Rattle.book.specs.Checks.{allowed, body_fits, room_left, checked_at, tested};

use crate::Book;
use crate::sides::{Side, Stage};
use reply::Refusal;
use term::kinds::Kind;
use text::wide;

// The byte at this place, 0 past the end.
pub fn byte_at(bytes: &[u8], at: usize) -> u8
    ensures { result ≡ get_or bytes.now at 0 }
{
    bytes.get(at).copied().unwrap_or(0)
}

// Refusal 3: a symbol after a rule, a node outside a side still open, a rule or the end while a side is open. An arm for each kind here and in
// `room_left`, though some agree: so it is branched by the kind once for all the tests.
#[tactic(auto, unfolding(crate::specs::Checks::allowed, term::specs::Kinds::on_paper))]
fn is_allowed(kind: Kind, stage: Stage) -> bool
    ensures { result ≡ allowed (on_paper kind) stage }
{
    match kind {
        Kind::Symbol => stage.no_rule_yet(),
        Kind::Rule => !stage.side_open(),
        Kind::SymbolNode => stage.side_open(),
        Kind::VariableNode => stage.side_open(),
        Kind::End => !stage.side_open(),
    }
}

// Refusal 4: an arity above 6, a variable above 15, a symbol not declared.
#[tactic(auto, unfolding(crate::specs::Checks::body_fits, term::specs::Kinds::on_paper))]
fn body_fits(kind: Kind, symbols: usize, byte: u8) -> bool
    ensures { result ≡ body_fits (on_paper kind) symbols byte }
{
    match kind {
        Kind::Symbol => byte <= 6,
        Kind::SymbolNode => wide(byte) < symbols,
        Kind::VariableNode => byte <= 15,
        Kind::Rule | Kind::End => true,
    }
}

// Refusal 5: the 17th symbol, the 33rd rule, the 11th node of a side.
#[tactic(auto, unfolding(crate::specs::Checks::room_left, term::specs::Kinds::on_paper))]
fn room_left(kind: Kind, symbols: usize, rules: usize, nodes: usize) -> bool
    ensures { result ≡ room_left (on_paper kind) symbols rules nodes }
{
    match kind {
        Kind::Symbol => symbols < 16,
        Kind::Rule => rules < 32,
        Kind::SymbolNode => nodes < 10,
        Kind::VariableNode => nodes < 10,
        Kind::End => true,
    }
}

// The record whose kind byte stands at `at`, in the order 2, 1, 3, 4, 5: its kind, or its first refusal. The caller has read that byte and the
// one behind it: read in here, between the tests, it would part them, and each would branch by the kind anew.
#[tactic(auto, using(crate::proofs::Tests::unknown_kind, crate::proofs::Tests::not_allowed, crate::proofs::Tests::bad_body, crate::proofs::Tests::too_many, crate::proofs::Tests::taken), unfolding(crate::specs::Checks::tested, term::specs::Kinds::kind_read))]
pub fn check_record(
    bytes: &[u8],
    at: usize,
    byte: u8,
    body: u8,
    side: Side,
    book: &Book,
) -> Result<Kind, Refusal>
    requires at_in_bounds { at < length bytes.now }
    requires kind_value { byte ≡ get_or bytes.now at 0 }
    requires body_value { body ≡ get_or bytes.now (at + 1) 0 }
    ensures checked { tested result ≡ checked_at bytes.now at side book.now.symbols book.now.rules }
    ensures kind { IfOk result (λ kind. on_paper kind ≡ kind_of (get_or bytes.now at 0)) }
{
    let Ok(kind) = Kind::try_from(byte) else {
        return Err(Refusal::UnknownKind(at));
    };
    if bytes.len() - at - 1 < term::body_length(byte) {
        return Err(Refusal::BookEnded(bytes.len()));
    }
    if !is_allowed(kind, side.stage) {
        return Err(Refusal::NotAllowed(at));
    }
    if !body_fits(kind, book.symbols, body) {
        return Err(Refusal::BadBody(at + 1));
    }
    if !room_left(kind, book.symbols, book.rules, side.nodes) {
        return Err(Refusal::TooMany(at));
    }
    Ok(kind)
}
