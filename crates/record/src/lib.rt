// Reading a record to be run: one term and its end. The definitions stand in specs/.
#![tactic(auto)]

ghost use Rattle.std.specs.Prelude.{◌≡◌, length, take, drop};
ghost use Rattle.reply.specs.Replied.{result_of};
ghost use Rattle.record.specs.Record.{fault_refusal, record_node, record_end, one_term, record_term};
ghost use Rattle.record.specs.Meaning.{record_meaning, record_verdict, term_found};

use reply::Refusal;
use term::kinds::Kind;
use text::wide;

// "At most 256 nodes."
const MOST_NODES: usize = 256;

// What can be wrong with a record, each with the byte at which it is.
#[derive(Clone, Copy, Debug, PartialEq, Eq)]
pub enum RecordFault {
    EndedEarly(usize),
    WrongKind(usize),
    NotDeclared(usize),
    TooManyNodes(usize),
    AfterTheTerm(usize),
}

impl From<RecordFault> for Refusal {
    // The refusal of a record with this fault.
    ghost from_gives = { λ fault refusal. refusal ≡ fault_refusal fault };

    #[tactic(auto, unfolding(crate::specs::Record::fault_refusal))]
    fn from(fault: RecordFault) -> Refusal {
        // An arm for each fault, though they agree: an edit in must-fail/ changes one alone.
        match fault {
            RecordFault::EndedEarly(_) => Refusal::BadRecord,
            RecordFault::WrongKind(_) => Refusal::BadRecord,
            RecordFault::NotDeclared(_) => Refusal::BadRecord,
            RecordFault::TooManyNodes(_) => Refusal::BadRecord,
            RecordFault::AfterTheTerm(_) => Refusal::BadRecord,
        }
    }
}

// One term at the start of some bytes: how many nodes it has and the place behind them.
#[derive(Clone, Copy)]
struct TermEnds {
    nodes: usize,
    behind: usize,
}

// The node at this place, behind `nodes` others: "kind 3 nodes only .., at most 256 nodes", of a declared symbol.
#[tactic(auto, using(crate::proofs::Steps::no_node), unfolding(reply::specs::Replied::result_of))]
fn node_at(bytes: &[u8], at: usize, nodes: usize, symbols: usize) -> Result<usize, RecordFault>
    ensures { result ≡ result_of (record_node symbols (length bytes.now) nodes at (drop at bytes.now)) }
{
    let Some(&kind) = bytes.get(at) else {
        return Err(RecordFault::EndedEarly(bytes.len()));
    };
    if Kind::try_from(kind) != Ok(Kind::SymbolNode) {
        return Err(RecordFault::WrongKind(at));
    }
    let Some(&body) = bytes.get(at + 1) else {
        return Err(RecordFault::EndedEarly(bytes.len()));
    };
    let symbol = wide(body);
    if symbols <= symbol {
        return Err(RecordFault::NotDeclared(at + 1));
    }
    if MOST_NODES <= nodes {
        return Err(RecordFault::TooManyNodes(at));
    }
    Ok(symbol)
}

// Reads one term, whatever stands behind it: its nodes from left to right while a subterm is missing.
fn read_term(bytes: &[u8], symbols: usize, arities: [u8; 16]) -> Result<TermEnds, RecordFault>
    ensures { result ≡ term_found (one_term (take symbols arities) bytes.now) }
{
    let declared = symbols.min(16);
    let mut missing: usize = 1;
    let mut nodes: usize = 0;
    let mut at: usize = 0;
    // No range: how many nodes there are shows only as they are read.
    while 0 < missing {
        let symbol = node_at(bytes, at, nodes, declared)?;
        missing = missing - 1 + wide(arities[symbol]);
        nodes += 1;
        at += 2;
    }
    Ok(TermEnds { nodes, behind: at })
}

// "then kind 5" and nothing more, behind a whole term.
fn end_at(bytes: &[u8], at: usize) -> Result<(), RecordFault>
    ensures { result ≡ result_of (record_end (length bytes.now) at (drop at bytes.now)) }
{
    let Some(&kind) = bytes.get(at) else {
        return Err(RecordFault::EndedEarly(bytes.len()));
    };
    if Kind::try_from(kind) != Ok(Kind::End) {
        return Err(RecordFault::AfterTheTerm(at));
    }
    let behind = at + 1;
    if behind < bytes.len() {
        return Err(RecordFault::AfterTheTerm(behind));
    }
    Ok(())
}

// Reads a record to be run: one term, then its end; answers how many nodes the term has.
pub fn read_record(bytes: &[u8], symbols: usize, arities: [u8; 16]) -> Result<usize, RecordFault>
    ensures settled { result ≡ record_verdict (record_term (take symbols arities) bytes.now) }
    ensures means { record_meaning bytes.now (take symbols arities) result ≡ record_term (take symbols arities) bytes.now }
{
    let term = read_term(bytes, symbols, arities)?;
    end_at(bytes, term.behind)?;
    Ok(term.nodes)
}
