// Terms as text: `f2(f0,x1)` for symbol 2 over symbol 0 and variable 1.
#![tactic(auto)]

ghost use Rattle.std.specs.Prelude.{◌≡◌, eqb};
ghost use Rattle.text.specs.Laying.{Lays};
ghost use Rattle.term.specs.Prefix.{node_of, arity_of};
ghost use Rattle.term_text.specs.TermText.{name_text, LaysTerm, LaysArguments};

use number_text::write_counted;
use term::Terms;
use term::kinds::Kind;
use text::wide;
use text::writing::write_byte;

// How many bytes of text were laid, and the place behind what they tell.
#[derive(Drop)]
pub struct Texted {
    pub laid: usize,
    pub next: usize,
}

// Whether a node of this kind is a symbol's.
fn is_symbol(kind: u8) -> bool
    ensures { result ≡ eqb kind 3 }
{
    Kind::try_from(kind) == Ok(Kind::SymbolNode)
}

// How many arguments a node has: those of its symbol, none of a variable.
#[tactic(auto, unfolding(term::specs::Prefix::node_of, term::specs::Prefix::arity_of))]
fn arguments(arities: [u8; 16], kind: u8, body: u8) -> u8
    ensures { result ≡ arity_of arities (node_of kind body) }
{
    if is_symbol(kind) {
        arities.get(wide(body)).copied().unwrap_or(0)
    } else {
        0
    }
}

// The name of a node: `f` and the symbol's number, or `x` and the variable's.
fn write_name(kind: u8, body: u8, out: &mut [u8]) -> usize
    ensures { Lays (name_text (node_of kind body)) out.old result out.new }
{
    let word = if is_symbol(kind) { b"f" } else { b"x" };
    write_counted(word, wide(body), out)
}

// So many arguments, the byte `mark` before the first, a comma before each other and the closing bracket behind them.
#[cycle(write_arguments_write_term)]
fn write_arguments(terms: &Terms, u: usize, many: u8, mark: u8, out: &mut [u8]) -> Texted
    ensures { LaysArguments terms.now.bytes.now terms.now.arities many mark u out.old result out.new }
{
    if many == 0 {
        return Texted {
            laid: write_byte(b')', out),
            next: u,
        };
    }
    let start = write_byte(mark, out);
    let first = write_term(terms, u, &mut out[start..]);
    let at = start + first.laid;
    let others = write_arguments(terms, first.next, many - 1, b',', &mut out[at..]);
    Texted {
        laid: at + others.laid,
        next: others.next,
    }
}

// The term that stands at this place. Nothing is laid where the bytes end.
#[cycle(write_arguments_write_term)]
pub fn write_term(terms: &Terms, u: usize, out: &mut [u8]) -> Texted
    ensures { LaysTerm terms.now.bytes.now terms.now.arities u out.old result out.new }
{
    let Some([kind, body, ..]) = terms.bytes.get(u..) else {
        return Texted { laid: 0, next: u };
    };
    let at = write_name(*kind, *body, out);
    let many = arguments(terms.arities, *kind, *body);
    if many == 0 {
        return Texted {
            laid: at,
            next: u + 2,
        };
    }
    let rest = write_arguments(terms, u + 2, many, b'(', &mut out[at..]);
    Texted {
        laid: at + rest.laid,
        next: rest.next,
    }
}
