// The lines by which the programs tell a refusal, a verdict and ranks. Each function lays its text onto the start of the buffer that is
// lent to it, as far as it fits, and answers how many bytes it laid; a program writes those and nothing else.
#![tactic(auto)]

ghost use Rattle.reply.specs.Refusals.{numbered};
ghost use Rattle.reply.specs.Replied.{replied};
ghost use Rattle.text.specs.Laying.{Lays};
ghost use Rattle.text.specs.Text.{refused_line};
ghost use Rattle.reply_lines.specs.Lines.{verdict_lines, numbers_text, accepted_lines, rank_lines};

use number_text::{write_counted, write_line};
use reply::{NumberAt, Refusal};
use text::wide;
use text::writing::{write_byte, write_text};

// A refusal's line, `refused N at P`.
pub fn write_refused(refusal: Refusal, out: &mut [u8]) -> usize
    ensures { Lays (refused_line (numbered refusal)) out.old result out.new }
{
    let told = NumberAt::from(refusal);
    let at = write_counted(b"refused ", told.number as usize, out);
    at + write_line(b" at ", told.place, &mut out[at..])
}

// The rank check's reply: `cleared`, or the refusal.
#[tactic(auto, unfolding(crate::specs::Lines::verdict_lines, reply::specs::Replied::replied, text::specs::Text::ascii))]
pub fn write_verdict(verdict: Result<(), Refusal>, out: &mut [u8]) -> usize
    ensures { Lays (verdict_lines (replied verdict)) out.old result out.new }
{
    match verdict {
        Ok(()) => write_text(b"cleared\n", out),
        Err(refusal) => write_refused(refusal, out),
    }
}

// Bytes as decimal numbers, a blank before each.
fn write_numbers(bytes: &[u8], out: &mut [u8]) -> usize
    ensures { Lays (numbers_text bytes.now) out.old result out.new }
{
    let mut at = 0;
    for &byte in bytes {
        at += write_counted(b" ", wide(byte), &mut out[at..]);
    }
    at
}

// `cleared`, then `ranks` and the ranks as numbers.
fn write_accepted(ranks: &[u8], out: &mut [u8]) -> usize
    ensures { Lays (accepted_lines ranks.now) out.old result out.new }
{
    let start = write_text(b"cleared\nranks", out);
    let at = start + write_numbers(ranks, &mut out[start..]);
    at + write_byte(b'\n', &mut out[at..])
}

// The reply of "ranks from an answer": the ranks that it laid at the start of these bytes, or the refusal.
#[tactic(auto, unfolding(crate::specs::Lines::rank_lines, reply::specs::Replied::replied))]
pub fn write_ranks(answered: Result<usize, Refusal>, ranks: &[u8], out: &mut [u8]) -> usize
    ensures { Lays (rank_lines ranks.now (replied answered)) out.old result out.new }
{
    match answered {
        Ok(many) => write_accepted(&ranks[..many.min(ranks.len())], out),
        Err(refusal) => write_refused(refusal, out),
    }
}
