// The lines by which the programs tell a run, its next step and the argument question. Each function lays its text onto the start of the
// buffer that is lent to it, as far as it fits, and answers how many bytes it laid; a program writes those and nothing else.
#![tactic(auto)]

ghost use Rattle.text.specs.Laying.{Lays};
ghost use Rattle.stepping.specs.Stepped.{outcome_of};
ghost use Rattle.next_step.specs.NextMeaning.{next_meaning};
ghost use Rattle.asking.specs.Asked.{argument_meaning};
ghost use Rattle.running.specs.RunMeaning.{told_in_code, run_meaning};
ghost use Rattle.term_lines.specs.Lines.{LaysFor};
ghost use Rattle.run_lines.specs.Lines.{outcome_line, ran_to_lines, ran_lines, next_line, part_lines};

use asking::Found;
use next_step::Next;
use number_text::{write_counted, write_line};
use reply::Refusal;
use reply_lines::write_refused;
use running::{Outcome, RanTo};
use term::Terms;
use term_lines::write_term_lines;
use text::writing::write_text;

// How a run ended.
#[tactic(auto, unfolding(crate::specs::Lines::outcome_line, stepping::specs::Stepped::outcome_of, text::specs::Text::ascii))]
fn write_outcome(outcome: Outcome, out: &mut [u8]) -> usize
    ensures { Lays (outcome_line (outcome_of outcome)) out.old result out.new }
{
    match outcome {
        Outcome::Done => write_text(b"done\n", out),
        Outcome::Spent => write_text(b"spent\n", out),
        Outcome::TooLarge => write_text(b"too large\n", out),
    }
}

// A run: how it ended, `steps` and how many were made, and the term reached, whose record these bytes begin with.
fn write_ran_to(ran: RanTo, terms: &Terms, out: &mut [u8]) -> usize
    ensures { LaysFor terms.now.bytes.now terms.now.arities 0 (ran_to_lines terms.now.bytes.now (told_in_code ran)) out.old result out.new }
{
    let start = write_outcome(ran.outcome, out);
    let at = start + write_line(b"steps ", ran.steps as usize, &mut out[start..]);
    at + write_term_lines(terms, ran.length, &mut out[at..])
}

// The run's reply: the run, with the record that it laid at the start of the bytes, or the refusal.
#[tactic(auto, using(term_lines::proofs::Parts::any_term), unfolding(crate::specs::Lines::ran_lines, running::specs::RunMeaning::run_meaning, reply::specs::Replied::replied_as))]
pub fn write_ran(reply: Result<RanTo, Refusal>, terms: &Terms, out: &mut [u8]) -> usize
    ensures { LaysFor terms.now.bytes.now terms.now.arities 0 (ran_lines terms.now.bytes.now (run_meaning reply)) out.old result out.new }
{
    match reply {
        Ok(ran) => write_ran_to(ran, terms, out),
        Err(refusal) => write_refused(refusal, out),
    }
}

// The next step, before it is made: `at rest`, or the rule and the place that it takes; or the refusal.
#[tactic(auto, unfolding(crate::specs::Lines::next_line, next_step::specs::NextMeaning::next_meaning, next_step::specs::NextMeaning::taken, reply::specs::Replied::replied_as, text::specs::Text::ascii))]
pub fn write_step(next: Result<Option<Next>, Refusal>, out: &mut [u8]) -> usize
    ensures { Lays (next_line (next_meaning next)) out.old result out.new }
{
    match next {
        Ok(None) => write_text(b"at rest\n", out),
        Ok(Some(step)) => {
            let at = write_counted(b"step rule ", step.rule, out);
            at + write_line(b" at ", step.place, &mut out[at..])
        }
        Err(refusal) => write_refused(refusal, out),
    }
}

// The argument question's reply: `start` and where the part starts in the record, and the part, whose bytes these are; or the refusal.
#[tactic(auto, using(term_lines::proofs::Parts::any_term), unfolding(crate::specs::Lines::part_lines, asking::specs::Asked::argument_meaning, reply::specs::Replied::replied_as))]
pub fn write_part(found: Result<Found, Refusal>, terms: &Terms, out: &mut [u8]) -> usize
    ensures { LaysFor terms.now.bytes.now terms.now.arities 0 (part_lines terms.now.bytes.now (argument_meaning found)) out.old result out.new }
{
    match found {
        Ok(part) => {
            let at = write_line(b"start ", part.start, out);
            at + write_term_lines(terms, part.length, &mut out[at..])
        }
        Err(refusal) => write_refused(refusal, out),
    }
}
