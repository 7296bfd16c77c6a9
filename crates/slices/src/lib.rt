// A run in slices of its budget, so that a long one can tell on a terminal how far it is. Budgets add up: the result is that of one run.
#![tactic(auto)]

ghost use Rattle.std.specs.Prelude.{◌+◌, ◌≤◌, ◌<◌, ◌^◌, ◌≡◌, length, take};
ghost use Rattle.steps.specs.Run.{run};
ghost use Rattle.slices.specs.Sliced.{OneRun, later_on};

use reply::Refusal;
use running::{Outcome, RanTo};
use std::io::IsTerminal;

// The steps of a slice.
const SLICE: u64 = 10000;

// A slice of 513 bytes and no array, here and below: `running::run` and its definition take a buffer of any length.
// Carries on a run that came so far: its record lies at the start of `out`.
fn carry_on(
    book: &[u8],
    ranks: &[u8],
    ran: RanTo,
    slice: u64,
    out: &mut [u8],
) -> Result<RanTo, Refusal>
    requires out_len { length out.old ≡ 513 }
    requires size_bound { ran.length ≤ 513 }
    requires slice_bound { ran.steps + slice < 2 ^ 64 }
    ensures { OneRun (later_on ran.steps (run book.now ranks.now (take ran.length out.old) slice 513)) result out.new }
{
    let mut record = [0u8; 513];
    let laid = term::copy(out, 0, ran.length, &mut record);
    let further = running::run(book, ranks, &record[..laid], slice, out)?;
    Ok(RanTo {
        steps: ran.steps + further.steps,
        ..further
    })
}

// On a terminal alone: how many steps were made and how many nodes the term now has, over the line that told it before. A line that cannot
// be written is left out: the run does not depend on it.
fn tell(screen: &(impl Print + IsTerminal), ran: RanTo) {
    if screen.is_terminal() {
        let steps = ran.steps;
        let nodes = ran.length / 2;
        let _ = print!(screen; "\rsteps {steps}, nodes {nodes}   ");
    }
}

// Clears the line that told it last.
fn clear(screen: &(impl Print + IsTerminal)) {
    if screen.is_terminal() {
        let _ = print!(screen; "\r                                           \r");
    }
}

// The slices one after the other, until the budget is used up or the run has ended: only a spent run goes on.
fn slice_by_slice(
    screen: &(impl Print + IsTerminal),
    book: &[u8],
    ranks: &[u8],
    record: &[u8],
    budget: u64,
    out: &mut [u8],
) -> Result<RanTo, Refusal>
    requires { length out.old ≡ 513 }
    ensures { OneRun (run book.now ranks.now «record».now budget 513) result out.new }
{
    let mut ran = running::run(book, ranks, record, 0, out)?;
    let mut left = budget;
    // No range: a run may end before its budget.
    while 0 < left && ran.outcome == Outcome::Spent {
        if 0 < ran.steps {
            tell(screen, ran);
        }
        let slice = left.min(SLICE);
        ran = carry_on(book, ranks, ran, slice, out)?;
        left -= slice;
    }
    Ok(ran)
}

// The run of a record; the buffer then starts with the record of the term that it reached. How far it is is told on this screen, if it is a
// terminal.
pub fn run(
    screen: &(impl Print + IsTerminal),
    book: &[u8],
    ranks: &[u8],
    record: &[u8],
    budget: u64,
    out: &mut [u8],
) -> Result<RanTo, Refusal>
    requires { length out.old ≡ 513 }
    ensures { OneRun (run book.now ranks.now «record».now budget 513) result out.new }
{
    let reply = slice_by_slice(screen, book, ranks, record, budget, out);
    clear(screen);
    reply
}
