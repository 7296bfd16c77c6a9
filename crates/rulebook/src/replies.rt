// Replies as C reads them: refusal 0 if the input was taken, else document 01's number and place, and then every other field is 0.
ghost use Rattle.std.specs.Prelude.{◌≡◌};
ghost use Rattle.reply.specs.Reply.{refused};
ghost use Rattle.reply.specs.Refusals.{numbered};
ghost use Rattle.reply.specs.Replied.{replied};
ghost use Rattle.stepping.specs.Stepped.{outcome_of};
ghost use Rattle.running.specs.RunMeaning.{run_meaning};
ghost use Rattle.asking.specs.Asked.{argument_meaning};
ghost use Rattle.rulebook.specs.Replies.{verdict_reply, written_reply, ran_reply, part_reply, outcome_number};

use asking::Found;
use reply::{NumberAt, Refusal};
use running::{Outcome, RanTo};

// Whether ranks are accepted. Every reply begins with these two numbers, so that C asks after a refusal in one way.
#[repr(C)]
#[derive(Clone, Copy)]
pub struct Verdict {
    pub refusal: u64,
    pub place: u64,
}

// What a caller must know of a book before it asks more: how many ranks it takes, and how many blocks there are to write.
#[repr(C)]
#[derive(Clone, Copy)]
pub struct BookReply {
    pub refusal: u64,
    pub place: u64,
    pub symbols: u64,
    pub rules: u64,
    pub blocks: u64,
}

// What was written lies in the lent buffer, so the reply has its length alone.
#[repr(C)]
#[derive(Clone, Copy)]
pub struct WrittenReply {
    pub refusal: u64,
    pub place: u64,
    pub length: u64,
}

// The term reached lies in the lent buffer as a record of so many bytes; the outcome is a number, since C has no enum with values.
#[repr(C)]
#[derive(Clone, Copy)]
pub struct RanReply {
    pub refusal: u64,
    pub place: u64,
    pub outcome: u64,
    pub steps: u64,
    pub length: u64,
}

// Where the argument stands in the caller's own record: a reference can't be returned to C.
#[repr(C)]
#[derive(Clone, Copy)]
pub struct PartReply {
    pub refusal: u64,
    pub place: u64,
    pub start: u64,
    pub length: u64,
}

// A refusal: its number and its place.
impl From<Refusal> for Verdict {
    ghost from_gives = { λ refusal reply. reply ≡ verdict_reply (refused (numbered refusal)) };

    fn from(refusal: Refusal) -> Verdict {
        let told = NumberAt::from(refusal);
        Verdict {
            refusal: told.number,
            place: told.place as u64,
        }
    }
}

impl From<Result<(), Refusal>> for Verdict {
    ghost from_gives = { λ accepted reply. reply ≡ verdict_reply (replied accepted) };

    #[tactic(auto, unfolding(reply::specs::Replied::replied))]
    fn from(accepted: Result<(), Refusal>) -> Verdict {
        match accepted {
            Ok(()) => Verdict {
                refusal: 0,
                place: 0,
            },
            Err(refusal) => refusal.into(),
        }
    }
}

impl From<Result<usize, Refusal>> for WrittenReply {
    ghost from_gives = { λ written reply. reply ≡ written_reply (replied written) };

    #[tactic(auto, unfolding(reply::specs::Replied::replied))]
    fn from(written: Result<usize, Refusal>) -> WrittenReply {
        match written {
            Ok(length) => WrittenReply {
                refusal: 0,
                place: 0,
                length: length as u64,
            },
            Err(refusal) => {
                let Verdict { refusal, place } = refusal.into();
                WrittenReply {
                    refusal,
                    place,
                    length: 0,
                }
            }
        }
    }
}

impl From<Result<RanTo, Refusal>> for RanReply {
    ghost from_gives = { λ ran reply. reply ≡ ran_reply (run_meaning ran) };

    #[tactic(auto, unfolding(running::specs::RunMeaning::run_meaning, running::specs::RunMeaning::told_in_code, reply::specs::Replied::replied_as))]
    fn from(ran: Result<RanTo, Refusal>) -> RanReply {
        match ran {
            Ok(ran) => RanReply {
                refusal: 0,
                place: 0,
                outcome: outcome_number(ran.outcome),
                steps: ran.steps,
                length: ran.length as u64,
            },
            Err(refusal) => {
                let Verdict { refusal, place } = refusal.into();
                RanReply {
                    refusal,
                    place,
                    outcome: 0,
                    steps: 0,
                    length: 0,
                }
            }
        }
    }
}

impl From<Result<Found, Refusal>> for PartReply {
    ghost from_gives = { λ found reply. reply ≡ part_reply (argument_meaning found) };

    #[tactic(auto, unfolding(asking::specs::Asked::argument_meaning, asking::specs::Asked::part_of, reply::specs::Replied::replied_as))]
    fn from(found: Result<Found, Refusal>) -> PartReply {
        match found {
            Ok(part) => PartReply {
                refusal: 0,
                place: 0,
                start: part.start as u64,
                length: part.length as u64,
            },
            Err(refusal) => {
                let Verdict { refusal, place } = refusal.into();
                PartReply {
                    refusal,
                    place,
                    start: 0,
                    length: 0,
                }
            }
        }
    }
}

// 1 done, 2 spent, 3 too large.
#[tactic(auto, unfolding(stepping::specs::Stepped::outcome_of))]
pub fn outcome_number(outcome: Outcome) -> u64
    ensures { result ≡ outcome_number (outcome_of outcome) }
{
    match outcome {
        Outcome::Done => 1,
        Outcome::Spent => 2,
        Outcome::TooLarge => 3,
    }
}
