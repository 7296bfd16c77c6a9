// What an answer means on paper. The definitions stand in specs/.
#![tactic(auto)]

ghost use Rattle.std.specs.Prelude.{◌≡◌};
ghost use Rattle.reply.specs.Refusals.{numbered, in_numbers};

// "Refusals by number": a case for each row of the table, with its place where that is not always 0. Every answer of the library is its
// result or one of these.
#[derive(Clone, Copy, Debug, PartialEq, Eq)]
pub enum Refusal {
    BookEnded(usize),
    UnknownKind(usize),
    NotAllowed(usize),
    BadBody(usize),
    TooMany(usize),
    AfterEnd(usize),
    WrongRankCount,
    NotDecreasing(usize),
    ShortBuffer,
    NoSuchBlock,
    BadRecord,
    AnswerTooLong,
    BadAnswer(usize),
    NoModel,
    NoSuchArgument,
}

// A refusal as it is told: document 01's number, and the place.
#[derive(Clone, Copy, Debug, PartialEq, Eq)]
pub struct NumberAt {
    pub number: u64,
    pub place: usize,
}

impl From<Refusal> for NumberAt {
    // The number and the place of a refusal.
    ghost from_gives = { λ refusal told. told ≡ in_numbers (numbered refusal) };

    #[tactic(auto, unfolding(crate::specs::Refusals::numbered))]
    fn from(refusal: Refusal) -> NumberAt {
        let (number, place) = match refusal {
            Refusal::BookEnded(place) => (1, place),
            Refusal::UnknownKind(place) => (2, place),
            Refusal::NotAllowed(place) => (3, place),
            Refusal::BadBody(place) => (4, place),
            Refusal::TooMany(place) => (5, place),
            Refusal::AfterEnd(place) => (6, place),
            Refusal::WrongRankCount => (7, 0),
            Refusal::NotDecreasing(place) => (8, place),
            Refusal::ShortBuffer => (9, 0),
            Refusal::NoSuchBlock => (10, 0),
            Refusal::BadRecord => (11, 0),
            Refusal::AnswerTooLong => (12, 0),
            Refusal::BadAnswer(place) => (13, place),
            Refusal::NoModel => (14, 0),
            Refusal::NoSuchArgument => (15, 0),
        };
        NumberAt { number, place }
    }
}
