// What the reader of an answer holds of it on the way.
ghost use Rattle.std.specs.Prelude.{◌≤◌};

// How far the lines have come.
#[derive(Clone, Copy, Debug, PartialEq, Eq)]
pub enum Stage {
    // No s line yet.
    Silent,
    // SATISFIABLE, and the values are not closed.
    Open,
    Closed,
    // UNSATISFIABLE or UNKNOWN.
    NoModel,
}

// A line that no answer has at this place.
#[derive(Clone, Copy, Debug, PartialEq, Eq)]
pub struct BadLine;

// What the lines so far have said: how far they have come, and at v − 1 how rank variable v is named.
#[derive(Drop)]
pub struct Reader {
    pub variables: usize,
    pub rank_variables: usize,
    pub stage: Stage,
    pub table: [Option<bool>; 64],
    ghost room: { rank_variables ≤ 64 },
}
