// A solver's answer, line by line, and the values that its lines name. The definitions stand in specs/.
#![tactic(auto)]

mod reader;
mod values;

ghost use Rattle.std.specs.Prelude.{◌≤◌};
ghost use Rattle.answer_lines.specs.Lines.{read_answer};
ghost use Rattle.answer_lines.specs.AnswerRead.{ReadAs};

use reader::{Reader, Stage};
use reply::Refusal;
use words::next;

// Reads an answer whose rank variables are at most 64: "lines ended by newline, the last newline optional"; 13 at the "start of the first
// faulty line, or the text's length if something is missing", else 14, else the table that has at v − 1 how rank variable v is named: as
// true, as false or not. A variable that was named as false may not be named again, so that values alone would not do.
pub fn read_values(
    text: &[u8],
    variables: usize,
    rank_variables: usize,
) -> Result<[Option<bool>; 64], Refusal>
    requires { rank_variables ≤ 64 }
    ensures { ReadAs (read_answer variables rank_variables text.now) result }
{
    let mut reader = Reader {
        variables,
        rank_variables,
        stage: Stage::Silent,
        table: [None; 64],
    };
    let mut at = 0;
    // A refusal tells where the faulty line starts: an iterator over the lines would not say, and the start would be counted beside it.
    while at < text.len() {
        let end = next(text, at, b'\n');
        reader
            .take_line(&text[at..end])
            .or(Err(Refusal::BadAnswer(at)))?;
        at = end + 1;
    }
    match reader.stage {
        Stage::Closed => Ok(reader.table),
        Stage::NoModel => Err(Refusal::NoModel),
        Stage::Silent | Stage::Open => Err(Refusal::BadAnswer(text.len())),
    }
}
