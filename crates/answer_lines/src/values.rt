// The lines of an answer, one by one, and the values that its v lines name.
ghost use Rattle.std.specs.Prelude.{◌≡◌, List, ◌≤◌};
ghost use Rattle.reply.specs.Reply.{Refusal};
ghost use Rattle.text.specs.Text.{space, words};
ghost use Rattle.clauses.specs.Cnf.{Literal, variable_of};
ghost use Rattle.clauses.specs.Item.{item};
ghost use Rattle.answer_lines.specs.Values.{Values, unclosed, named, item_after};
ghost use Rattle.answer_lines.specs.Lines.{satisfied, item_line, value_line, verdict_line, line_of, line_after};
ghost use Rattle.answer_lines.specs.Marks.{sign};
ghost use Rattle.answer_lines.specs.Progress.{HoldsValues, HoldsSaid, Tells, SameCounts, TakesLine};

use crate::reader::{BadLine, Reader, Stage};
use items::{Item, read_item};
use words::{next, same};

impl Reader {
    // "Lines starting with c are passed over .. No other line, empty lines included, is taken."
    pub fn take_line(&mut self, line: &[u8]) -> Result<(), BadLine>
        ensures same { SameCounts self.old self.new }
        ensures told { TakesLine (line_of line.now) self.old result self.new }
    {
        match line {
            [b'c', ..] => Ok(()),
            [b'v', bytes @ ..] => self.take_values(bytes),
            _ => self.take_verdict(line),
        }
    }

    // "Exactly one line `s SATISFIABLE`, `s UNSATISFIABLE` or `s UNKNOWN`, before any v line."
    fn take_verdict(&mut self, line: &[u8]) -> Result<(), BadLine>
        ensures same { SameCounts self.old self.new }
        ensures told { TakesLine (verdict_line line.now) self.old result self.new }
    {
        let Stage::Silent = self.stage else {
            return Err(BadLine);
        };
        self.stage = if same(line, b"s SATISFIABLE") {
            Stage::Open
        } else if same(line, b"s UNSATISFIABLE") || same(line, b"s UNKNOWN") {
            Stage::NoModel
        } else {
            return Err(BadLine);
        };
        Ok(())
    }

    // "A v line is v, then one or more items, each after one or more spaces"; "Values stand only after SATISFIABLE": the bytes behind
    // the v.
    fn take_values(&mut self, bytes: &[u8]) -> Result<(), BadLine>
        ensures same { SameCounts self.old self.new }
        ensures told { TakesLine (value_line bytes.now) self.old result self.new }
    {
        let Stage::Open = self.stage else {
            return Err(BadLine);
        };
        match bytes {
            [b' ', items @ ..] => self.take_items(items),
            _ => Err(BadLine),
        }
    }

    // "one or more items, each after one or more spaces, and perhaps spaces at the end": the bytes behind the v and its first space.
    fn take_items(&mut self, items: &[u8]) -> Result<(), BadLine>
        ensures same { SameCounts self.old self.new }
        ensures told { (fault : Refusal) (ls : List Literal) → HoldsValues (unclosed ls) self.old.stage self.old.table →
            Tells HoldsSaid fault
            (line_after fault self.old.variables self.old.rank_variables (satisfied (unclosed ls)) (item_line (words space items.now)))
            result self.new.stage self.new.table }
    {
        let mut found = false;
        let mut at = 0;
        // By places: `split` turns once a space, and a line of many spaces took more than twice as long with it.
        while at < items.len() {
            let start = at;
            let end = next(items, start, b' ');
            at = end + 1;
            if start < end {
                self.take_word(&items[start..end])?;
                found = true;
            }
        }
        if found { Ok(()) } else { Err(BadLine) }
    }

    // "A single 0 closes the values; only spaces and c lines may follow."
    fn take_word(&mut self, word: &[u8]) -> Result<(), BadLine>
        ensures same { SameCounts self.old self.new }
        ensures told { (fault : Refusal) (vs : Values) → HoldsValues vs self.old.stage self.old.table →
            Tells HoldsValues fault (item_after fault self.old.rank_variables vs (item self.old.variables word.now))
            result self.new.stage self.new.table }
    {
        let Stage::Open = self.stage else {
            return Err(BadLine);
        };
        match read_item(word, self.variables) {
            Some(Item::Closing) => {
                self.stage = Stage::Closed;
                Ok(())
            }
            Some(Item::Is(v)) => self.name(v, true),
            Some(Item::IsNot(v)) => self.name(v, false),
            None => Err(BadLine),
        }
    }

    // "A rank variable (a bit's) may be named once .. Other variables are read for form only."
    fn name(&mut self, v: usize, value: bool) -> Result<(), BadLine>
        requires { 1 ≤ v }
        ensures same { SameCounts self.old self.new }
        ensures told { (fault : Refusal) (l : Literal) (ls : List Literal) → variable_of l ≡ v → sign l ≡ value →
            HoldsValues (unclosed ls) self.old.stage self.old.table →
            Tells HoldsValues fault (named fault self.old.rank_variables l ls) result self.new.stage self.new.table }
    {
        if self.rank_variables < v {
            return Ok(());
        }
        if self.table[v - 1].is_some() {
            return Err(BadLine);
        }
        self.table[v - 1] = Some(value);
        Ok(())
    }
}
