// What a node leaves: the book that was read so far, and the side that is being read.
ghost use Rattle.std.specs.Prelude.{◌≡◌, ◌<◌, ◌≤◌};
ghost use Rattle.book.specs.Placed.{behind_node, so_far};

use crate::Book;
use crate::sides::{Side, Stage};

impl Side {
    // A node that opens so many subterms is taken, and the side that is open behind it answered; the next record is at `at`. A left side that
    // is whole gives way to the right, which starts there, and a right side that is whole ends its rule. The side goes by value: in a struct
    // with the book's tables it would lie in memory and be fetched for each record.
    #[tactic(auto, using(crate::proofs::Steps::still_open, crate::proofs::Steps::left_whole, crate::proofs::Steps::right_whole), unfolding(crate::specs::Entries::with_right, crate::specs::Entries::with_rule))]
    pub fn take_node(self, book: &mut Book, opens: usize, at: usize) -> Side
        requires rule_room { book.old.rules < 32 }
        requires missing_nonzero { 0 < self.missing }
        requires missing_bound { self.missing ≤ 65536 }
        requires nodes_bound { self.nodes ≤ 65536 }
        requires opens_bound { opens ≤ 65536 }
        ensures { so_far book.new result ≡ behind_node (so_far book.old self) at opens }
    {
        let grown = self.with_node(opens);
        if grown.missing == 0 {
            let nodes = grown.nodes;
            if grown.stage.left_open() {
                let rule = &mut book.places[book.rules];
                rule.left.nodes = nodes;
                rule.right.at = at;
                Side::opened(Stage::InRight)
            } else {
                book.places[book.rules].right.nodes = nodes;
                book.rules += 1;
                Side::none(Stage::RuleWhole)
            }
        } else {
            grown
        }
    }
}
