// The items of an answer's v lines. The definitions stand in specs/.
#![tactic(auto)]

ghost use Rattle.std.specs.Prelude.{◌≡◌};
ghost use Rattle.clauses.specs.Item.{item};
ghost use Rattle.items.specs.Meaning.{item_meaning};

use words::{number_within, same};

// "An item is a literal or the closing 0."
#[derive(Clone, Copy, Debug, PartialEq, Eq)]
pub enum Item {
    Closing,
    Is(usize),
    IsNot(usize),
}

// "A literal is an optional minus and a number from 1 to V without leading zeros. A single 0 closes the values"; none where a word is
// no item.
pub fn read_item(word: &[u8], variables: usize) -> Option<Item>
    ensures { item_meaning result ≡ item variables word.now }
{
    if same(word, b"0") {
        return Some(Item::Closing);
    }
    match word {
        [b'-', digits @ ..] => number_within(digits, variables).map(Item::IsNot),
        _ => number_within(word, variables).map(Item::Is),
    }
}
