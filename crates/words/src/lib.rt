// Words and numbers read from a text. The definitions stand in specs/, and in those of `text`.
#![tactic(auto)]

ghost use Rattle.std.specs.Prelude.{◌+◌, [], ◌∷◌, ◌≡◌, eqb, drop};
ghost use Rattle.text.specs.Decimal.{value_of, number, not_above, within};
ghost use Rattle.words.specs.Numbers.{told, from_one};
ghost use Rattle.text.specs.Text.{same_text, up_to};

// The first place from `at` on that holds the byte `end`; where there is none, the text's length. The part from `at` on, and no `skip`, which
// would walk to it from the text's start.
pub fn next(text: &[u8], at: usize, end: u8) -> usize
    ensures { result ≡ at + up_to (λ b. eqb b end) (drop at text.now) }
{
    let from = at.min(text.len());
    at + text[from..].iter().take_while(|&&b| b != end).count()
}

// Whether two texts are the same bytes: `==`, under the name that the theorem same_settled and its wrong programs hold.
#[tactic(auto, using(crate::proofs::SameText::equal_is_same))]
pub fn same(text: &[u8], word: &[u8]) -> bool
    ensures { result ≡ same_text text.now word.now }
{
    text == word
}

// One more digit behind `value`; none where the byte is no digit, or where the number passes `top`.
#[tactic(auto, using(crate::proofs::Numbers::one_more_digit))]
pub fn grown(value: usize, byte: u8, top: usize) -> Option<usize>
    ensures { told result ≡ not_above top (value_of value (byte ∷ [])) }
{
    if !byte.is_ascii_digit() {
        return None;
    }
    let more = value
        .checked_mul(10)?
        .checked_add(usize::from(byte - b'0'))?;
    (more <= top).then_some(more)
}

// The number from 1 to `top` without leading zeros that a text is, if it is one. It stops where the number passes `top`, and where
// it stays 0 behind its first digit.
pub fn number_within(text: &[u8], top: usize) -> Option<usize>
    ensures { result ≡ from_one (within top (number text.now)) }
{
    let mut value = 0;
    for &byte in text {
        value = grown(value, byte, top)?;
        if value == 0 {
            return None;
        }
    }
    (value != 0).then_some(value)
}
