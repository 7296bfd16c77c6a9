// Texts as bytes: numbers and texts laid onto a lent buffer. The definitions stand in specs/.
#![tactic(auto)]

pub mod writing;

ghost use Rattle.std.specs.Prelude.{◌≡◌};

// A byte as a number: `usize::from`, under the name that the theorem wide_settled and its wrong programs hold.
pub fn wide(x: u8) -> usize
    ensures { result ≡ x }
{
    usize::from(x)
}
