// A file's record in a lent slice.
#![tactic(auto)]

mod writing;

ghost use Rattle.std.specs.Prelude.{◌≡◌};
ghost use Rattle.record.specs.Writing.{outcome_number, outcome_value};
ghost use Rattle.record.specs.declared.Unwritten.TheVariants.{RefusedInput};

use table::Refusal;
pub use writing::write;

// Why nothing is written: a refusal of the input, or the length needed where the lent slice is too short.
#[derive(Clone, Copy, PartialEq, Eq)]
pub enum Unwritten {
    RefusedInput(Refusal),
    TooShort(usize),
}

impl From<Refusal> for Unwritten {
    ghost from_gives = { λ refusal unwritten. unwritten ≡ RefusedInput refusal };

    fn from(refusal: Refusal) -> Unwritten {
        Unwritten::RefusedInput(refusal)
    }
}

// Document 01's number of the refusal; 0 where something was written.
pub fn number_of(outcome: Result<usize, Unwritten>) -> u8
    ensures { result ≡ outcome_number outcome }
{
    match outcome {
        Ok(_) => 0,
        Err(Unwritten::RefusedInput(refusal)) => refusal.number(),
        Err(Unwritten::TooShort(_)) => 13,
    }
}

// What it returns beside: the place, the length needed, or the length that was written.
pub fn value_of(outcome: Result<usize, Unwritten>) -> usize
    ensures { result ≡ outcome_value outcome }
{
    match outcome {
        Ok(size) => size,
        Err(Unwritten::RefusedInput(refusal)) => refusal.place(),
        Err(Unwritten::TooShort(needed)) => needed,
    }
}
