// Why a step, a run of a list or a report is refused: document 01's table of numbers. Step text has refusals of its own.
#![tactic(auto)]

// In the order of their numbers.
#[derive(Clone, Copy, PartialEq, Eq, PartialOrd, Ord, Debug)]
pub enum Refusal {
    Record = 1,
    Code = 2,
    Argument = 3,
    Place = 4,
    Item = 5,
    Condition = 6,
    Room = 7,
    Steps = 8,
    Verdicts = 9,
}

impl From<Refusal> for u8 {
    ghost use Rattle.std.specs.Prelude.{◌≡◌};
    ghost use Rattle.refusals.specs.Numbers.{refusal_number};

    ghost from_gives = { λ refusal number. number ≡ refusal_number refusal };

    fn from(refusal: Refusal) -> u8 {
        refusal as u8
    }
}
