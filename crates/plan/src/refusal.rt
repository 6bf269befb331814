// What a plan file or a plan value is refused for, and where.
ghost use Rattle.std.specs.Prelude.{◌≡◌};
ghost use Rattle.plan.specs.Value.{number};

// A line of the tables of refusals.
#[derive(Clone, Copy, Debug, PartialEq, Eq)]
pub enum Fault {
    Length,
    Period,
    Head,
    NoRecord,
    RecordAgain,
    NoNumber,
    NumberAgain,
    Unlisted,
    AbovePeriod,
    Sum,
    AboveCap,
    Leftover,
    Room,
}

// A refusal: what for, and its place.
#[derive(Clone, Copy, Debug, PartialEq, Eq)]
pub struct Refused {
    pub fault: Fault,
    pub place: u16,
}

impl Fault {
    // Its number in the tables.
    pub fn number(self) -> u8
        ensures { result ≡ number self }
    {
        match self {
            Fault::Length => 1,
            Fault::Period => 2,
            Fault::Head => 3,
            Fault::NoRecord => 4,
            Fault::RecordAgain => 5,
            Fault::NoNumber => 6,
            Fault::NumberAgain => 7,
            Fault::Unlisted => 8,
            Fault::AbovePeriod => 9,
            Fault::Sum => 10,
            Fault::AboveCap => 11,
            Fault::Leftover => 12,
            Fault::Room => 51,
        }
    }
}
