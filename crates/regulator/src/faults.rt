// What a call on a state is refused for.
ghost use Rattle.std.specs.Prelude.{◌≡◌};
ghost use Rattle.regulator.specs.Refusals.{slot_number, yield_number, hand_refusal_by};
ghost use Rattle.regulator.specs.declared.faults.HandFault.TheVariants.{Plan};

use plan::Refused;

// A slot call: the state does not add up, or its closed periods are the most there are; the offers or the verdict buffer are not
// seventeen long; an offer byte is above 2; or a domain offers that is not planned.
#[derive(Clone, Copy, Debug, PartialEq, Eq)]
pub enum SlotFault {
    Unsound,
    LastPeriod,
    Length,
    AboveTwo,
    Unplanned,
}

// A yield: the state as above; the domain is not planned; the yield is of 0; or it is above the claim.
#[derive(Clone, Copy, Debug, PartialEq, Eq)]
pub enum YieldFault {
    Unsound,
    LastPeriod,
    NoDomain,
    Nothing,
    AboveClaim,
}

// A plan handed in: the state as above; or the plan would be refused.
#[derive(Clone, Copy, Debug, PartialEq, Eq)]
pub enum HandFault {
    Unsound,
    LastPeriod,
    Plan(Refused),
}

impl SlotFault {
    // Its number in the tables.
    pub fn number(self) -> u8
        ensures { result ≡ slot_number self }
    {
        match self {
            SlotFault::Unsound => 30,
            SlotFault::LastPeriod => 34,
            SlotFault::Length => 31,
            SlotFault::AboveTwo => 32,
            SlotFault::Unplanned => 33,
        }
    }
}

impl YieldFault {
    // Its number in the tables.
    pub fn number(self) -> u8
        ensures { result ≡ yield_number self }
    {
        match self {
            YieldFault::Unsound => 30,
            YieldFault::LastPeriod => 34,
            YieldFault::NoDomain => 21,
            YieldFault::Nothing => 22,
            YieldFault::AboveClaim => 23,
        }
    }
}

impl From<Refused> for HandFault {
    ghost from_gives = { λ e f. f ≡ Plan e };

    fn from(e: Refused) -> HandFault {
        HandFault::Plan(e)
    }
}

impl HandFault {
    // Its number in the tables.
    pub fn number(self) -> u8
        ensures { result ≡ (hand_refusal_by self).refused }
    {
        match self {
            HandFault::Unsound => 30,
            HandFault::LastPeriod => 34,
            HandFault::Plan(e) => e.fault.number(),
        }
    }

    // Its place: that of the plan's refusal.
    pub fn place(self) -> u16
        ensures { result ≡ (hand_refusal_by self).place }
    {
        match self {
            HandFault::Unsound | HandFault::LastPeriod => 0,
            HandFault::Plan(e) => e.place,
        }
    }
}
