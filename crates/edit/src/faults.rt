// What an edit of a plan file is refused for.
ghost use Rattle.std.specs.Prelude.{◌≡◌};
ghost use Rattle.edit.specs.Faults.{edit_number, edit_place};

use plan::{Fault, Refused};

// A line at which dropping or adding is refused.
#[derive(Clone, Copy, Debug, PartialEq, Eq)]
pub enum EditFault {
    // The file is refused on reading.
    File(Refused),
    // The domain to add is refused.
    Domain(Fault),
    // Every record is on the chain.
    NoRoom,
    // The domain to drop is not on the chain.
    NotOnChain,
}

impl EditFault {
    // Its number in the tables.
    pub fn number(self) -> u8
        ensures { result ≡ edit_number self }
    {
        match self {
            EditFault::File(refused) => refused.fault.number(),
            EditFault::Domain(fault) => fault.number(),
            EditFault::NoRoom => 71,
            EditFault::NotOnChain => 72,
        }
    }

    // The place that it tells: that of reading, or 0.
    pub fn place(self) -> u16
        ensures { result ≡ edit_place self }
    {
        match self {
            EditFault::File(refused) => refused.place,
            EditFault::Domain(_) | EditFault::NoRoom | EditFault::NotOnChain => 0,
        }
    }
}

impl From<Refused> for EditFault {
    ghost use Rattle.edit.specs.declared.faults.EditFault.TheVariants.{File};

    ghost from_gives = { λ refused e. e ≡ File refused };

    fn from(refused: Refused) -> EditFault {
        EditFault::File(refused)
    }
}

impl From<Fault> for EditFault {
    ghost use Rattle.edit.specs.declared.faults.EditFault.TheVariants.{Domain};

    ghost from_gives = { λ fault e. e ≡ Domain fault };

    fn from(fault: Fault) -> EditFault {
        EditFault::Domain(fault)
    }
}
