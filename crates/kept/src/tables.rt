// The tables that are lent, and what a grant makes of one domain's row of them.
ghost use Rattle.std.specs.Prelude.{◌≡◌, ◌<◌, ◌≤◌};
ghost use Rattle.table.specs.Sums.{nth};
ghost use Rattle.kept.specs.Numbers.{tables_of};
ghost use Rattle.kept.specs.Tables.{Few, Shifted};

use regulator::State;

// Five tables of a state, each at domain number - 1.
#[derive(Clone, Copy)]
pub struct Tables {
    pub claim: [u16; 16],
    pub reserved: [u16; 16],
    pub reclaimed: [u16; 16],
    pub writebacks: [u16; 16],
    pub writebackclaim: [u16; 16],
}

// What a grant to a domain takes, 1 or 0 of each: of its claim, of the stock, of its writeback claim; and 1 if it is a writeback.
#[derive(Clone, Copy)]
pub(crate) struct Taken {
    pub claim: u16,
    pub stock: u16,
    pub writeback: u16,
    pub writebackclaim: u16,
}

// The numbers of one domain of which masks are kept.
#[derive(Clone, Copy)]
pub(crate) struct Row {
    pub claim: u16,
    pub reclaimed: u16,
    pub writebacks: u16,
    pub writebackclaim: u16,
}

impl Tables {
    // The tables of a state.
    pub fn of(s: State) -> Tables
        ensures { result ≡ tables_of s }
    {
        let State {
            claim,
            reserved,
            reclaimed,
            writebacks,
            writebackclaim,
            ..
        } = s;
        Tables {
            claim,
            reserved,
            reclaimed,
            writebacks,
            writebackclaim,
        }
    }

    // A grant to the domain at index i: the tables after it, and the domain's row then.
    pub(crate) fn shift(&mut self, i: usize, taken: Taken) -> Row
        requires i_bound { (i < 16) × Few taken }
        requires claim { taken.claim ≤ nth self.old.claim i }
        requires reserved { nth self.old.reserved i ≤ 4096 }
        requires reclaimed { nth self.old.reclaimed i ≤ 4096 }
        requires writebacks { nth self.old.writebacks i ≤ 4096 }
        requires writebackclaim { taken.writebackclaim ≤ nth self.old.writebackclaim i }
        ensures { Shifted self.old self.new i taken result }
    {
        self.claim[i] -= taken.claim;
        self.reserved[i] += taken.claim;
        self.reclaimed[i] += taken.stock;
        self.writebacks[i] += taken.writeback;
        self.writebackclaim[i] -= taken.writebackclaim;
        Row {
            claim: self.claim[i],
            reclaimed: self.reclaimed[i],
            writebacks: self.writebacks[i],
            writebackclaim: self.writebackclaim[i],
        }
    }
}
