// What the test program of edits is run on: the plan files of each kind, and the edits of each, all fixed by seeds.
#![tactic(auto)]

pub mod calls;
pub mod files;
mod rescues;

use trial_kit::draw;

// A case of a kind, and the seed of all that is drawn for it. Kinds are numbers: by its number a kind seeds its cases and has its
// place in the printed list, so that an enum would be turned into it and back at each use.
#[derive(Clone, Copy)]
pub struct Case {
    pub kind: u32,
    pub case: u32,
    pub seed: u32,
}

impl Case {
    pub fn of(kind: u32, case: u32) -> Case {
        let seed = draw::draw(kind, case);
        Case { kind, case, seed }
    }
}
