// Compares the library's opening, slots, yields and handing in with the model's on stated cases and on lists of calls that are
// fixed by seeds, holds each list against the ledger and the bound of its rows, and prints what was compared. Every slot is put
// to both engines, and the cause of one of its verdicts is asked for.
#![tactic(auto)]

use run::{Case, Run};
use std::io;
use trial_kit::{draw, read_full, tally};
use trial_states::{passing, styles};

mod asked;
mod both;
mod report;
mod rows;
mod run;
mod script;
mod seen;
mod text;
mod turns;

const KINDS: u32 = 37;

// The most bytes of the text that states cases.
const GIVEN: usize = 65536;

fn try_kind(rt: &impl Print, run: &mut Run, kind: u32) -> io::Result<()> {
    run.tally = tally::next_kind(run.tally);
    for case in 0..styles::of_kind(kind).runs {
        let of = Case {
            kind,
            case,
            seed: draw::draw(kind.wrapping_add(1000), case),
        };
        if kind < passing::KIND {
            run.try_list(of);
        } else {
            run.try_turn(of);
        }
    }
    report::kind_line(rt, run.tally, kind)
}

// The stated cases and those of all kinds, given the text that states them.
fn try_all(rt: &impl Print, given: &[u8]) -> io::Result<()> {
    let mut run = script::try_cases(rt, Run::new(), given)?;
    for kind in 0..KINDS {
        try_kind(rt, &mut run, kind)?;
    }
    report::last_lines(rt, &run)
}

fn main(rt: HostRuntime) -> io::Result<()> {
    let mut given = [0u8; GIVEN];
    let bytes = read_full(&mut rt.stdin(), &mut given);
    try_all(&rt, &given[..bytes])
}
