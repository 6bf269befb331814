// Compares the library's edits of plan files with the model's on stated cases and on files and calls that are fixed by seeds,
// and prints what was compared.
#![tactic(auto)]

use std::io;
use trial_files::{Case, calls, files};
use trial_kit::tally::Tally;
use trial_kit::{read_full, tally};

mod compare;
mod report;
mod rescued;
mod seen;
mod stated;

// Kind 0 are the stated cases.
const KINDS: u32 = 30;

// The most bytes of the text that states cases.
const GIVEN: usize = 65536;

// How many files each kind has.
fn cases(kind: u32) -> u32 {
    match kind {
        2 => 2700,
        7 => 1088,
        6 => 3840,
        8 => 1200,
        9 | 10 => 800,
        11 => 2400,
        12..=14 => 1500,
        15 => 1041,
        16 => 300,
        17 => 150,
        18 => 11424,
        19 => 3808,
        20 | 21 => 2048,
        22 => 4480,
        23..=25 => 2000,
        26 => 2400,
        27 => 1041,
        28 => 720,
        29 => 400,
        _ => 3000,
    }
}

// Edit k of a case.
fn edit_one(t: Tally, of: Case, k: u32, file: &mut [u8], seen: &mut [u32]) -> Tally {
    let o = compare::tried(file, calls::drawn(file, of, k), seen);
    tally::counted(t, of.kind, of.case, o.verdict)
}

// The edits of one file, one after the other.
fn edit_all(before: Tally, of: Case, file: &mut [u8], seen: &mut [u32]) -> Tally {
    let most = calls::edits(of.kind);
    let mut t = before;
    for k in 0..most {
        let next = edit_one(t, of, k, file, seen);
        t = next;
    }
    t
}

fn try_file(t: Tally, of: Case, seen: &mut [u32]) -> Tally {
    let mut file = [0u8; 1040];
    let size = files::put(&mut file, of);
    let end = (size as usize).min(1040);
    edit_all(t, of, &mut file[0..end], seen)
}

fn try_kind(rt: &impl Print, before: Tally, kind: u32, seen: &mut [u32]) -> io::Result<Tally> {
    let mut t = tally::next_kind(before);
    let most = cases(kind);
    for case in 0..most {
        let next = try_file(t, Case::of(kind, case), seen);
        t = next;
    }
    report::kind_line(rt, t, kind)?;
    Ok(t)
}

fn try_kinds(rt: &impl Print, before: Tally, seen: &mut [u32]) -> io::Result<Tally> {
    let mut t = before;
    for kind in 1..KINDS {
        let next = try_kind(rt, t, kind, seen)?;
        t = next;
    }
    Ok(t)
}

// The stated cases and those of all kinds, given the text that states them.
fn try_all(rt: &impl Print, given: &[u8]) -> io::Result<()> {
    let mut seen = [0u32; 264];
    let before = stated::cases(rt, tally::start(), given, &mut seen)?;
    let t = try_kinds(rt, before, &mut seen)?;
    seen::lines(rt, &seen)?;
    rescued::lines(rt, &seen)?;
    report::last_lines(rt, t)
}

fn main(rt: HostRuntime) -> io::Result<()> {
    let mut given = [0u8; GIVEN];
    let bytes = read_full(&mut rt.stdin(), &mut given);
    try_all(&rt, &given[..bytes])
}
