// Compares the library's plans with the model's on stated cases and on files and values that are fixed by seeds, and prints
// what was compared.
#![tactic(auto)]

use cases::Case;
use leftovers::Known;
use seen::Outcome;
use std::io;
use trial_kit::tally::Tally;
use trial_kit::{read_full, tally};

mod cases;
mod compare;
mod files;
mod found;
mod leftovers;
mod marks;
mod places;
mod plans;
mod report;
mod seen;
mod stated;
mod writes;

// The most bytes of the text that states cases.
const GIVEN: usize = 65536;

// A file, counted, and compared, also with what is known of it.
fn tried(c: Case, file: &[u8], known: Option<Known>, seen: &mut [u32]) -> Outcome {
    marks::count_file(file, seen);
    found::count_file(file, c.kind, seen);
    let holds = places::holds(file, c) && leftovers::holds(file, known);
    let v = compare::file(file, c.seed, holds);
    seen::of_file(file, v)
}

fn try_file(c: Case, seen: &mut [u32]) -> Outcome {
    let mut file = [0u8; 1040];
    let m = files::put(&mut file, c);
    let size = m.bytes.min(1040) as usize;
    tried(c, &file[..size], m.known, seen)
}

fn try_value(c: Case, seen: &mut [u32]) -> Outcome {
    let p = plans::made(c);
    writes::count_value(p, seen);
    marks::count_value(p, seen);
    seen::of_value(compare::value(p, plans::lent(p, c), c.seed))
}

fn try_case(c: Case, seen: &mut [u32]) -> Outcome {
    match c.kind {
        16..=22 | 27 | 29 => try_value(c, seen),
        _ => try_file(c, seen),
    }
}

fn try_kind(rt: &impl Print, before: Tally, kind: u32, seen: &mut [u32]) -> io::Result<Tally> {
    let mut t = tally::next_kind(before);
    for number in 0..cases::count(kind) {
        let outcome = try_case(cases::case_of(kind, number), seen);
        let next = seen::counted(t, kind, number, outcome, seen);
        t = next;
    }
    report::kind_line(rt, t, kind)?;
    Ok(t)
}

fn try_kinds(rt: &impl Print, before: Tally, seen: &mut [u32]) -> io::Result<Tally> {
    let mut t = before;
    for kind in 1..cases::KINDS {
        let next = try_kind(rt, t, kind, seen)?;
        t = next;
    }
    Ok(t)
}

// The stated cases and those of all kinds, given the text that states them.
fn try_all(rt: &impl Print, given: &[u8]) -> io::Result<()> {
    let mut seen = [0u32; 230];
    let before = stated::cases(rt, tally::start(), given, &mut seen)?;
    let t = try_kinds(rt, before, &mut seen)?;
    seen::lines(rt, &seen)?;
    report::last_lines(rt, t)
}

fn main(rt: HostRuntime) -> io::Result<()> {
    let mut given = [0u8; GIVEN];
    let bytes = read_full(&mut rt.stdin(), &mut given);
    try_all(&rt, &given[..bytes])
}
