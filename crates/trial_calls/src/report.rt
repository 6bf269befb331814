// The names of the kinds, and the lines after them.
use super::run::Run;
use super::{rows, script, seen};
use std::io;
use trial_kit::tally::Tally;
use trial_kit::{lines, report};

fn say_kind(rt: &impl Print, kind: u32) -> io::Result<()> {
    lines::say_nth(
        rt,
        b"openings of plans that are accepted\n\
        openings of plans with one fault, several or none\n\
        runs with P 1\n\
        runs with P 2 to 40\n\
        runs with P 4,096\n\
        runs with no domains\n\
        runs with sixteen domains\n\
        runs with all Q zero\n\
        runs with sums of both reservations equal to P\n\
        runs with many yields\n\
        runs with few offers\n\
        runs with greedy offers\n\
        runs with many writebacks\n\
        runs with calls of one fault\n\
        runs with calls of two faults\n\
        states with one number off\n\
        states with several numbers off that keep some sums\n\
        states whose sums are right modulo 65,536\n\
        states of drawn numbers\n\
        states at 4,294,967,294 and 4,294,967,295 closed periods\n\
        states with their sum of steps at a bound, one outside, or far off\n\
        a run with P 4,096 and no offers\n\
        runs with plans handed in\n\
        runs that begin with P 1, with plans handed in\n\
        states whose waiting plan would be refused\n\
        states beside whose flag, which is off, lies a plan that would be refused\n\
        states with writebacks, their claims or reservations off\n\
        runs with many writebacks and no writeback reservations\n\
        states in their last slot with estimates of every sort\n\
        states with an estimate of a domain that is not marked, or is\n\
        runs of many periods with every domain marked\n\
        runs with marked domains and plans handed in\n\
        runs in which nearly all numbers pass in every slot\n\
        every turn with passing sets of every size, loose above 0\n\
        every turn with passing sets of every size, some on stock\n\
        every turn with sets of one to sixteen that pass on claim, all others blocked\n\
        every turn with passing sets of every size, loose at most 0 and nobody waiting on claim\n",
        kind as usize,
    )
}

fn say_name(rt: &impl Print, kind: u32) -> io::Result<()> {
    if kind == script::STATED {
        print!(rt; "stated cases")
    } else {
        say_kind(rt, kind)
    }
}

pub fn kind_line(rt: &impl Print, t: Tally, kind: u32) -> io::Result<()> {
    say_name(rt, kind)?;
    report::counts_line(rt, t)
}

// What was seen, the rows, the refusals, the total, and where something differed its first kind and case.
pub fn last_lines(rt: &impl Print, r: &Run) -> io::Result<()> {
    let t = r.tally;
    seen::lines(rt, &r.seen)?;
    rows::lines(rt, &r.desk.rows)?;
    report::told_lines(rt, t, &[2, 9, 10, 11, 21, 22, 23, 30, 31, 32, 33, 34])?;
    report::first_line(rt, t, |kind| say_name(rt, kind))?;
    report::total_line(rt, t)
}
