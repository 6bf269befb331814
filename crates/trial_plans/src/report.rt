// The lines that are printed.
use std::io;
use trial_kit::tally::Tally;
use trial_kit::{lines, report};

// The kinds without leftovers, and those with some, by their place among them.
fn say_clean(rt: &impl Print, k: usize) -> io::Result<()> {
    lines::say_nth(
        rt,
        b"stated cases\n\
        files of every length\n\
        periods\n\
        bytes 4 to 15 of record 0\n\
        chains in any order\n\
        links\n\
        domain numbers\n\
        byte 3 of 2 and up, and bytes 12 to 15\n\
        Q, R and W around P\n\
        sums of both reservations around P, and 65,536\n\
        two faults in one record\n\
        two faults in any records\n\
        one byte of a good file\n\
        random bytes\n\
        sparse bytes\n\
        records of small fields\n\
        plan values that are accepted\n\
        plan values with one number damaged\n\
        plan values with a number or a mark in an absent domain\n\
        plan values with several faults\n\
        plan values with sums of both reservations around P, and 65,536\n\
        plan values of any period\n\
        plan values in buffers of each length\n\
        a fault of 4 to 9 or 11 at each place of a chain\n\
        sums that mostly pass P, and a fault of 4 to 9 or 11\n\
        chains of each length, and no fault\n\
        writeback reservations around W\n\
        plan values with writeback reservations around W\n\
        marks of 0, 1, and more\n\
        plan values with the mark of an absent domain\n",
        k,
    )
}

fn say_left(rt: &impl Print, k: usize) -> io::Result<()> {
    lines::say_nth(
        rt,
        b"chains in any order, and any bytes off the chain\n\
        one byte off the chain, at each place of the first record there, a middle one and the last\n\
        several leftovers of a byte each\n\
        several leftovers that are records of domains and name each other\n\
        64 records, a chain of 0, 1 or 16, with and without a leftover\n\
        a leftover beside each refusal of 1 to 11\n\
        chains cut short, and what is cut off left over\n\
        used buffers that a plan is written to, read whole\n\
        random bytes, also off the chain\n\
        sparse bytes, also off the chain\n\
        records of small fields, also off the chain\n",
        k,
    )
}

fn say_name(rt: &impl Print, kind: u32) -> io::Result<()> {
    if kind < 30 {
        say_clean(rt, kind as usize)
    } else {
        say_left(rt, (kind - 30) as usize)
    }
}

// What was compared of a kind or of a stated case, after its name.
pub fn counts_line(rt: &impl Print, t: Tally) -> io::Result<()> {
    report::counts(rt, t)?;
    print!(rt; ", of them with 12: {}", t.leftovers)?;
    report::differ_line(rt, t)
}

pub fn kind_line(rt: &impl Print, t: Tally, kind: u32) -> io::Result<()> {
    say_name(rt, kind)?;
    counts_line(rt, t)
}

// The refusals, the total, and where something differed its first kind and case.
pub fn last_lines(rt: &impl Print, t: Tally) -> io::Result<()> {
    report::told_lines(rt, t, &[1, 2, 3, 4, 5, 6, 7, 8, 9, 10, 11, 12, 51])?;
    report::first_line(rt, t, |kind| say_name(rt, kind))?;
    report::total_line(rt, t)
}
