// The lines of the kinds, the last ones, and rows of counts.
use std::io;
use trial_kit::tally::Tally;
use trial_kit::{counts, lines, report};

fn say_kind(rt: &impl Print, kind: u32) -> io::Result<()> {
    lines::say_nth(
        rt,
        b"stated cases\n\
        dropping from chains in any order\n\
        dropping 0 to 17, and wide numbers\n\
        adding what fits\n\
        adding amounts at P and above, to 64 bits\n\
        adding up to P and P + 1\n\
        adding with each set of faults\n\
        adding to full files and empty chains\n\
        each edit of files refused with 1 to 12\n\
        any bytes off the chain, then compacted\n\
        domains off the chain, then compacted\n\
        one byte of a good file\n\
        random bytes\n\
        sparse bytes\n\
        records of small fields\n\
        files of every length\n\
        edits one after the other\n\
        sixteen domains, dropped and added\n\
        rescued: 4 to 9 and 11 at each place of each chain\n\
        rescued: each link led elsewhere\n\
        rescued: sums of P and P + 1\n\
        rescued: sums far above P\n\
        rescued: a sum above P and a fault\n\
        rescued: files that are accepted\n\
        rescued: leftovers alone\n\
        rescued: any bytes behind record 0\n\
        rescued: one byte of a good file\n\
        rescued: files of every length\n\
        rescued: files refused with 1 to 3\n\
        rescued and edited, one after the other\n",
        kind as usize,
    )
}

pub fn kind_line(rt: &impl Print, t: Tally, kind: u32) -> io::Result<()> {
    say_kind(rt, kind)?;
    report::counts_line(rt, t)
}

// The total, and where something differed its first kind and case.
pub fn last_lines(rt: &impl Print, t: Tally) -> io::Result<()> {
    report::first_line(rt, t, |kind| say_kind(rt, kind))?;
    report::total_line(rt, t)
}

// Rows of counts from one on: of each its name, which is a line of the text, and as many counts as the row is wide.
pub fn rows(
    rt: &impl Print,
    seen: &[u32],
    first: usize,
    names: &[u8],
    widths: &[usize],
) -> io::Result<()> {
    let mut from = first;
    for (row, &width) in widths.iter().enumerate() {
        lines::say_nth(rt, names, row)?;
        counts::say_row(rt, seen, from, width)?;
        from = from.wrapping_add(width);
    }
    Ok(())
}
