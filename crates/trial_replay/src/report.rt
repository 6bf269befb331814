// The lines that are printed.
use std::io;
use trial_kit::tally::Tally;
use trial_kit::{lines, report};
use trial_scripts::cases;
use trial_scripts::lines::TOLD;

// Where the name of a kind stands: the text given has the names in the order of the kinds, each behind the word `kind`.
// A `while`: the place goes from line to line.
fn name_of(given: &[u8], kind: u32) -> usize {
    let mut left = kind;
    let mut at: usize = 0;
    while at < given.len() {
        if lines::byte(given, at) == b'k' {
            if left == 0 {
                return at.wrapping_add(5);
            }
            left -= 1;
        }
        at = lines::after_line(given, at);
    }
    at
}

// What was compared of a kind, after its name.
pub fn counts_line(rt: &impl Print, t: Tally, periods: u32) -> io::Result<()> {
    print!(rt; ": compared {}, refused {}", t.compared, t.refused)?;
    print!(rt;
        ", of them with 12: {}, not refused {}",
        t.leftovers, t.accepted
    )?;
    print!(rt; ", periods {periods}")?;
    report::differ_line(rt, t)
}

pub fn kind_line(
    rt: &impl Print,
    given: &[u8],
    t: Tally,
    kind: u32,
    periods: u32,
) -> io::Result<()> {
    lines::say_line(rt, given, name_of(given, kind))?;
    counts_line(rt, t, periods)
}

// Counts, and the line's end.
fn say_row(rt: &impl Print, counts: &[u64]) -> io::Result<()> {
    for count in counts {
        print!(rt; " {}", count % 4294967296)?;
    }
    println!(rt)
}

// How often each verdict was told in the slots of a kind's scripts, where these are rows.
pub fn verdicts_line(rt: &impl Print, words: &[u64; 483], kind: u32) -> io::Result<()> {
    if kind >= cases::ROWS {
        print!(rt; "verdicts 0 to 6 in these:")?;
        say_row(rt, &words[TOLD..])?;
    }
    Ok(())
}

// The causes told in the questions of all kinds, by their sorts from 1 on.
pub fn causes_line(rt: &impl Print, causes: &[u64; 23]) -> io::Result<()> {
    report::say_causes(rt)?;
    say_row(rt, &causes[1..])
}

// The refusals, the total, and where something differed its first kind and case.
pub fn last_lines(rt: &impl Print, given: &[u8], t: Tally) -> io::Result<()> {
    report::told_lines(
        rt,
        t,
        &[
            1, 2, 3, 4, 5, 6, 7, 8, 9, 10, 11, 12, 21, 22, 23, 32, 33, 41, 61, 62, 63,
        ],
    )?;
    report::first_line(
        rt,
        t,
        |kind| lines::say_line(rt, given, name_of(given, kind)),
    )?;
    report::total_line(rt, t)
}
