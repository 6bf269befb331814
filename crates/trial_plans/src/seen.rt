// What the walks came to: where on the chain they ended and which sums they told, so that a program that does nothing is
// noticed.
ghost use Rattle.std.specs.Prelude.{◌<◌};

use std::io;
use trial_kit::lines::say_nth;
use trial_kit::tally::{Tally, Verdict};
use trial_kit::{bytes, counts, tally};

// Where a walk ended, in the order of the printed rows: with 4 to 9 or 11, at the chain's end, there with a leftover, or before
// it began.
#[derive(Clone, Copy)]
enum Ended {
    NoRecord,
    RecordAgain,
    NoNumber,
    NumberAgain,
    Unlisted,
    AbovePeriod,
    AboveCap,
    AtEnd,
    AtLeftover,
    Unbegun,
}

// What the last sum is, in the order of the printed rows: above P where the walk was refused on its way, and at the chain's end
// P, P + 1, 65,536, or another number or none.
#[derive(Clone, Copy)]
enum LastSum {
    Above,
    Whole,
    More,
    Most,
    Other,
}

// The counts are lent. Ten rows of 17 say after how many records, 0 to 16, the walks ended. Behind them stand how many sums were
// compared, and the counts of the last sums.
const SUMS: usize = 170;

const LAST: usize = 171;

// Those of plan values, which `writes` counts, of marks, which `marks` counts, and of leftovers, which `found` counts.
pub const WRITES: usize = 176;

pub const MARKS: usize = 185;

pub const LEFTOVERS: usize = 191;

// A walk compared: how many records were taken, where it ended, and what its last sum is where that is counted.
#[derive(Clone, Copy)]
struct Walk {
    records: u32,
    ended: Ended,
    last: Option<LastSum>,
}

// A case compared; a plan value has no walk.
#[derive(Clone, Copy)]
pub struct Outcome {
    pub verdict: Verdict,
    walk: Option<Walk>,
}

fn end_of(number: u32) -> Ended {
    match number {
        0 | 10 => Ended::AtEnd,
        12 => Ended::AtLeftover,
        4 => Ended::NoRecord,
        5 => Ended::RecordAgain,
        6 => Ended::NoNumber,
        7 => Ended::NumberAgain,
        8 => Ended::Unlisted,
        9 => Ended::AbovePeriod,
        11 => Ended::AboveCap,
        _ => Ended::Unbegun,
    }
}

// What a walk's last sum is: sums never fall, so that it is above P where any is.
fn last_sum(ended: Ended, last: u32, period: u32) -> Option<LastSum>
    requires { period < 65536 }
{
    match ended {
        Ended::AtEnd | Ended::AtLeftover => Some(at_end(last, period)),
        _ => (last > period).then_some(LastSum::Above),
    }
}

// A last sum at the chain's end.
fn at_end(last: u32, period: u32) -> LastSum
    requires { period < 65536 }
{
    match last {
        _ if last == period => LastSum::Whole,
        _ if last == period + 1 => LastSum::More,
        65536 => LastSum::Most,
        _ => LastSum::Other,
    }
}

// A file that was compared. Where no record was taken, the sum read is the sixteenth, a zero.
pub fn of_file(file: &[u8], v: Verdict) -> Outcome {
    let m = model_plans::sums(file);
    let told = m.told;
    let records = m.records % 17;
    let last = told[((records + 15) % 16) as usize];
    let ended = end_of(v.number);
    Outcome {
        verdict: v,
        walk: Some(Walk {
            records,
            ended,
            last: last_sum(ended, last, bytes::pair(file, 0, 0)),
        }),
    }
}

// A plan value that was compared.
pub fn of_value(v: Verdict) -> Outcome {
    Outcome {
        verdict: v,
        walk: None,
    }
}

fn count_walk(w: Walk, seen: &mut [u32]) {
    let after = (w.records % 17) as usize;
    counts::raise(seen, SUMS, w.records);
    counts::raise(seen, 17 * w.ended as usize + after, 1);
    if let Some(last) = w.last {
        counts::raise(seen, LAST + last as usize, 1);
    }
}

// The tally and the counts with a case more.
pub fn counted(t: Tally, kind: u32, case: u32, o: Outcome, seen: &mut [u32]) -> Tally {
    if let Some(w) = o.walk {
        count_walk(w, seen);
    }
    tally::counted(t, kind, case, o.verdict)
}

// The name of a row, or of a count behind them.
fn say_name(rt: &impl Print, k: usize) -> io::Result<()> {
    say_nth(
        rt,
        b"refused with 4 after 0 to 16 records\n\
        refused with 5 after 0 to 16 records\n\
        refused with 6 after 0 to 16 records\n\
        refused with 7 after 0 to 16 records\n\
        refused with 8 after 0 to 16 records\n\
        refused with 9 after 0 to 16 records\n\
        refused with 11 after 0 to 16 records\n\
        accepted or refused with 10 after 0 to 16 records\n\
        refused with 12 after 0 to 16 records\n\
        refused with 1 to 3 after 0 to 16 records\n\
        sums compared\n\
        refused with 4 to 9 or 11 after a sum above P\n\
        last sums of P\n\
        last sums of P + 1\n\
        last sums of 65,536\n\
        last sums of another number, or none\n\
        writeback reservations of plan values: none, below W, W, W + 1, more, above P\n\
        plan values refused with 9 though a domain of a lower number draws 11\n\
        plan values refused with 11 for a writeback reservation of at most P\n\
        plan values refused with 10 whose Q alone come to at most P\n\
        marked domains of plan values that are accepted\n\
        plan values refused with 9 at a domain that has a mark alone\n\
        plan values with such a domain that are refused with 9 at a lower one\n\
        marked domains of files that are accepted\n\
        files refused with 8 for a mark of 2 alone\n\
        files refused with 8 for a larger mark alone\n\
        files refused with 12, and those of them that the earlier rule takes\n\
        12 at record 1, 2 to 16, 17 to 62, and 63\n\
        lowest leftovers of one byte alone, at byte 0 to 15 of the record\n\
        files with a leftover that are refused with 1 to 11\n\
        files of 64 records, accepted and refused with 12, with chains of 0, of 1 and of 16 records\n",
        k,
    )
}

// How many counts stand under a name.
fn width(name: usize) -> usize {
    match name {
        0..=9 => 17,
        16 | 30 => 6,
        26 => 2,
        27 => 4,
        28 => 16,
        29 => 11,
        _ => 1,
    }
}

pub fn lines(rt: &impl Print, seen: &[u32]) -> io::Result<()> {
    let mut from: usize = 0;
    for name in 0..31 {
        say_name(rt, name)?;
        counts::say_row(rt, seen, from, width(name))?;
        from = from.wrapping_add(width(name));
    }
    Ok(())
}
