// What the edits came to, counted, so that a program that does nothing is noticed.
ghost use Rattle.std.specs.Prelude.{◌<◌, ◌≤◌, IfSome};

use super::{report, rescued};
use edit::NewDomain;
use model_edits::{Told, adding, chain};
use model_plans::{Answer, words};
use std::io;
use trial_files::calls::Call;
use trial_kit::counts;

// The counts are lent, in the order of the names below. Three rows of 15 say how often each edit but a rescue was done, and
// refused with 1 to 12, 71 and 72. Five rows of five say for 6, 7, 9, 11 and 10 which of 7, 9, 11, 10 and 71 would have been told
// after it. Behind stand the counts of `rescued`.
const DROPS: usize = 0;

const ADDS: usize = 15;

const COMPACTS: usize = 30;

const DROPPED: usize = 45;

const TAKEN: usize = 49;

const LATER: usize = 53;

const SUMS: usize = 78;

const COMPACTED: usize = 80;

const CUT: usize = 84;

const ADDED: usize = 88;

// The place of a refusal in its row.
fn column(number: u32) -> usize
    ensures { result < 15 }
{
    match number {
        0..=12 => number as usize,
        71 => 13,
        _ => 14,
    }
}

// Where a record dropped stood on the chain, in the order of the printed row.
#[derive(Clone, Copy)]
enum Stood {
    Alone,
    First,
    Between,
    Last,
}

fn standing(position: u32, records: u32) -> Stood {
    match position {
        _ if records == 1 => Stood::Alone,
        1 => Stood::First,
        _ if position == records => Stood::Last,
        _ => Stood::Between,
    }
}

// How many records of the chain are below a record.
fn below(file: &[u8], records: u32, index: u32) -> usize {
    (1..=records)
        .filter(|&k| chain::nth(file, k) < index)
        .count()
}

// Where the record taken stands by the chain's records, in the order of the printed row.
#[derive(Clone, Copy)]
enum Taken {
    Alone,
    Before,
    Between,
    Behind,
}

fn taking(file: &[u8], records: u32) -> Taken {
    match below(file, records, chain::highest_free(file)) {
        _ if records == 0 => Taken::Alone,
        0 => Taken::Before,
        lower if lower == records as usize => Taken::Behind,
        _ => Taken::Between,
    }
}

// Where a number that is refused is first one of the plan: cut to 32 bits, to 16 or to 8.
fn cut(file: &[u8], number: u64) -> Option<usize>
    ensures { IfSome result (λ k. k < 3) }
{
    let masks: [u64; 3] = [0xffff_ffff, 0xffff, 0xff];
    masks
        .iter()
        .position(|&mask| chain::position(file, number & mask) != 0)
}

fn count_drop(file: &[u8], number: u64, refused: u32, seen: &mut [u32]) {
    counts::raise(seen, DROPS + column(refused), 1);
    match refused {
        0 => {
            let stood = standing(chain::position(file, number), chain::records(file));
            counts::raise(seen, DROPPED + stood as usize, 1);
        }
        72 => counts::raise(seen, CUT + cut(file, number).unwrap_or(3), 1),
        _ => (),
    }
}

// Whether 7, 9, 11, 10 or 71 would be told of a domain, by its place among these.
fn would(a: Answer, d: NewDomain, free: u32, which: usize) -> bool {
    let domains = a.domains;
    let period = u64::from(a.period);
    let t = words::count(a.period, domains);
    match which {
        0 => adding::domain_of(d.number).is_some_and(|n| words::word(domains, n, 0) != 0),
        1 => adding::above(period, d.reservation, d.reclaimcap, d.writebackcap),
        2 => d.writebackreservation > d.writebackcap,
        3 => adding::overfull(
            period,
            t.reservations,
            d.reservation,
            d.writebackreservation,
        ),
        _ => free == 0,
    }
}

// The row of a refusal of adding.
fn row(number: u32) -> usize
    ensures { result < 5 }
{
    match number {
        6 => 0,
        7 => 1,
        9 => 2,
        11 => 3,
        _ => 4,
    }
}

// A domain refused with 6, 7, 9, 11 or 10: what else would be told of it.
fn count_later(a: Answer, d: NewDomain, free: u32, number: u32, seen: &mut [u32]) {
    let first = row(number);
    counts::raise_if(seen, SUMS + 1, number == 10 && comes_to(a, d, 1));
    for which in 0..5 {
        counts::raise_if(seen, LATER + 5 * first + which, would(a, d, free, which));
    }
}

// Whether all reservations come to P with those of a domain, or to P + 1.
fn comes_to(a: Answer, d: NewDomain, more: u64) -> bool
    requires { more ≤ 1 }
{
    let domains = a.domains;
    let t = words::count(a.period, domains);
    let own = d.reservation.wrapping_add(d.writebackreservation);
    t.reservations.wrapping_add(own) == u64::from(a.period) + more
}

// A domain that was added: where, whether P is reached, whether marked, and whether with a writeback reservation.
fn count_added(file: &[u8], a: Answer, d: NewDomain, seen: &mut [u32]) {
    let at = taking(file, chain::records(file));
    counts::raise(seen, TAKEN + at as usize, 1);
    counts::raise_if(seen, SUMS, comes_to(a, d, 0));
    let sort = usize::from(d.marked) + 2 * usize::from(d.writebackreservation > 0);
    counts::raise(seen, ADDED + sort, 1);
}

fn count_add(file: &[u8], d: NewDomain, refused: u32, seen: &mut [u32]) {
    counts::raise(seen, ADDS + column(refused), 1);
    let a = model_plans::read(file);
    if a.number != 0 {
        return;
    }
    match refused {
        0 => count_added(file, a, d, seen),
        71 => (),
        _ => count_later(a, d, chain::highest_free(file), refused, seen),
    }
}

// How a file was compacted, in the order of the printed row; one with its chain at the front already keeps every byte.
#[derive(Clone, Copy)]
enum Compacted {
    NoChain,
    AtFront,
    Moved,
    OverLeftovers,
}

fn compacting(file: &[u8], after: &[u8]) -> Compacted {
    let size = file.len().min(after.len());
    if chain::records(file) == 0 {
        return Compacted::NoChain;
    }
    if file == &after[..size] {
        return Compacted::AtFront;
    }
    match model_plans::read(file).number {
        12 => Compacted::OverLeftovers,
        _ => Compacted::Moved,
    }
}

fn count_compact(file: &[u8], after: &[u8], refused: u32, seen: &mut [u32]) {
    counts::raise(seen, COMPACTS + column(refused), 1);
    if refused == 0 {
        counts::raise(seen, COMPACTED + compacting(file, after) as usize, 1);
    }
}

// Counts an edit, given the file before, and after with any bytes behind.
pub fn count(file: &[u8], after: &[u8], c: Call, m: Told, seen: &mut [u32]) {
    match c {
        Call::Drop(number) => count_drop(file, number, m.number, seen),
        Call::Add(d) => count_add(file, d, m.number, seen),
        Call::Compact => count_compact(file, after, m.number, seen),
        Call::Rescue => rescued::count(file, after, m.number, m.kept, seen),
    }
}

pub fn lines(rt: &impl Print, seen: &[u32]) -> io::Result<()> {
    report::rows(
        rt,
        seen,
        DROPS,
        b"dropped, and refused with 1 to 12, 71, 72\n\
        added, and refused with 1 to 12, 71, 72\n\
        compacted, and refused with 1 to 12, 71, 72\n\
        dropped the only record, the first, a middle one, the last\n\
        added to an empty chain, and before, between, behind its records\n\
        6 where 7, 9, 11, 10, 71 hold too\n\
        7 where 7, 9, 11, 10, 71 hold too\n\
        9 where 7, 9, 11, 10, 71 hold too\n\
        11 where 7, 9, 11, 10, 71 hold too\n\
        10 where 7, 9, 11, 10, 71 hold too\n\
        added up to P, and 10 at P + 1\n\
        compacted no chain, one at the front, one moved, one moved over leftovers\n\
        72 for a number that is there when cut to 32, 16, 8 bits, and for others\n\
        added plain, marked, with a writeback reservation, with both\n",
        &[15, 15, 15, 4, 4, 5, 5, 5, 5, 5, 2, 4, 4, 4],
    )
}
