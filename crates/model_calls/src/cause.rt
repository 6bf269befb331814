// Why a number has its verdict in a slot. A grant is explained by what it takes: it is entered, and the words after it are
// compared with those before.
ghost use Rattle.std.specs.Prelude.{◌<◌, IfOk};

use super::{calls, cells, verdict};

// What a granted number passes on; 0 is told for any other verdict.
pub const CLAIM: u8 = 1;

pub const STOCK: u8 = 2;

pub const NEITHER: u8 = 3;

// The refusal, or 0; the verdict; what was offered, 0 by best effort, 1 an access and 2 a writeback of a domain; what the grant is
// on; and the figures told, the first of which may be below zero. What a grant is on stays a number, as the refusal does: the
// stated cases of the tests tell it as one. `below` beside `first` is the figure's sign, as the words of the tests have it.
#[derive(Clone, Copy)]
pub struct Cause {
    pub number: u32,
    pub verdict: u8,
    pub offered: u8,
    pub word: u8,
    pub below: bool,
    pub first: u64,
    pub second: u64,
}

pub fn figures(number: u32, verdict: u8, first: u64, second: u64) -> Cause {
    Cause {
        number,
        verdict,
        offered: 0,
        word: 0,
        below: false,
        first,
        second,
    }
}

// The number that is asked about, or the refusal of a slot call, or else 62 for a number that is neither 0 nor planned.
fn asked(s: &[u64], offers: &[u8], number: u64) -> Result<usize, u32>
    ensures { IfOk result (λ n. n < 17) }
{
    calls::check_slot(s, offers, 17)?;
    if number > 16 {
        return Err(62);
    }
    let n = number as usize;
    if n > 0 && cells::get(s, n, cells::PRESENT) == 0 {
        return Err(62);
    }
    Ok(n)
}

// What the grant of a number is on. One on stock lowers the stock; one on claim uses a slot and a claim, and leaves loose as it
// was.
fn granted_on(s: &mut [u64], offers: &[u8], n: usize) -> u8 {
    let stock = cells::get(s, 0, cells::STOCK);
    let before = verdict::taken_off(s);
    calls::enter(s, offers, Some(n));
    if cells::get(s, 0, cells::STOCK) < stock {
        return STOCK;
    }
    if verdict::taken_off(s) == before {
        CLAIM
    } else {
        NEITHER
    }
}

fn granted_cause(s: &mut [u64], offers: &[u8], n: usize) -> Cause {
    Cause {
        word: granted_on(s, offers, n),
        ..figures(0, 1, 0, 0)
    }
}

// A number as a figure; 17 for none, which comes with no verdict 2 or 6.
fn figure(n: Option<usize>) -> u64 {
    n.unwrap_or(17) as u64
}

// Loose, and the lowest domain waiting on claim.
fn blocked_cause(s: &[u64], offers: &[u8]) -> Cause {
    let period = cells::get(s, 0, cells::PERIOD);
    let less = verdict::taken_off(s);
    let lowest = figure(verdict::lowest_waiting(s, offers));
    Cause {
        below: period < less,
        ..figures(0, 6, period.abs_diff(less), lowest)
    }
}

// The cause of a number's verdict in a slot that is decided.
fn decided_cause(s: &mut [u64], offers: &[u8], n: usize) -> Cause
    requires { n < 17 }
{
    let chosen = verdict::granted(s, offers);
    let mut verdicts = [0u8; 17];
    verdict::put_verdicts(s, offers, chosen, &mut verdicts);
    match verdicts[n] {
        1 => granted_cause(s, offers, n),
        2 => figures(0, 2, figure(chosen), 0),
        3 => figures(0, 3, cells::get(s, n, cells::W), 0),
        4 => figures(0, 4, cells::get(s, n, cells::R), 0),
        5 => figures(
            0,
            5,
            cells::total(s, cells::YIELDED),
            cells::total(s, cells::RECLAIMED),
        ),
        6 => blocked_cause(s, offers),
        _ => figures(0, 0, 0, 0),
    }
}

// The cause of a number's verdict in the slot that these offers would make of a state. Where the number is granted the slot is
// entered into the state's words; no period is closed.
pub fn explain(s: &mut [u64], offers: &[u8], number: u64) -> Cause {
    match asked(s, offers, number) {
        Ok(n) => Cause {
            offered: if n == 0 { 0 } else { verdict::offer(offers, n) },
            ..decided_cause(s, offers, n)
        },
        Err(refused) => figures(refused, 0, 0, 0),
    }
}

// The sort of a grant, by its word and what was offered.
fn granted_sort(c: Cause) -> usize {
    match (c.word, c.offered) {
        (CLAIM, 2) => 3,
        (CLAIM, _) => 2,
        (STOCK, _) => 4,
        (_, 0) => 6,
        _ => 5,
    }
}

fn decided_sort(c: Cause) -> usize {
    match c.verdict {
        0 => 1,
        1 => granted_sort(c),
        2..=4 => usize::from(c.verdict) + 5,
        5 => if c.first == 0 { 10 } else { 11 },
        _ => if c.below { 13 } else { 12 },
    }
}

// The sort of a cause, from 1 to 22, by which the test programs count: verdict 0; the words of verdict 1; 2, 3 and 4; 5 without
// yields and with some; 6 with loose 0 and below; and the refusals 30 to 34, 61 to 63, and any other.
pub fn sort(c: Cause) -> usize {
    match c.number {
        0 => decided_sort(c),
        30..=34 => (c.number - 16) as usize,
        61..=63 => (c.number - 42) as usize,
        _ => 22,
    }
}
