// How the writeback reservations of plan values stand to the other numbers, and which refusals they draw, counted.
use super::seen;
use model_plans::{Told, words};
use plan::Plan;
use trial_kit::{counts, values};

// How a writeback reservation stands, in the order of the printed row.
#[derive(Clone, Copy)]
enum Stood {
    Zero,
    Below,
    AtCap,
    OneAbove,
    Above,
    AbovePeriod,
}

// The refusals that `telling` is of. They stand behind the ways of a reservation in the row, of which there are six.
#[derive(Clone, Copy)]
enum Tells {
    Nine,
    Eleven,
    Ten,
}

const STANDINGS: usize = 6;

fn standing(v: u32, w: u32, period: u32) -> Stood {
    match v {
        0 => Stood::Zero,
        _ if v > period => Stood::AbovePeriod,
        _ if v < w => Stood::Below,
        _ if v == w => Stood::AtCap,
        _ if v - w == 1 => Stood::OneAbove,
        _ => Stood::Above,
    }
}

// Counts those of the planned domains.
fn count_domains(domains: [u32; 96], period: u32, seen: &mut [u32]) {
    for n in 1..17 {
        let v = words::word(domains, n, 4);
        let at = standing(v, words::word(domains, n, 3), period);
        counts::raise(seen, seen::WRITES + at as usize, words::word(domains, n, 0));
    }
}

// The sum of Q.
fn reserved(domains: [u32; 96]) -> u64 {
    (1..17).fold(
        0,
        |sum, n| u64::from(words::word(domains, n, 1)).wrapping_add(sum),
    )
}

// The lowest domain whose writeback reservation is above W.
fn first_above(domains: [u32; 96]) -> Option<u32> {
    (1..17).find(|&n| words::word(domains, n, 4) > words::word(domains, n, 3))
}

// Whether a refusal is one that another reading of the rules would not tell, and which.
fn telling(t: Told, domains: [u32; 96], period: u32) -> Option<Tells> {
    match t.number {
        9 => first_above(domains)
            .is_some_and(|n| n < t.place)
            .then_some(Tells::Nine),
        11 => (words::word(domains, t.place, 4) <= period).then_some(Tells::Eleven),
        10 => (reserved(domains) <= u64::from(period)).then_some(Tells::Ten),
        _ => None,
    }
}

// Counts a plan value.
pub fn count_value(p: Plan, seen: &mut [u32]) {
    let domains = values::words(p);
    let period = u32::from(p.period);
    count_domains(domains, period, seen);
    if let Some(at) = telling(model_plans::check(period, domains), domains, period) {
        counts::raise(seen, seen::WRITES + STANDINGS + at as usize, 1);
    }
}
