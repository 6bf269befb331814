// A second implementation of plans, made plain and slow to compare the library with. A plan is a period and flat words: those
// of domain n (1 to 16) stand at 6 * (n - 1): present (0 or 1), reservation Q, reclaim cap R, writeback cap W, the writeback
// reservation, here called V, and its mark (0 or 1).
#![tactic(auto)]

mod along;
pub mod chain;
mod layout;
pub mod record;
pub mod words;

pub use along::Sums;
use words::Totals;

// What reading a file tells: number 0 where it is accepted; on a refusal the period and all words are 0. Refusals stay the
// document's numbers here and in all answers of the models: the tests compare and count them as numbers.
#[derive(Clone, Copy, PartialEq, Eq)]
pub struct Answer {
    pub number: u32,
    pub place: u32,
    pub period: u32,
    pub domains: [u32; 96],
}

// What checking or writing a plan held as words tells; a refusal, which is a number as in `Answer`, has 0 bytes.
#[derive(Clone, Copy, PartialEq, Eq)]
pub struct Told {
    pub number: u32,
    pub place: u32,
    pub bytes: u32,
}

// A refusal by its number, and its place, or 0.
#[derive(Clone, Copy, Debug, PartialEq, Eq)]
pub struct Refusal {
    pub number: u32,
    pub place: u32,
}

// A refusal that is about no record.
impl From<u32> for Refusal {
    fn from(number: u32) -> Refusal {
        Refusal { number, place: 0 }
    }
}

// A plan that is held as words.
#[derive(Clone, Copy)]
struct Held {
    period: u32,
    domains: [u32; 96],
}

fn refuse<T>(number: u32, place: u32) -> Result<T, Refusal> {
    Err(Refusal { number, place })
}

fn answer_of(read: Result<Held, Refusal>) -> Answer {
    match read {
        Ok(plan) => {
            let domains = plan.domains;
            Answer {
                number: 0,
                place: 0,
                period: plan.period,
                domains,
            }
        }
        Err(Refusal { number, place }) => Answer {
            number,
            place,
            period: 0,
            domains: [0; 96],
        },
    }
}

fn held_with_leftovers(file: &[u8]) -> Result<Held, Refusal> {
    let period = record::opening(file)?;
    let domains = chain::walk(file, period)?;
    // The chain is at its end: the last sum decides.
    if along::sum_after(file, along::taken(file, period)) > period {
        return refuse(10, 0);
    }
    Ok(Held { period, domains })
}

fn read_held(file: &[u8]) -> Result<Held, Refusal> {
    let held = held_with_leftovers(file)?;
    match chain::lowest_leftover(file, along::taken(file, held.period)) {
        Some(leftover) => refuse(12, leftover),
        None => Ok(held),
    }
}

// Reading by the rule of before leftovers were refused: what stands in a record off the chain is not looked at.
pub fn read_with_leftovers(file: &[u8]) -> Answer {
    answer_of(held_with_leftovers(file))
}

pub fn read(file: &[u8]) -> Answer {
    answer_of(read_held(file))
}

// What the walk along the chain of a file tells.
pub fn sums(file: &[u8]) -> Sums {
    along::of_file(file)
}

// The rules of a plan held as a value, on what its domains come to.
fn accepted(period: u32, totals: Totals) -> Result<(), Refusal> {
    if period == 0 || period > 4096 {
        return refuse(2, 0);
    }
    if let Some(domain) = totals.lowest_bad {
        return refuse(9, domain);
    }
    if let Some(domain) = totals.lowest_above {
        return refuse(11, domain);
    }
    if totals.reservations > u64::from(period) {
        return refuse(10, 0);
    }
    Ok(())
}

// The bytes that are put into the buffer.
fn written(period: u32, domains: [u32; 96], buffer: &mut [u8]) -> Result<u32, Refusal> {
    let totals = words::count(period, domains);
    accepted(period, totals)?;
    let bytes = 16 * (1 + totals.present);
    if layout::put_all(period, domains, bytes, buffer) {
        Ok(bytes)
    } else {
        refuse(51, 0)
    }
}

fn told_of(outcome: Result<u32, Refusal>) -> Told {
    match outcome {
        Ok(bytes) => Told {
            number: 0,
            place: 0,
            bytes,
        },
        Err(Refusal { number, place }) => Told {
            number,
            place,
            bytes: 0,
        },
    }
}

// Checking tells no bytes.
pub fn check(period: u32, domains: [u32; 96]) -> Told {
    let totals = words::count(period, domains);
    told_of(accepted(period, totals).map(|_| 0))
}

pub fn write(period: u32, domains: [u32; 96], buffer: &mut [u8]) -> Told {
    told_of(written(period, domains, buffer))
}
