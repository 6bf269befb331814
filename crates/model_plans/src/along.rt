// The sums of both reservations that the walk along the chain tells: each question about them walks anew from record 0.
ghost use Rattle.std.specs.Prelude.{◌<◌, ◌≤◌};

use super::{chain, record};

// How many records the walk took, and the sum of both reservations after each of them in the chain's order, zeros behind. The
// count stands beside an array: a model has fixed memory.
#[derive(Clone, Copy, PartialEq, Eq)]
pub struct Sums {
    pub records: u32,
    pub told: [u32; 16],
}

// Whether the walk takes one more record after so many: the chain goes on, and no refusal of 4 to 9 or 11 stops it.
fn takes(file: &[u8], records: u32, period: u32) -> bool
    requires { records < 16 }
{
    let index = chain::nth(file, records + 1);
    index != 0 && chain::fault(file, records, index, period).is_none()
}

// How many records the walk takes. No seventeenth is taken: the sixteen domain numbers are met by then.
pub fn taken(file: &[u8], period: u32) -> u32
    ensures { result ≤ 16 }
{
    for records in 0..16 {
        if !takes(file, records, period) {
            return records;
        }
    }
    16
}

// Both reservations of a record.
fn both_of(file: &[u8], index: u32) -> u32
    ensures { result < 131072 }
{
    record::number(file, index, 4) + record::number(file, index, 10)
}

// The sum of Q and of the writeback reservation over the first records of the chain.
pub fn sum_after(file: &[u8], records: u32) -> u32
    requires { records ≤ 16 }
{
    let mut sum = 0;
    for k in 0..records {
        sum += both_of(file, chain::nth(file, k + 1));
    }
    sum
}

fn told(file: &[u8], records: u32) -> [u32; 16]
    requires { records ≤ 16 }
{
    let mut all = [0u32; 16];
    for k in 0..records {
        all[k as usize] = sum_after(file, k + 1);
    }
    all
}

// The sums of a file, also of one that is refused on the way; none where 1, 2 or 3 refuses it.
pub fn of_file(file: &[u8]) -> Sums {
    let records = record::opening(file).map_or(0, |period| taken(file, period));
    Sums {
        records,
        told: told(file, records),
    }
}
