// How much of a chain a rescue leaves, where neither 1, 2 nor 3 refuses the file.
ghost use Rattle.std.specs.Prelude.{◌<◌};

use super::chain;
use model_plans::record;

// Both reservations of a record.
fn both_of(file: &[u8], index: u32) -> u64
    ensures { result < 131072 }
{
    u64::from(record::number(file, index, 4) + record::number(file, index, 10))
}

fn is_above(file: &[u8], records: u32) -> bool {
    let mut sum: u64 = 0;
    for k in 0..records {
        sum += both_of(file, chain::nth(file, k + 1));
    }
    sum > u64::from(record::number(file, 0, 0))
}

// The records that the walk takes before 4 to 9 or 11 stops it, or the chain's end: their last link is the one whose following
// is refused. Of these the last falls as long as those left reserve more than the period.
pub fn kept(file: &[u8]) -> u32 {
    let records = chain::records(file);
    (0..=records)
        .rev()
        .find(|&left| left == 0 || !is_above(file, left))
        .unwrap_or(0)
}
