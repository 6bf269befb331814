// What marked domains foresee of a period: estimates, and the need that each leaves. A state and the ledger's page keep them
// alike: in column KIND 0 for none, 1 for a number, whose bits stand in BITS, and 2 for a NaN.
use super::{cells, floats};

// The estimate of a domain, if it has one.
fn estimate(s: &[u64], n: usize) -> Option<f64> {
    match cells::get(s, n, cells::KIND) {
        0 => None,
        floats::NUMBER => Some(floats::float_of(cells::whole(s, n, cells::BITS))),
        _ => Some(f64::NAN),
    }
}

fn put_estimate(s: &mut [u64], n: usize, z: f64) {
    let sorted = floats::bits_of(z);
    cells::put(s, n, cells::KIND, sorted.kind);
    cells::put(s, n, cells::BITS, sorted.bits);
}

// The old estimate and a quarter of what the passes are above it: three operations, each rounded once.
fn moved(z: f64, passes: f64) -> f64 {
    let above = passes - z;
    let quarter = above / 4.0;
    z + quarter
}

// A marked domain's estimate after the accesses of a period that is closed.
fn learn_one(s: &mut [u64], n: usize) {
    if cells::get(s, n, cells::MARK) == 0 {
        return;
    }
    let accesses = cells::get(s, n, cells::RESERVED) + cells::get(s, n, cells::RECLAIMED);
    let passes = std::num::nearest_u64_to_f64(accesses);
    let next = estimate(s, n).map_or(passes, |z| moved(z, passes));
    put_estimate(s, n, next);
}

// The estimates after a period whose words still stand.
pub fn learn(s: &mut [u64]) {
    for n in 1..17 {
        learn_one(s, n);
    }
}

// The smallest whole number from 0 to the most that is at or above a float, or else the most. What is left is halved: where a
// number is at or above the float, so is every larger one.
pub fn least_above(z: f64, most: u64) -> u64 {
    let mut low: u64 = 0;
    let mut high = most;
    // A search by halves counts no index.
    while low < high {
        let middle = low + (high - low) / 2;
        if std::num::nearest_u64_to_f64(middle) >= z {
            high = middle;
        } else {
            low = middle + 1;
        }
    }
    low
}

// What a domain needs of its Q: all of it where it has no estimate.
pub fn need(s: &[u64], n: usize) -> u64 {
    let quota = cells::get(s, n, cells::Q);
    estimate(s, n).map_or(quota, |z| least_above(z, quota))
}
