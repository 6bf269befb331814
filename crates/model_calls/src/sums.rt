// Whether a state adds up, recomputed by plain addition.
ghost use Rattle.std.specs.Prelude.{◌<◌};

use super::{cells, waiting};

// Whether a domain's own numbers fit each other, and it is marked where it has an estimate; the numbers of an absent one, whose
// caps and reservations are 0 and which has no mark, are then all 0.
fn domain_fits(s: &[u64], n: usize) -> bool {
    let used = cells::get(s, n, cells::RESERVED) + cells::get(s, n, cells::YIELDED);
    if cells::get(s, n, cells::CLAIM) + used != cells::get(s, n, cells::Q) {
        return false;
    }
    if cells::get(s, n, cells::RECLAIMED) > cells::get(s, n, cells::R) {
        return false;
    }
    if cells::get(s, n, cells::WRITEBACKS) > cells::get(s, n, cells::W) {
        return false;
    }
    if cells::get(s, n, cells::MARK) == 0 && cells::get(s, n, cells::KIND) != 0 {
        return false;
    }
    cells::get(s, n, cells::WRITECLAIM) == cells::write_claim(s, n)
}

fn domains_fit(s: &[u64]) -> bool {
    (1..17).all(|n| domain_fits(s, n))
}

// Whether the running sum is one that so many idle slots, 17 each, and so many passes, up to 16 each, can come to.
fn steps_fit(s: &[u64], passes: u64) -> bool
    requires { passes < 1099511627776 }
{
    let steps = cells::get(s, 0, cells::STEPS);
    let least = 17 * cells::get(s, 0, cells::IDLE);
    steps >= least && steps <= least + 16 * passes
}

pub fn adds_up(s: &[u64]) -> bool {
    let period = cells::get(s, 0, cells::PERIOD);
    let decided = cells::get(s, 0, cells::DECIDED);
    let reclaimed = cells::total(s, cells::RECLAIMED);
    let accesses = cells::total(s, cells::RESERVED) + reclaimed;
    let passes = cells::get(s, 0, cells::BEST) + accesses + cells::total(s, cells::WRITEBACKS);
    if decided >= period {
        return false;
    }
    if cells::get(s, 0, cells::TURN) > 16 {
        return false;
    }
    if cells::get(s, 0, cells::STOCK) + reclaimed != cells::total(s, cells::YIELDED) {
        return false;
    }
    if cells::get(s, 0, cells::IDLE) + passes != decided {
        return false;
    }
    steps_fit(s, passes) && domains_fit(s) && waiting::plans_fit(s)
}
