// The refusals of a domain to add, once the file is accepted.
ghost use Rattle.std.specs.Prelude.{◌≤◌, IfSome};

use super::Wanted;
use model_plans::{Answer, words};

// The number as a word, where it is one of 1 to 16.
pub fn domain_of(number: u64) -> Option<u32>
    ensures { IfSome result (λ n. n ≤ 16) }
{
    match number {
        1..=16 => Some(number as u32),
        _ => None,
    }
}

// Whether Q, R or W is above the period.
pub fn above(period: u64, q: u64, r: u64, w: u64) -> bool {
    q > period || r > period || w > period
}

// Whether two reservations more are above what is left of the period.
pub fn overfull(period: u64, reserved: u64, q: u64, v: u64) -> bool {
    let left = period.checked_sub(reserved);
    left.and_then(|left| left.checked_sub(q))
        .is_none_or(|left| v > left)
}

// 6 or 7, 9, then 11, then 10, and last 71 where no record is free.
pub fn check(a: Answer, d: Wanted, free: u32) -> Result<(), u32> {
    let domains = a.domains;
    let domain = domain_of(d.number).ok_or(6u32)?;
    if words::word(domains, domain, 0) != 0 {
        return Err(7);
    }
    check_amounts(a, d)?;
    if free == 0 { Err(71) } else { Ok(()) }
}

fn check_amounts(a: Answer, d: Wanted) -> Result<(), u32> {
    let domains = a.domains;
    let period = u64::from(a.period);
    let totals = words::count(a.period, domains);
    if above(period, d.q, d.r, d.w) {
        return Err(9);
    }
    if d.v > d.w {
        return Err(11);
    }
    if overfull(period, totals.reservations, d.q, d.v) {
        return Err(10);
    }
    Ok(())
}
