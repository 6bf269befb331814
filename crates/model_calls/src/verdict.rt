// One slot's questions, each asked from scratch of the state's words and the offers.
ghost use Rattle.std.specs.Prelude.{◌<◌, ◌≤◌, IfSome};

use super::cells;

pub fn offer(offers: &[u8], n: usize) -> u8 {
    offers.get(n).copied().unwrap_or(0)
}

// What a domain has left of its claim on the kind that it offers; 0 where it offers none.
fn claim_offered(s: &[u64], offers: &[u8], n: usize) -> u64 {
    match offer(offers, n) {
        0 => 0,
        2 => cells::write_claim(s, n),
        _ => cells::get(s, n, cells::CLAIM),
    }
}

// The lowest domain that is waiting on claim.
pub fn lowest_waiting(s: &[u64], offers: &[u8]) -> Option<usize>
    ensures { IfSome result (λ n. n ≤ 16) }
{
    (1..17).find(|&n| claim_offered(s, offers, n) > 0)
}

// The slots decided and all claims of both kinds together: loose is the period less these.
pub fn taken_off(s: &[u64]) -> u64 {
    let claims = cells::total(s, cells::CLAIM) + cells::total(s, cells::WRITECLAIM);
    cells::get(s, 0, cells::DECIDED) + claims
}

// Whether loose is at most 0 while some domain is waiting on claim.
fn blocked(s: &[u64], offers: &[u8]) -> bool {
    cells::get(s, 0, cells::PERIOD) <= taken_off(s) && lowest_waiting(s, offers).is_some()
}

// The verdict of a number before anybody is granted, where those without claim are blocked or not: 2 for each that passes.
fn ruling(s: &[u64], offers: &[u8], n: usize, shut: bool) -> u8 {
    if offer(offers, n) == 0 {
        return 0;
    }
    if n > 0 {
        if claim_offered(s, offers, n) > 0 {
            return 2;
        }
        if let Some(stopped) = stop(s, n, offer(offers, n) == 2) {
            return stopped;
        }
    }
    if shut { 6 } else { 2 }
}

// What stops a domain that has no claim on the kind it offers: 3 a writeback at W, and 4 or 5 an access alone.
// No writeback at W has claim left, for V is at most W.
fn stop(s: &[u64], n: usize, writes: bool) -> Option<u8> {
    if writes {
        return (cells::get(s, n, cells::WRITEBACKS) == cells::get(s, n, cells::W)).then_some(3);
    }
    if cells::get(s, n, cells::RECLAIMED) == cells::get(s, n, cells::R) {
        return Some(4);
    }
    (cells::get(s, 0, cells::STOCK) == 0).then_some(5)
}

// The number whose turn it is.
fn turn(s: &[u64]) -> usize
    ensures { result < 17 }
{
    (cells::get(s, 0, cells::TURN) % 17) as usize
}

// Of the numbers that pass, the one that comes soonest from the turn on.
pub fn granted(s: &[u64], offers: &[u8]) -> Option<usize>
    ensures { IfSome result (λ n. n ≤ 16) }
{
    let shut = blocked(s, offers);
    let first = turn(s);
    (0..17)
        .filter(|&n| ruling(s, offers, n, shut) == 2)
        .map(|n: usize| n.wrapping_add(17 - first) % 17)
        .min()
        .map(|distance| first.wrapping_add(distance) % 17)
}

// How many numbers, from the turn on, were asked before the one granted: all seventeen where nobody is.
pub fn steps(s: &[u64], chosen: Option<usize>) -> u32 {
    let first = turn(s);
    match chosen {
        Some(n) => (n.wrapping_add(17 - first) % 17) as u32,
        None => 17,
    }
}

// Puts the verdicts of all numbers, where one of them, or nobody, is granted.
pub fn put_verdicts(s: &[u64], offers: &[u8], chosen: Option<usize>, verdicts: &mut [u8]) {
    let shut = blocked(s, offers);
    for (n, verdict) in verdicts.iter_mut().enumerate() {
        *verdict = ruling(s, offers, n, shut);
    }
    if let Some(n) = chosen
        && n < verdicts.len()
    {
        verdicts[n] = 1;
    }
}
