// The calls of a regulator whose state is lent as flat words and changed in place.
use super::{cells, forecast, sums, verdict, waiting};

// What a slot call tells beside verdicts and counts: its refusal, or 0, and the numbers asked before the one granted, 0 where
// it is refused. Refusals stay the document's numbers here and in all answers of this crate: the tests compare and count them as
// numbers.
#[derive(Clone, Copy)]
pub struct Decision {
    pub number: u32,
    pub steps: u32,
}

// Opens a plan: its state, or all zeros where it is refused.
pub fn open(period: u32, domains: [u32; 96], s: &mut [u64]) -> model_plans::Told {
    let told = model_plans::check(period, domains);
    cells::clear(s);
    if told.number != 0 {
        return told;
    }
    cells::put_plan(s, 0, period, domains);
    cells::start_period(s);
    told
}

// 30 or 34.
fn check_state(s: &[u64]) -> Result<(), u32> {
    if !sums::adds_up(s) {
        return Err(30);
    }
    if cells::get(s, 0, cells::CLOSED) == u64::from(u32::MAX) {
        return Err(34);
    }
    Ok(())
}

// Whether a domain that is not planned offers.
fn unplanned(s: &[u64], offers: &[u8], n: usize) -> bool {
    cells::get(s, n, cells::PRESENT) == 0 && verdict::offer(offers, n) != 0
}

// 30, 34, 31, 32 or 33.
pub fn check_slot(s: &[u64], offers: &[u8], lent: usize) -> Result<(), u32> {
    check_state(s)?;
    if offers.len() != 17 || lent != 17 {
        return Err(31);
    }
    if offers.iter().any(|&offer| offer > 2) {
        return Err(32);
    }
    if (1..17).any(|n| unplanned(s, offers, n)) {
        return Err(33);
    }
    Ok(())
}

// A domain's writeback: its writeback claim is what its writebacks leave of V.
fn write_back(s: &mut [u64], n: usize) {
    cells::add(s, n, cells::WRITEBACKS, 1);
    let left = cells::write_claim(s, n);
    cells::put(s, n, cells::WRITECLAIM, left);
}

// A domain's access, on its claim or else from the stock.
fn access(s: &mut [u64], n: usize) {
    if cells::get(s, n, cells::CLAIM) > 0 {
        cells::take(s, n, cells::CLAIM, 1);
        cells::add(s, n, cells::RESERVED, 1);
    } else {
        cells::take(s, 0, cells::STOCK, 1);
        cells::add(s, n, cells::RECLAIMED, 1);
    }
}

// Enters the granted number, or the idle slot.
pub fn enter(s: &mut [u64], offers: &[u8], chosen: Option<usize>) {
    cells::add(s, 0, cells::DECIDED, 1);
    let Some(n) = chosen else {
        cells::add(s, 0, cells::IDLE, 1);
        return;
    };
    cells::put(s, 0, cells::TURN, (n as u64).wrapping_add(1) % 17);
    if n == 0 {
        cells::add(s, 0, cells::BEST, 1);
    } else if verdict::offer(offers, n) == 2 {
        write_back(s, n);
    } else {
        access(s, n);
    }
}

// Puts a domain's counts; reserved is told from what is left over.
fn put_domain_counts(s: &[u64], counts: &mut [u64], n: usize) {
    let yielded = cells::get(s, n, cells::YIELDED);
    let used = cells::get(s, n, cells::Q).saturating_sub(cells::get(s, n, cells::CLAIM));
    cells::put(counts, n, cells::RESERVED, used.saturating_sub(yielded));
    for column in [cells::RECLAIMED, cells::YIELDED, cells::WRITEBACKS] {
        cells::put(counts, n, column, cells::get(s, n, column));
    }
}

// Puts the counts of a period whose slots are all decided; idle is told from what is left over.
fn put_counts(s: &[u64], counts: &mut [u64]) {
    let accesses = cells::total(s, cells::RESERVED) + cells::total(s, cells::RECLAIMED);
    let passes = accesses + cells::total(s, cells::WRITEBACKS);
    let best = cells::get(s, 0, cells::BEST);
    let others = cells::get(s, 0, cells::PERIOD).saturating_sub(passes);
    cells::put(counts, 0, cells::BEST, best);
    cells::put(counts, 0, cells::IDLE, others.saturating_sub(best));
    cells::put(counts, 0, cells::STEPS, cells::get(s, 0, cells::STEPS));
    for n in 1..17 {
        put_domain_counts(s, counts, n);
    }
}

// Decides a slot, and tells how many numbers were passed by.
fn decide(s: &mut [u64], offers: &[u8], verdicts: &mut [u8]) -> u32 {
    let chosen = verdict::granted(s, offers);
    let steps = verdict::steps(s, chosen);
    verdict::put_verdicts(s, offers, chosen, verdicts);
    enter(s, offers, chosen);
    cells::add(s, 0, cells::STEPS, u64::from(steps));
    steps
}

// Leaves each domain its need as its claim; the rest of Q is yielded, and is the stock.
fn foresee(s: &mut [u64]) {
    for n in 1..17 {
        let need = forecast::need(s, n);
        let rest = cells::get(s, n, cells::Q).saturating_sub(need);
        cells::put(s, n, cells::CLAIM, need);
        cells::put(s, n, cells::YIELDED, rest);
    }
    let stock = cells::total(s, cells::YIELDED);
    cells::put(s, 0, cells::STOCK, stock);
}

// Closes a period: puts its counts, and starts the next, of the plan that waits if there is one.
fn close(s: &mut [u64], counts: &mut [u64]) {
    put_counts(s, counts);
    cells::add(s, 0, cells::CLOSED, 1);
    forecast::learn(s);
    waiting::take_force(s);
    cells::start_period(s);
    foresee(s);
}

// Decides a slot, or tells its refusal. The counts are all 0 where none are told.
pub fn slot(s: &mut [u64], offers: &[u8], verdicts: &mut [u8], counts: &mut [u64]) -> Decision {
    cells::clear(counts);
    if let Err(number) = check_slot(s, offers, verdicts.len()) {
        return Decision { number, steps: 0 };
    }
    let steps = decide(s, offers, verdicts);
    if cells::get(s, 0, cells::DECIDED) >= cells::get(s, 0, cells::PERIOD) {
        close(s, counts);
    }
    Decision { number: 0, steps }
}

// The domain that yields, or 30, 34, 21, 22 or 23.
fn yielding(s: &[u64], domain: u64, k: u64) -> Result<usize, u32> {
    check_state(s)?;
    if domain == 0 || domain > 16 {
        return Err(21);
    }
    let n = domain as usize;
    if cells::get(s, n, cells::PRESENT) == 0 {
        return Err(21);
    }
    if k == 0 {
        return Err(22);
    }
    if k > cells::get(s, n, cells::CLAIM) {
        return Err(23);
    }
    Ok(n)
}

// Takes a yield, or tells its refusal, else 0.
pub fn take_yield(s: &mut [u64], domain: u64, k: u64) -> u32 {
    match yielding(s, domain, k) {
        Ok(n) => {
            cells::take(s, n, cells::CLAIM, k);
            cells::add(s, n, cells::YIELDED, k);
            cells::add(s, 0, cells::STOCK, k);
            0
        }
        Err(number) => number,
    }
}

// Takes a plan that is handed in, or tells its refusal.
pub fn hand_in(s: &mut [u64], period: u32, domains: [u32; 96]) -> model_plans::Told {
    if let Err(number) = check_state(s) {
        return model_plans::Told {
            number,
            place: 0,
            bytes: 0,
        };
    }
    let told = model_plans::check(period, domains);
    if told.number != 0 {
        return told;
    }
    waiting::put_waiting(s, period, domains);
    told
}
