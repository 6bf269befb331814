// Plan values made from drawn ones: accepted, damaged, with several faults, of any period, and refused with a given number.
use super::{draw, values};
use plan::Plan;

// A value for a word that may come up to a number: that number, one more, 0, or any.
fn wrong(seed: u32, salt: u32, most: u32) -> u32 {
    match draw::upto(seed, salt, 3) {
        0 => most,
        1 => most.wrapping_add(1),
        2 => 0,
        _ => draw::upto(seed, salt.wrapping_add(1), 65535),
    }
}

// One of Q, R, W and V of one domain put to such a value, of which P is the most, and for V the domain's W.
fn damaged(p: Plan, seed: u32, salt: u32) -> Plan {
    let which = draw::upto(seed, salt, 63);
    let k = which / 4 * 6 + which % 4 + 1;
    let most = if which % 4 == 3 {
        values::word(p, k - 1)
    } else {
        u32::from(p.period)
    };
    values::with_word(p, k, wrong(seed, salt.wrapping_add(1), most))
}

// A domain made absent, and one of its numbers put above zero, or its mark to yes.
fn absent(p: Plan, seed: u32) -> Plan {
    let k = draw::upto(seed, 20, 15) * 6;
    let without = values::with_word(p, k, 0);
    values::with_word(
        without,
        k + 1 + draw::upto(seed, 21, 4),
        1 + draw::upto(seed, 22, 65534),
    )
}

fn several(p: Plan, seed: u32) -> Plan {
    let one = damaged(p, seed, 30);
    let two = damaged(one, seed, 40);
    if draw::upto(seed, 50, 1) == 0 {
        return two;
    }
    let three = absent(two, seed);
    if draw::upto(seed, 51, 3) == 0 {
        periods(three, draw::draw(seed, 52), seed)
    } else {
        three
    }
}

fn periods(p: Plan, case: u32, seed: u32) -> Plan {
    match case % 6 {
        0 => values::with_period(p, 0),
        1 => values::with_period(p, 1),
        2 => values::with_period(p, 4096),
        3 => values::with_period(p, 4097),
        4 => values::with_period(p, 65535),
        _ => values::with_period(p, draw::upto(seed, 60, 65535)),
    }
}

// A period out of range.
fn no_period(seed: u32) -> u32 {
    match draw::upto(seed, 70, 3) {
        0 => 0,
        1 => 4097,
        2 => 65535,
        _ => 4097 + draw::upto(seed, 71, 61438),
    }
}

// One of Q, R and W of a domain that is planned put just above P, or to the most that it holds.
fn above(p: Plan, domain: u32, seed: u32) -> Plan {
    let k = domain % 16 * 6;
    let value = if draw::upto(seed, 72, 1) == 0 {
        65535
    } else {
        u32::from(p.period) + 1
    };
    let present = values::with_word(p, k, 1);
    values::with_word(present, k + 1 + draw::upto(seed, 73, 2), value)
}

// V of a domain that is planned put just above its W, to P + 1, or to the most that it holds.
fn above_cap(p: Plan, domain: u32, seed: u32) -> Plan {
    let k = domain % 16 * 6;
    let value = match draw::upto(seed, 75, 3) {
        0 => 65535,
        1 => u32::from(p.period) + 1,
        _ => values::word(p, k + 3).wrapping_add(1),
    };
    values::with_word(values::with_word(p, k, 1), k + 4, value)
}

// The plan without a domain.
pub fn without(p: Plan, domain: u32) -> Plan {
    let zeros = values::with_numbers(p, domain, 0, 0, 0, 0);
    values::with_word(values::with_mark(zeros, domain, false), domain % 16 * 6, 0)
}

// The plan without a domain, whose mark alone is left.
fn mark_left(p: Plan, domain: u32) -> Plan {
    values::with_mark(without(p, domain), domain, true)
}

// The same for each domain in turn, and now and then with another fault too.
fn marks_left(p: Plan, case: u32, seed: u32) -> Plan {
    let left = mark_left(p, case);
    match draw::upto(seed, 64, 7) {
        0 => damaged(left, seed, 65),
        1 => above_cap(left, draw::upto(seed, 68, 15), seed),
        2 => mark_left(left, draw::upto(seed, 68, 15)),
        _ => left,
    }
}

// A plan, accepted before, that is refused with 2 (way 0), with 9 for a planned domain (1), for an absent one (2) or for the
// mark of such a one (4), with 11 (3), or else with 10, of Q alone or of one Q and one V.
pub fn spoiled(p: Plan, way: u32, seed: u32) -> Plan {
    let n = draw::upto(seed, 74, 14);
    let period = u32::from(p.period);
    match way {
        0 => values::with_period(p, no_period(seed)),
        1 => above(p, n, seed),
        2 => absent(p, seed),
        3 => above_cap(p, n, seed),
        4 => mark_left(p, n),
        _ => {
            let one = draw::upto(seed, 76, 1);
            let whole = values::with_numbers(p, n, period, 0, period, 0);
            values::with_numbers(whole, n + 1, one, period, 1, 1 - one)
        }
    }
}

// A domain of each number in turn, planned with Q 0 and with V of 0, W, one more, P + 1 or the most that it holds; now and
// then with another fault too.
fn reserved_writebacks(p: Plan, case: u32, seed: u32) -> Plan {
    let period = u32::from(p.period);
    let w = draw::upto(seed, 77, period);
    let v = match case % 5 {
        0 => 0,
        1 => w,
        2 => w + 1,
        3 => period + 1,
        _ => 65535,
    };
    let with = values::with_numbers(p, case / 5, 0, 0, w, v);
    if draw::upto(seed, 78, 3) == 0 {
        damaged(with, seed, 79)
    } else {
        with
    }
}

// A plan that is damaged in one number (0), has a number in an absent domain (1), several faults (2), sums of both
// reservations around P and 65,536 (3), any period (4), V around W (6), or the mark of an absent domain (7), or else is
// accepted. The ways are numbers, since callers count through them.
pub fn made(way: u32, case: u32, seed: u32) -> Plan {
    let good = values::drawn(seed, values::Kind::Good);
    match way {
        0 => damaged(good, seed, 20),
        1 => absent(good, seed),
        2 => several(good, seed),
        3 => values::summed(seed, case),
        4 => periods(good, case, seed),
        6 => reserved_writebacks(good, case, seed),
        7 => marks_left(good, case, seed),
        _ => good,
    }
}
