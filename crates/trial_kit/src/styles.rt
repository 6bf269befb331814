// Plans of a kind.
use super::{draw, plans, values};
use plan::Plan;

// The kinds: accepted and refused values, P 1, P 2 to 40, P 4,096, no domains, sixteen domains, all Q zero, sums
// of both reservations equal to P, P 1 to 8, P 2 to 20 with no writeback reservations, as older plans have, P 2 to 16 with
// every domain marked, one to sixteen domains that may write back in every slot, P 1 to 3 with sixteen domains, and one to
// sixteen domains whose claims and caps are soon used up.
#[derive(Clone, Copy)]
pub enum Kind {
    Accepted,
    Refused,
    One,
    Small,
    Most,
    None,
    Sixteen,
    Unreserved,
    Whole,
    Least,
    Older,
    Marked,
    Crowded,
    Short,
    Tight,
}

// Plans with few large or with many small reservations.
fn mixed(seed: u32, period: u32) -> Plan {
    if draw::upto(seed, 5, 2) == 0 {
        values::drawn_in(seed, values::Kind::Good, period)
    } else {
        values::drawn_in(seed, values::Kind::Large, period)
    }
}

fn unreserved(p: Plan) -> Plan {
    let mut after = p;
    after.reservation = [0; 16];
    after
}

fn older(p: Plan) -> Plan {
    let mut after = p;
    after.writebackreservation = [0; 16];
    after
}

// The plan with each domain marked that it has.
fn marked(p: Plan) -> Plan {
    let mut after = p;
    let planned = p.planned;
    after.marked = planned;
    after
}

// P 1, where a reservation of 1, of either kind, is the whole period.
fn of_one_slot(seed: u32, case: u32) -> Plan {
    let without = older(unreserved(values::drawn_in(seed, values::Kind::Whole, 1)));
    let n = draw::upto(seed, 6, 15);
    match case % 3 {
        0 => mixed(seed, 1),
        1 => values::with_word(without, n * 6 + 1, 1),
        _ => values::with_numbers(without, n, 0, draw::upto(seed, 7, 1), 1, 1),
    }
}

// The plan with Q of domain 16, which has all that the others left, lowered to a number where it is above.
fn lowered(p: Plan, most: u32) -> Plan {
    if values::word(p, 91) > most {
        values::with_word(p, 91, most)
    } else {
        p
    }
}

// One to sixteen domains by the case, from a drawn number on, of this W, which reserve at most so much each.
fn writers(seed: u32, case: u32, period: u32, w: u32, most: u32) -> Plan {
    let domains = case % 16 + 1;
    let first = draw::upto(seed, 6, 15);
    let mut p = values::with_period(plan::no_domains(0), period);
    for n in 0..domains {
        p = with_writer(p, first + n, w, most, seed);
    }
    p
}

// Their W is P, and they reserve at most half of it, so that in most slots nearly all who offer pass.
fn crowded(seed: u32, case: u32) -> Plan {
    let period = 12 + draw::upto(seed, 4, 40);
    writers(seed, case, period, period, period / ((case % 16 + 1) * 2))
}

// Their W is 4, and so is the most of R and of what they reserve; P is 64 and more.
fn tight(seed: u32, case: u32) -> Plan {
    writers(seed, case, 64 + draw::upto(seed, 4, 60), 4, 4)
}

// The plan with a domain of this W, which reserves at most so much.
fn with_writer(p: Plan, n: u32, w: u32, most: u32, seed: u32) -> Plan {
    let drawn = draw::draw(seed, n.wrapping_add(100));
    let v = draw::upto(drawn, 1, most);
    let q = draw::upto(drawn, 2, most.saturating_sub(v));
    let numbered = values::with_numbers(p, n, q, draw::upto(drawn, 3, w), w, v);
    values::with_mark(numbered, n, draw::upto(drawn, 4, 3) == 0)
}

// A plan of the kind.
pub fn plan_of(kind: Kind, case: u32, seed: u32) -> Plan {
    match kind {
        Kind::Accepted => values::drawn(seed, values::Kind::Good),
        Kind::Refused => plans::made(case % 8, case / 8, seed),
        Kind::One => of_one_slot(seed, case),
        Kind::Small => mixed(seed, 2 + draw::upto(seed, 4, 38)),
        Kind::Most => mixed(seed, 4096),
        Kind::None => values::with_period(plan::no_domains(0), 1 + draw::upto(seed, 4, 11)),
        Kind::Sixteen => lowered(
            values::drawn_in(seed, values::Kind::Whole, 16 + draw::upto(seed, 4, 40)),
            draw::upto(seed, 6, 3),
        ),
        Kind::Unreserved => unreserved(mixed(seed, 2 + draw::upto(seed, 4, 20))),
        Kind::Whole => values::drawn_in(seed, values::Kind::Whole, 2 + draw::upto(seed, 4, 38)),
        Kind::Least => mixed(seed, 1 + draw::upto(seed, 4, 7)),
        Kind::Older => older(mixed(seed, 2 + draw::upto(seed, 4, 18))),
        Kind::Marked => marked(mixed(seed, 2 + draw::upto(seed, 4, 14))),
        Kind::Crowded => crowded(seed, case),
        Kind::Short => values::drawn_in(seed, values::Kind::Whole, 1 + case % 3),
        Kind::Tight => tight(seed, case),
    }
}
