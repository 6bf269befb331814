// Plans held as values: their words, and drawn ones.
ghost use Rattle.std.specs.Prelude.{◌<◌};

use super::draw;
use plan::Plan;

// How a plan is drawn: any that is accepted, sixteen domains whose reservations of both kinds sum to P, sixteen of 4,096 each,
// one with large reservations that is accepted, or sixteen domains whose reservations mostly come to more than P.
#[derive(Clone, Copy, PartialEq, Eq)]
pub enum Kind {
    Good,
    Whole,
    Full,
    Large,
    Over,
}

// The low two bytes of a number.
pub fn narrow(x: u64) -> u16 {
    (x % 65536) as u16
}

// Word k of a plan as the model has it: at 6 * (n - 1) present, Q, R, W, the writeback reservation V and the mark of domain n.
pub fn word(p: Plan, k: u32) -> u32 {
    let i = (k / 6 % 16) as usize;
    match k % 6 {
        0 => u32::from(p.planned[i]),
        1 => u32::from(p.reservation[i]),
        2 => u32::from(p.reclaimcap[i]),
        3 => u32::from(p.writebackcap[i]),
        4 => u32::from(p.writebackreservation[i]),
        _ => u32::from(p.marked[i]),
    }
}

// The plan with word k put to a value.
pub fn with_word(p: Plan, k: u32, value: u32) -> Plan {
    let mut after = p;
    let i = (k / 6 % 16) as usize;
    match k % 6 {
        0 => after.planned[i] = value != 0,
        1 => after.reservation[i] = narrow(u64::from(value)),
        2 => after.reclaimcap[i] = narrow(u64::from(value)),
        3 => after.writebackcap[i] = narrow(u64::from(value)),
        4 => after.writebackreservation[i] = narrow(u64::from(value)),
        _ => after.marked[i] = value != 0,
    }
    after
}

// The plan with the mark of domain n + 1 put to yes or no.
pub fn with_mark(p: Plan, n: u32, mark: bool) -> Plan {
    with_word(p, n % 16 * 6 + 5, u32::from(mark))
}

pub fn with_period(p: Plan, period: u32) -> Plan {
    let mut after = p;
    after.period = narrow(u64::from(period));
    after
}

pub fn words(p: Plan) -> [u32; 96] {
    let mut all = [0u32; 96];
    for k in 0..96 {
        all[k as usize] = word(p, k);
    }
    all
}

// The plan of this period and these words.
pub fn plan_of(period: u32, words: [u32; 96]) -> Plan {
    let mut p = with_period(plan::no_domains(0), period);
    for k in 0..96 {
        p = with_word(p, k, words[k as usize]);
    }
    p
}

// A number from 0 to the most given, often one of the ends.
fn amount(seed: u32, salt: u32, most: u32) -> u32 {
    match draw::draw(seed, salt) / 65536 % 4 {
        0 => 0,
        1 => most,
        _ => draw::upto(seed, salt, most),
    }
}

fn drawn_period(seed: u32, style: Kind) -> u32 {
    if style == Kind::Full {
        return 4096;
    }
    match draw::upto(seed, 1, 5) {
        0 => 4096,
        1 | 2 => 1 + draw::upto(seed, 2, 31),
        _ => 1 + draw::upto(seed, 2, 4095),
    }
}

// Whether a domain is left out: of plans of the styles Whole, Full and Over none is.
fn left_out(seed: u32, style: Kind, n: u32) -> bool {
    match style {
        Kind::Whole | Kind::Full | Kind::Over => false,
        _ => draw::upto(seed, n.wrapping_add(100), 3) < draw::upto(seed, 3, 4),
    }
}

// The most that is drawn for both reservations of a domain: in the style Kind::Over from a quarter of the period to all of it,
// whatever is left.
fn most_of(seed: u32, style: Kind, left: u32, period: u32) -> u32 {
    match style {
        Kind::Large => left,
        Kind::Over => period / (1 + draw::upto(seed, 90, 3)),
        _ => left / 4,
    }
}

// Both reservations of domain n + 1 together, where so much of the period is left.
fn share(seed: u32, style: Kind, n: u32, left: u32, period: u32) -> u32 {
    if style == Kind::Full {
        return 4096;
    }
    if style == Kind::Whole && n == 15 {
        return left;
    }
    amount(
        seed,
        n.wrapping_add(200),
        most_of(seed, style, left, period),
    )
}

// A plan while its domains are drawn, with what is left of its period.
#[derive(Clone, Copy)]
struct Draft {
    plan: Plan,
    left: u32,
}

// The plan with domain n + 1, of these numbers; its mark stays.
pub fn with_numbers(p: Plan, n: u32, q: u32, r: u32, w: u32, v: u32) -> Plan {
    let k = n % 16 * 6;
    let present = with_word(p, k, 1);
    let reserved = with_word(present, k + 1, q);
    let capped = with_word(reserved, k + 2, r);
    let written = with_word(capped, k + 3, w);
    with_word(written, k + 4, v)
}

// How much of a domain's reservations is for writebacks: at most the number given, often half of it, and nothing in every
// fourth plan.
fn part(seed: u32, n: u32, most: u32) -> u32 {
    if draw::upto(seed, 8, 3) == 0 {
        return 0;
    }
    if draw::upto(seed, n.wrapping_add(700), 2) == 0 {
        return most / 2;
    }
    amount(seed, n.wrapping_add(800), most)
}

// The plan with domain n + 1, of these numbers, where so much is for writebacks of what it reserves in all; in every fourth
// domain this is its W too.
fn with_share(p: Plan, n: u32, seed: u32, all: u32, r: u32, w: u32) -> Plan {
    let v = part(seed, n, w.min(all));
    let capped = draw::upto(seed, n.wrapping_add(900), 3) == 0;
    with_numbers(
        p,
        n,
        all.saturating_sub(v),
        r,
        if capped { v } else { w },
        v,
    )
}

// Whether a domain is marked: none is in every third plan, and all are in another third.
fn is_marked(seed: u32, n: u32) -> bool {
    match draw::upto(seed, 9, 2) {
        0 => false,
        1 => true,
        _ => draw::upto(seed, n.wrapping_add(1000), 1) == 0,
    }
}

fn with_domain(d: Draft, seed: u32, style: Kind, n: u32) -> Draft {
    if left_out(seed, style, n) {
        return d;
    }
    let left = d.left;
    let p = d.plan;
    let period = u32::from(p.period);
    let all = share(seed, style, n, left, period);
    let r = amount(seed, n.wrapping_add(300), period);
    let w = amount(seed, n.wrapping_add(400), period);
    Draft {
        plan: with_mark(with_share(p, n, seed, all, r, w), n, is_marked(seed, n)),
        left: left.saturating_sub(all),
    }
}

pub fn drawn(seed: u32, style: Kind) -> Plan {
    drawn_in(seed, style, drawn_period(seed, style))
}

// A plan of the period given.
pub fn drawn_in(seed: u32, style: Kind, period: u32) -> Plan {
    let start = with_period(plan::no_domains(0), period);
    let mut d = Draft {
        plan: start,
        left: period,
    };
    for n in 0..16 {
        d = with_domain(d, seed, style, n);
    }
    d.plan
}

// Sixteen domains whose reservations sum to P, to P + 1, or to 65,536.
pub fn summed(seed: u32, case: u32) -> Plan {
    match case % 3 {
        0 => drawn(seed, Kind::Whole),
        1 => with_one_more(
            drawn(seed, Kind::Whole),
            draw::upto(seed, 4, 15) * 6,
            case / 3,
        ),
        _ => drawn(seed, Kind::Full),
    }
}

// The plan with one more reserved by the domain whose words begin at k: its Q, or its V, and then its W where both are equal.
fn with_one_more(p: Plan, k: u32, way: u32) -> Plan
    requires { k < 96 }
{
    if way % 2 == 0 {
        return with_more(p, k + 1);
    }
    let written = with_more(p, k + 4);
    if word(p, k + 3) == word(p, k + 4) {
        with_more(written, k + 3)
    } else {
        written
    }
}

// The plan with word k raised by 1.
fn with_more(p: Plan, k: u32) -> Plan {
    with_word(p, k, word(p, k).wrapping_add(1))
}
