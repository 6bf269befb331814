// States and slot calls in which a chosen set of numbers passes, with a chosen turn: every turn, and sets of every size.
ghost use Rattle.std.specs.Prelude.{◌<◌, ◌≤◌};

use super::calls::{Asks, Call};
use model_calls::cells;
use trial_kit::{draw, lines};

// The first kind of such states. The ways, a kind each: loose is above 0, without stock (0) and with stock to reclaim (1); loose
// is at most 0, while others wait on claim (2) and while nobody does (3).
pub const KIND: u32 = 33;

const BLOCKED: u32 = 2;

// A way, a turn, the size of a set, and the number drawn for all else.
#[derive(Clone, Copy)]
pub struct Passing {
    pub way: u32,
    pub turn: usize,
    pub size: u32,
    pub seed: u32,
}

// Each turn with each size; while others wait, a set has one domain or more and no best effort.
pub fn of_case(kind: u32, case: u32, seed: u32) -> Passing {
    let way = kind.wrapping_sub(KIND) % 4;
    let size = if way == BLOCKED {
        1 + case % 16
    } else {
        case % 18
    };
    Passing {
        way,
        turn: (case / 18 % 17) as usize,
        size,
        seed,
    }
}

// The numbers that are to pass, drawn.
pub fn set(p: Passing) -> [bool; 17] {
    let best = p.way != BLOCKED && draw::upto(p.seed, 400, 16) < p.size;
    let domains = if best { p.size.wrapping_sub(1) } else { p.size };
    let order = draw::shuffled(p.seed, 401, 16);
    let mut all = [best; 17];
    for i in 0..16 {
        all[(i + 1) as usize] = draw::entry(order, i) < domains;
    }
    all
}

// What a number does: it offers nothing (0), an access on claim (1), a writeback on claim (2), or one without claim below W (3);
// an access without claim where it has yielded (4), where it has not (5), or at R (6); a writeback at W (7); a domain that is
// not planned (8). A number and no enum: the tables below are drawn from by it.
const YIELDED: u32 = 4;

const ABSENT: u32 = 8;

// What a number does by the way, where it is to pass or not.
fn part(p: Passing, passes: bool, n: u32) -> u32 {
    if n == 0 && !passes && p.way != BLOCKED {
        return 0;
    }
    let row = (p.way % 4 * 16) as usize;
    let drawn = draw::upto(p.seed, n.wrapping_add(500), 7);
    let column = drawn.wrapping_add(if passes { 0 } else { 8 });
    let parts = b"1231233305678567\
        1234123406786780\
        1212121203456783\
        3434343406786780";
    u32::from(lines::digit(parts, row, column as usize))
}

// The offer of a number that does so.
fn offer(part: u32) -> u8 {
    lines::digit(b"012211120", 0, part as usize)
}

// A domain's Q, R, W or V where it does so: at least a number, and one more where this may be and the column's bit is set.
fn number(part: u32, column: u32, bits: u32) -> u64
    requires { column < 4 }
{
    let numbers = b"0010110110101101\
        0021110110101110\
        1121110101210101\
        0021000110001100\
        0000000000000000";
    let at = (part % 9 * 8 + column) as usize;
    let least = u64::from(lines::digit(numbers, 0, at));
    if lines::digit(numbers, 4, at) == 1 && bits >> column & 1 == 1 {
        least.wrapping_add(1)
    } else {
        least
    }
}

fn put_plan(words: &mut [u64], n: usize, part: u32, bits: u32) {
    let planned = part != ABSENT;
    let marked = planned && bits & 16 != 0;
    cells::put(words, n, cells::PRESENT, u64::from(planned));
    cells::put(words, n, cells::Q, number(part, 0, bits));
    cells::put(words, n, cells::R, number(part, 1, bits));
    cells::put(words, n, cells::W, number(part, 2, bits));
    cells::put(words, n, cells::V, number(part, 3, bits));
    cells::put(words, n, cells::MARK, u64::from(marked));
}

// A domain, and what it has left of its claims.
fn put_domain(words: &mut [u64], n: usize, part: u32, bits: u32) {
    let q = number(part, 0, bits);
    let yields = part == YIELDED;
    put_plan(words, n, part, bits);
    cells::put(words, n, cells::CLAIM, if yields { 0 } else { q });
    cells::put(words, n, cells::YIELDED, if yields { q } else { 0 });
    cells::put(words, n, cells::WRITECLAIM, number(part, 3, bits));
}

// A drawn number below a limit, 0 where it is 0.
fn below(seed: u32, salt: u32, limit: u64) -> u64 {
    let most = (limit % 65536) as u32;
    u64::from(draw::upto(seed, salt, most.saturating_sub(1)))
}

// The slots decided, all idle, where claims stand: so few that loose is above 0 in the first two ways, and so many that it is at
// most 0 in the others, where there is any claim.
fn decided(p: Passing, period: u64, claims: u64) -> u64 {
    let loose = period.saturating_sub(claims);
    if p.way < BLOCKED || claims == 0 {
        return below(p.seed, 402, loose);
    }
    loose.wrapping_add(below(p.seed, 403, claims))
}

// The period, a few slots or many more than are reserved, and its words.
fn put_slots(words: &mut [u64], p: Passing) {
    let reserved = cells::total(words, cells::Q) + cells::total(words, cells::V);
    let claims = cells::total(words, cells::CLAIM) + cells::total(words, cells::WRITECLAIM);
    let stock = cells::total(words, cells::YIELDED);
    let more = if draw::upto(p.seed, 404, 7) == 0 {
        4000
    } else {
        5
    };
    let period = (reserved + 3).wrapping_add(below(p.seed, 405, more));
    let slots = decided(p, period, claims) % 4096;
    cells::put(words, 0, cells::PERIOD, period);
    cells::put(words, 0, cells::DECIDED, slots);
    cells::put(words, 0, cells::IDLE, slots);
    cells::put(words, 0, cells::STOCK, stock);
    cells::put(words, 0, cells::TURN, p.turn as u64);
    cells::put(words, 0, cells::STEPS, slots * 17);
}

// Puts the state, where all words are 0.
pub fn put_state(words: &mut [u64], p: Passing, set: [bool; 17]) {
    for n in 1..=16 {
        let does = part(p, set[n as usize], n);
        put_domain(words, n as usize, does, draw::draw(p.seed, n + 600));
    }
    put_slots(words, p);
}

fn offers(p: Passing, set: [bool; 17]) -> [u8; 18] {
    let mut all = [0u8; 18];
    for n in 0..17 {
        all[n as usize] = offer(part(p, set[n as usize], n));
    }
    all
}

pub fn call(p: Passing, set: [bool; 17]) -> Call {
    Call {
        asks: Asks::Slot,
        offers: offers(p, set),
        offered: 17,
        lent: 17,
        filled: draw::low(p.seed),
        domain: u64::from(draw::upto(p.seed, 16, 16)),
        k: 0,
    }
}
