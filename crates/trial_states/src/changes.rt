// States changed in one number, in several, or in all: most no longer add up, and each line of that rule is broken alone.
use super::{draws, estimates, forms, handing, sums};
use regulator::State;
use trial_kit::{bytes, draw, values};

// The word of a column of the table below, for a domain: P, T, idle, best effort, stock; Q, R, W, V, claim, reserved,
// reclaimed, yielded, writebacks, writeback claim; the sum of steps.
fn word_of(column: usize, domain: usize) -> usize {
    match column {
        0 => 0,
        1 => 1,
        2 => 3,
        3 => 4,
        4 => 5,
        15 => 7,
        _ => 14 * (1 + domain % 16) + (column - 4) % 14,
    }
}

// A number raised or lowered, by so much or by 17 times that; both go round.
fn shift(words: &mut [u64], k: usize, by: u64, sign: u8) {
    let x = forms::word(words, k);
    match sign {
        b'+' => forms::put(words, k, x.wrapping_add(by)),
        b'-' => forms::put(words, k, x.wrapping_sub(by)),
        b'>' => forms::put(words, k, x.wrapping_add(by % 131072 * 17)),
        b'<' => forms::put(words, k, x.wrapping_sub(by % 131072 * 17)),
        _ => (),
    }
}

// Moves a state by the row of signs that begins at a place.
fn shift_by(words: &mut [u64], domain: usize, by: u64, rows: &[u8], from: usize) {
    for column in 0..16 {
        let sign = bytes::get(rows, from.wrapping_add(column));
        shift(words, word_of(column, domain), by, sign);
    }
}

// The ways of writebacks and their claims are numbered from here on, and there are so many of them.
const WRITES: u32 = 27;

const WRITE_WAYS: u32 = 23;

// Moves that keep some of the sums: slots, passes and yields as they go, their undoing, and parts of them; in the last three
// idle slots come and go without their steps. A row of signs for each way.
fn shift_slots(words: &mut [u64], way: u32, domain: usize, by: u64) {
    shift_by(
        words,
        domain,
        by,
        b"0++000000000000>\
        00+-00000000000>\
        0000+0000-00+000\
        0+0000000-+0000+\
        0+00-000000+0000\
        000000000-+00000\
        000000000-00+000\
        00-0-000000+000<\
        0000000000-+0000\
        0000+0000000+000\
        00000+000+000000\
        0+000+0000+00000\
        0+00000+00000+00\
        000000-000000000\
        0000000-00000000\
        +000000000000000\
        -000000000000000\
        0--000000000000<\
        0+0000000-0++000\
        00+000000+-0000>\
        00+0+000000-000>\
        0000000000000+00\
        0000-000000+0000\
        00-00000000+000<\
        0++0000000000000\
        0--0000000000000\
        00+-000000000000",
        16 * (way % 27) as usize,
    );
}

// The same of writebacks, on their claim or without, and of what is reserved for them; other passes turned into writebacks,
// and claims of one kind into the other.
fn shift_writes(words: &mut [u64], way: u32, domain: usize, by: u64) {
    shift_by(
        words,
        domain,
        by,
        b"0+00000000000+-0\
        0+00000000000+00\
        0-00000000000-+0\
        0-00000000000-00\
        00000000+00000+0\
        00000000-00000-0\
        0000000++00000+0\
        00000000000000+0\
        00000000000000-0\
        000000000-0000+0\
        000000000+0000-0\
        000-000000000+-0\
        000-000000000+00\
        000000000+-00+-0\
        0000000000-00+00\
        00000-00+-0000+0\
        00000+00-+0000-0\
        00-0000000000+0<\
        00-0000000000+-<\
        00000000+0000000\
        00000000-0000000\
        0000000000000+-0\
        0+0000000-+00+-0",
        16 * (way % 23) as usize,
    );
}

fn shift_in(words: &mut [u64], way: u32, domain: usize, by: u64) {
    if way < WRITES {
        shift_slots(words, way, domain, by);
    } else {
        shift_writes(words, way - WRITES, domain, by);
    }
}

// A domain that is planned, or in every fourth case any, as one less than its number.
fn some_domain(words: &[u64], seed: u32, salt: u32) -> usize {
    let any = draw::upto(seed, salt, 15);
    if draw::upto(seed, 87, 3) == 0 {
        any as usize
    } else {
        draws::domain_from(words, any, true) + 15
    }
}

// In every third case a way is undone at another domain, so that what all domains come to stays.
fn several(words: &mut [u64], way: u32, seed: u32) {
    let one = some_domain(words, seed, 81);
    shift_in(words, way, one, 1);
    if draw::upto(seed, 82, 2) == 0 {
        let other = some_domain(words, seed, 83);
        shift_in(words, way, other, 18446744073709551615);
    }
}

// A fresh state whose plan has sixteen domains that reserve 4,096 each: they come to 65,536.
fn put_full_plan(words: &mut [u64]) {
    let plan = values::drawn(1, values::Kind::Full);
    let claim = plan.reservation;
    let writebackclaim = plan.writebackreservation;
    let tracked = forms::nothing_tracked();
    let fresh = State {
        plan,
        claim,
        writebackclaim,
        reserved: [0; 16],
        reclaimed: [0; 16],
        yielded: [0; 16],
        writebacks: [0; 16],
        decided: 0,
        idle: 0,
        best: 0,
        stock: 0,
        steps: 0,
        tracked,
        ..forms::state_of(words)
    };
    forms::put_state(words, fresh);
}

// By how much numbers are moved: by one more than the claim, the stock, the decided or the idle slots lowered, or by any.
fn round_by(words: &[u64], which: u32, domain: usize, seed: u32) -> u64 {
    match which {
        2 => 1 + forms::word(words, 14 * (domain % 16 + 1) + 5) % 65536,
        3 => 1 + forms::word(words, 5) % 65536,
        5 => 1 + forms::word(words, 1) % 65536,
        7 => 1 + forms::word(words, 3) % 65536,
        _ => 1 + u64::from(draw::upto(seed, 82, 65534)),
    }
}

fn round_way(which: u32) -> u32 {
    match which {
        0 => 1,
        1 | 2 => 2,
        3 => 7,
        4 => 0,
        7 => 44,
        _ => 17,
    }
}

// The slots that the period has left but one.
fn slots_left(words: &[u64]) -> u32 {
    let period = (forms::word(words, 0) % 65536) as u32;
    let decided = (forms::word(words, 1) % 65536) as u32;
    if decided < period {
        period - decided - 1
    } else {
        0
    }
}

// Idle slots put behind those decided, none, all that the period has left but one, or a drawn number of them; then the sum of
// steps alone put in a drawn way.
fn steps_off(words: &mut [u64], seed: u32) {
    let left = slots_left(words);
    let idle = match draw::upto(seed, 84, 2) {
        0 => 0,
        1 => left,
        _ => draw::upto(seed, 85, left),
    };
    shift_in(words, 0, 0, u64::from(idle));
    sums::put_sum(words, draw::upto(seed, 80, 7));
}

// Sums that are right only if they go round at 65,536; the sum of steps fits the idle slots.
fn round(words: &mut [u64], seed: u32) {
    let which = draw::upto(seed, 80, 7);
    let domain = draw::upto(seed, 81, 15) as usize;
    if which == 6 {
        put_full_plan(words);
        return;
    }
    let by = round_by(words, which, domain, seed);
    shift_in(words, round_way(which), domain, by);
    sums::put_sum(words, sums::LEAST);
}

// A turn out of its range, also one whose low bits are within it.
fn turn_off(turn: u64, x: u32) -> u64 {
    match x % 6 {
        0 => 17,
        1 => 18,
        2 => turn.wrapping_add(65536),
        3 => turn.wrapping_add(4294967296),
        4 => 18446744073709551615,
        _ => u64::from(x / 16 % 17),
    }
}

// A number put off: by one, to 0, to the most it holds, or to a drawn one.
fn number_off(x: u64, drawn: u32) -> u64 {
    match drawn % 8 {
        0 | 1 | 2 => x.wrapping_add(1),
        3 | 4 => x.wrapping_sub(1),
        5 => 0,
        6 => 65535,
        _ => u64::from(drawn / 16 % 65536),
    }
}

// Word k put off; a flag, that of the plan that waits or a domain's, is put to the other, and an estimate to another kind or
// to other bits.
fn word_off(k: usize, x: u64, drawn: u32) -> u64 {
    match (k, k % 14) {
        (6, _) => turn_off(x, drawn),
        (forms::FORCE | forms::NEXT, _) => number_off(x, drawn),
        (forms::WAITS, _) | (_, 0 | 11) => 1 - x % 2,
        (_, 12) => (x % 3 + 1 + u64::from(drawn % 2)) % 3,
        (_, 13) => estimates::bits(drawn % 16, drawn / 16 % 8, drawn / 128),
        _ => number_off(x, drawn),
    }
}

// Any word of a state: one of the first seventeen rows, of which 8 to 13 are none, the flag, or one of the plan beside it.
fn any_word(x: u32) -> usize {
    match x % 336 {
        8..=13 => 7,
        k @ 0..=239 => k as usize,
        k => {
            let i = k - 240;
            forms::NEXT + 14 * (i / 6 + 1) as usize + forms::plan_column(i % 6)
        }
    }
}

// One number put off.
fn one_off(words: &mut [u64], seed: u32) {
    let k = any_word(draw::draw(seed, 80));
    let x = forms::word(words, k);
    forms::put(words, k, word_off(k, x, draw::draw(seed, 81)));
}

// Every number drawn, from all that it holds or from few.
fn any_state(words: &mut [u64], seed: u32) {
    let most = match draw::upto(seed, 99, 3) {
        0 => 65535,
        1 => 3,
        _ => 1,
    };
    for k in 0..336 {
        let x = draw::upto(seed, 100 + k, most);
        forms::put(words, any_word(k), u64::from(x));
    }
}

// So many periods closed that one more can be, or none; then now and then another number off too.
fn long_run(words: &mut [u64], seed: u32) {
    forms::put(words, 2, 4294967294 + u64::from(draw::upto(seed, 83, 1)));
    if draw::upto(seed, 84, 3) == 0 {
        one_off(words, seed);
    }
}

// A plan that would be refused beside the flag; now and then no period more can be closed.
fn beside(words: &mut [u64], waits: bool, seed: u32) {
    handing::lay_spoiled(words, waits, seed);
    if draw::upto(seed, 84, 3) == 0 {
        forms::put(words, 2, 4294967295);
    }
}

// Idle slots put behind those decided until one slot is left, so that the next one closes the period.
fn to_last_slot(words: &mut [u64]) {
    let left = slots_left(words);
    shift_in(words, 0, 0, u64::from(left));
}

// Changes the words of a state, for the kinds 15 to 20, 24 to 26, 28 and 29; they may come to more than a state holds.
fn change(words: &mut [u64], kind: u32, seed: u32) {
    match kind {
        15 => one_off(words, seed),
        16 => several(words, draw::upto(seed, 80, WRITES + WRITE_WAYS - 1), seed),
        17 => round(words, seed),
        18 => any_state(words, seed),
        19 => long_run(words, seed),
        20 => steps_off(words, seed),
        24 => beside(words, true, seed),
        25 => beside(words, false, seed),
        28 => {
            to_last_slot(words);
            estimates::put_sorts(words, seed);
        }
        29 => estimates::put_unmarked(words, seed),
        _ => several(words, WRITES + draw::upto(seed, 80, WRITE_WAYS - 1), seed),
    }
}

// Whether a changed state is tried at each step of a kind.
pub fn has_kind(kind: u32) -> bool {
    matches!(kind, 15..=20 | 24..=26 | 28 | 29)
}

// Puts the changed state of a step.
pub fn put_changed(to: &mut [u64], now: &[u64], kind: u32, seed: u32) {
    forms::copy(to, now);
    change(to, kind, seed);
    forms::fit(to);
}
