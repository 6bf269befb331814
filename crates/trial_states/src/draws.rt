// Drawn calls on a state of these words: offers, yields, and faults put into either.
ghost use Rattle.std.specs.Prelude.{◌≤◌};

use super::calls::{Asks, Call};
use super::forms;
use super::styles::Style;
use trial_kit::draw;

// Whether the domain whose number is one above is planned.
fn is_planned(words: &[u64], i: usize) -> bool {
    forms::word(words, 14 * (i % 16 + 1)) != 0
}

// The first domain number from a start on, going round, that is planned or is not; 0 for none, since each caller takes it as a
// number or a row, best effort's then.
pub fn domain_from(words: &[u64], start: u32, planned: bool) -> usize
    ensures { result ≤ 16 }
{
    (0..16)
        .map(|k| (start.wrapping_add(k) % 16) as usize)
        .find(|&i| is_planned(words, i) == planned)
        .map_or(0, |i| i + 1)
}

// The kind that a domain offers with claim left; where it has both or neither, the one drawn.
fn asked_kind(words: &[u64], row: usize, writes: bool) -> u8 {
    let reads = forms::word(words, 14 * (row % 17) + 5) > 0;
    let claims = forms::word(words, 14 * (row % 17) + 10) > 0;
    let drawn = if writes { 2 } else { 1 };
    if reads == claims {
        return drawn;
    }
    if reads { 1 } else { 2 }
}

// The offer of a planned domain, or of best effort. Some domains offer in every slot of a run, so that they keep asking.
fn offer(words: &[u64], style: Style, run: u32, seed: u32, n: u32) -> u8 {
    if style.offers == 0 {
        return 0;
    }
    let writes = draw::upto(seed, n.wrapping_add(20), 15) < style.writebacks;
    let steady = draw::upto(run, n.wrapping_add(900), 3) == 0;
    if steady {
        return asked_kind(words, (n % 17) as usize, writes);
    }
    if draw::upto(seed, n.wrapping_add(40), 15) >= style.offers {
        return 0;
    }
    if writes { 2 } else { 1 }
}

// Its offer, or none from a domain that is not planned.
fn offer_at(words: &[u64], style: Style, run: u32, seed: u32, n: usize) -> u8 {
    if n > 0 && !is_planned(words, n - 1) {
        return 0;
    }
    offer(words, style, run, seed, (n % 17) as u32)
}

fn offers(words: &[u64], style: Style, run: u32, seed: u32) -> [u8; 18] {
    let mut all = [0u8; 18];
    for n in 0..17 {
        all[n] = offer_at(words, style, run, seed, n);
    }
    all
}

fn length(x: u32) -> usize {
    match x % 4 {
        0 => 0,
        1 => 16,
        2 => 17,
        _ => 18,
    }
}

fn with_offer(mut c: Call, n: usize, value: u8) -> Call {
    c.offers[n % 17] = value;
    c
}

fn with_lengths(c: Call, offered: usize, lent: usize) -> Call {
    Call { offered, lent, ..c }
}

// A slot call with one fault: a length, an offer byte above 2, an offer from a domain that is not planned, or a byte
// above 2 from such a one.
fn slot_fault(c: Call, words: &[u64], seed: u32, salt: u32) -> Call {
    let x = draw::draw(seed, salt.wrapping_add(1));
    let absent = domain_from(words, x, false);
    let above = if x / 32 % 4 == 0 {
        255
    } else {
        draw::low(3 + x / 128 % 4)
    };
    match draw::upto(seed, salt, 6) {
        0 => with_lengths(c, length(x), c.lent),
        1 => with_lengths(c, c.offered, length(x)),
        2 => with_lengths(c, length(x), length(x / 4)),
        3 => with_offer(c, (x / 1024 % 17) as usize, above),
        4 => with_offer(c, absent, above),
        _ => with_offer(c, absent, draw::low(1 + x / 16 % 2)),
    }
}

// A domain number, 0 and 17 up among them, some of which have the low bits of a planned one.
fn any_domain(words: &[u64], n: u64, x: u32) -> u64 {
    match x % 9 {
        0 => 0,
        1 => 17,
        2 => 255,
        3 => n.wrapping_add(256),
        4 => n.wrapping_add(65536),
        5 => n.wrapping_add(4294967296),
        6 => 18446744073709551615,
        7 => domain_from(words, x / 16, false) as u64,
        _ => n,
    }
}

// A number of units, none of which but the claim itself can be yielded; that of both claims is not, where there is a
// writeback claim.
fn any_amount(claim: u64, writes: u64, x: u32) -> u64 {
    match x % 10 {
        0 | 1 => 0,
        2 => claim,
        3 => claim.wrapping_add(1),
        4 => 65536,
        5 => 65537,
        6 => 4294967296,
        7 => 4294967297,
        8 => claim.wrapping_add(writes),
        _ => 18446744073709551615,
    }
}

// Some of a claim; 1 where there is none.
fn some_of(claim: u64, seed: u32) -> u64 {
    match (claim % 65536) as u32 {
        0 => 1,
        most => 1 + u64::from(draw::upto(seed, 11, most - 1)),
    }
}

// Whether one of two is put wrong, where none is, the chosen one, or both.
fn is_wrong(faults: u32, chosen: bool) -> bool {
    match faults {
        0 => false,
        1 => chosen,
        _ => true,
    }
}

// A yield by a planned domain, with so many faults: in its domain number, in its units, or in both.
fn yield_of(c: Call, words: &[u64], seed: u32, faults: u32) -> Call {
    let n = domain_from(words, draw::upto(seed, 10, 15), true);
    let claim = forms::word(words, 14 * (n % 17) + 5);
    let writes = forms::word(words, 14 * (n % 17) + 10);
    let x = draw::draw(seed, 12);
    let first = x / 16 % 2 == 0;
    let domain = if is_wrong(faults, first) {
        any_domain(words, n as u64, x / 64)
    } else {
        n as u64
    };
    let k = if is_wrong(faults, !first) {
        any_amount(claim, writes, draw::draw(seed, 13) / 64)
    } else {
        some_of(claim, seed)
    };
    Call { domain, k, ..c }
}

// How many faults a call of a style has.
fn faults_of(style: Style, seed: u32) -> u32 {
    let x = draw::upto(seed, 2, 15);
    if style.faults > 16 {
        return if x < style.faults - 16 { 2 } else { 0 };
    }
    if x < style.faults { 1 } else { 0 }
}

fn slot_of(c: Call, words: &[u64], seed: u32, faults: u32) -> Call {
    if faults == 0 {
        return c;
    }
    let one = slot_fault(c, words, seed, 60);
    if faults == 1 {
        one
    } else {
        slot_fault(one, words, seed, 70)
    }
}

// What the call of a step is.
pub fn kind_of(style: Style, seed: u32) -> Asks {
    if draw::upto(seed, 6, 63) < style.hands {
        return Asks::HandIn;
    }
    if draw::upto(seed, 1, 15) < style.yields {
        Asks::Yield
    } else {
        Asks::Slot
    }
}

// The number whose verdict is to be explained: mostly a planned domain's, or best effort.
fn asked(words: &[u64], seed: u32) -> u64 {
    let n = domain_from(words, draw::upto(seed, 15, 15), true) as u64;
    match draw::upto(seed, 14, 7) {
        0 => any_domain(words, n, draw::draw(seed, 16)),
        1 => u64::from(draw::upto(seed, 16, 16)),
        2 => 0,
        _ => n,
    }
}

// The call of a step; a plan that is handed in is no part of it.
pub fn call(words: &[u64], style: Style, run: u32, seed: u32, asks: Asks) -> Call {
    let faults = faults_of(style, seed);
    let c = Call {
        asks,
        offers: offers(words, style, run, seed),
        offered: 17,
        lent: 17,
        filled: draw::low(draw::draw(seed, 3)),
        domain: asked(words, seed),
        k: 0,
    };
    match asks {
        Asks::Slot => slot_of(c, words, seed, faults),
        Asks::Yield => yield_of(c, words, seed, faults),
        Asks::HandIn | Asks::Open => c,
    }
}
