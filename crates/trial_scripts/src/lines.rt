// Lines put into a lent script, and drawn ones.
ghost use Rattle.std.specs.Prelude.{◌<◌};

use model_replay::text::Text;
use std::array;
use trial_kit::draw;

// How often, out of 16, there are offers, writebacks and yields.
#[derive(Clone, Copy)]
pub struct Weights {
    pub offers: u32,
    pub writebacks: u32,
    pub yields: u32,
}

// A number, and the least digits that it is put with, of which nine are the most.
#[derive(Clone, Copy)]
pub struct Padded {
    pub value: u32,
    pub digits: u32,
}

// The numbers of a yield line. In a file `ask` the slot stands in the place of the domain, and the offering number in that of k.
#[derive(Clone, Copy)]
pub struct Amount {
    pub domain: Padded,
    pub k: Padded,
}

// The part of a text between two places.
pub fn put_part(to: &mut Text<'_>, given: &[u8], from: usize, end: usize) {
    if from <= end && end <= given.len() {
        to.text(&given[from..end]);
    }
}

// A word of the model's state.
pub fn word(s: &[u64], row: u32, column: u32) -> u32
    ensures { result < 65536 }
{
    let at = (row % 17 * 14 + column % 14) as usize;
    (s.get(at).copied().unwrap_or(0) % 65536) as u32
}

// The digit that a number ends with.
pub fn figure(x: u32) -> u8 {
    (x % 10) as u8 + b'0'
}

fn digit(offers: &[u8], n: usize) -> u8 {
    offers.get(n).copied().unwrap_or(0) % 10 + b'0'
}

// A line like a slot line, of so many digits: the offers, and zeros behind them.
pub fn put_slot(to: &mut Text<'_>, offers: &[u8], count: usize) {
    to.text(b"s ");
    for n in 0..count {
        to.byte(digit(offers, n));
    }
    to.byte(b'\n');
}

// A number behind the zeros that it lacks.
fn put_padded(to: &mut Text<'_>, x: Padded) {
    let own = 1 + x.value.checked_ilog10().unwrap_or(0);
    for _ in own..x.digits.min(9) {
        to.byte(b'0');
    }
    to.number(u64::from(x.value));
}

// Two numbers, a space between them and byte 10 behind.
pub fn put_amount(to: &mut Text<'_>, y: Amount) {
    put_padded(to, y.domain);
    to.byte(b' ');
    put_padded(to, y.k);
    to.byte(b'\n');
}

pub fn put_yield(to: &mut Text<'_>, y: Amount) {
    to.text(b"y ");
    put_amount(to, y);
}

// The offer of best effort or of a planned domain; none of another.
fn offer(s: &[u64], w: Weights, seed: u32, n: u32) -> u8
    requires { n < 17 }
{
    if n > 0 && word(s, n, 0) == 0 {
        return 0;
    }
    if draw::upto(seed, n + 20, 15) >= w.offers {
        return 0;
    }
    if draw::upto(seed, n + 40, 15) < w.writebacks {
        2
    } else {
        1
    }
}

pub fn drawn_offers(s: &[u64], w: Weights, seed: u32) -> [u8; 17] {
    array::from_fn(|n| offer(s, w, seed, n as u32))
}

// A yield of some of a drawn domain's claim; k is 0 where there is none.
pub fn drawn_yield(s: &[u64], seed: u32) -> Amount {
    let domain = 1 + draw::upto(seed, 10, 15);
    let claim = word(s, domain, 5);
    let k = if claim > 0 {
        1 + draw::upto(seed, 11, claim - 1)
    } else {
        0
    };
    Amount {
        domain: Padded {
            value: domain,
            digits: 1 + draw::upto(seed, 12, 1),
        },
        k: Padded {
            value: k,
            digits: 1 + draw::upto(seed, 13, 3),
        },
    }
}

// Where it is counted, behind the state's words, how often each verdict was told in the slots that were put.
pub const TOLD: usize = 476;

fn count_verdict(s: &mut [u64], verdict: u8) {
    let at = TOLD + (verdict % 7) as usize;
    if let Some(told) = s.get_mut(at) {
        *told = told.wrapping_add(1);
    }
}

fn count_verdicts(s: &mut [u64], verdicts: [u8; 17]) {
    for verdict in verdicts {
        count_verdict(s, verdict);
    }
}

// A slot line of drawn offers, which the state goes along with.
fn put_drawn_slot(to: &mut Text<'_>, s: &mut [u64], w: Weights, seed: u32) {
    let offers = drawn_offers(s, w, seed);
    let mut verdicts = [0u8; 17];
    let mut counts = [0u64; 238];
    model_calls::slot(s, &offers, &mut verdicts, &mut counts);
    count_verdicts(s, verdicts);
    put_slot(to, &offers, 17);
}

// A yield line, which the state goes along with.
fn put_drawn_yield(to: &mut Text<'_>, s: &mut [u64], y: Amount) {
    model_calls::take_yield(s, u64::from(y.domain.value), u64::from(y.k.value));
    put_yield(to, y);
}

// A line that is taken: a yield where one is drawn and there is claim, and else a slot.
fn put_drawn(to: &mut Text<'_>, s: &mut [u64], w: Weights, seed: u32) {
    let y = drawn_yield(s, seed);
    if draw::upto(seed, 14, 15) < w.yields && y.k.value > 0 {
        put_drawn_yield(to, s, y);
    } else {
        put_drawn_slot(to, s, w, seed);
    }
}

// So many lines that are taken.
pub fn put_lines(to: &mut Text<'_>, s: &mut [u64], w: Weights, seed: u32, count: u32) {
    for i in 0..count {
        put_drawn(to, s, w, draw::draw(seed, i));
    }
}
