// The library's states, plans and counts as the words of the model, and back: word 14 * row + column.
ghost use Rattle.std.specs.Prelude.{◌≤◌};

use model_calls::floats;
use plan::Plan;
use regulator::{Counts, Estimate, State, Tracked, Waiting};
use std::array;
use trial_kit::values;

// Where the plan in force begins, the plan beside the flag, and the plan at hand, which is opened or handed in and no part of
// the state.
pub const FORCE: usize = 0;

pub const NEXT: usize = 238;

pub const GIVEN: usize = 476;

// The flag: whether a plan waits.
pub const WAITS: usize = 239;

// A word, 0 where there is none.
pub fn word(words: &[u64], k: usize) -> u64 {
    words.get(k).copied().unwrap_or(0)
}

pub fn put(words: &mut [u64], k: usize, value: u64) {
    if let Some(word) = words.get_mut(k) {
        *word = value;
    }
}

// Puts words in the place of others, 0 where there are none.
pub fn copy(to: &mut [u64], from: &[u64]) {
    let n = to.len().min(from.len());
    to[..n].copy_from_slice(&from[..n]);
    to[n..].fill(0);
}

// Puts sixteen numbers, one in each row from a word on.
fn put_numbers(to: &mut [u64], from: usize, numbers: [u16; 16])
    requires { from ≤ 24 }
{
    for i in 0..16 {
        put(to, from + 14 * i, u64::from(numbers[i]));
    }
}

fn numbers(words: &[u64], from: usize) -> [u16; 16]
    requires { from ≤ 714 }
{
    array::from_fn(|i| values::narrow(word(words, from + 14 * i)))
}

fn flags(words: &[u64], from: usize) -> [bool; 16]
    requires { from ≤ 714 }
{
    array::from_fn(|i| word(words, from + 14 * i) != 0)
}

// The column of one of a domain's words in a plan.
pub fn plan_column(which: u32) -> usize
    ensures { result ≤ 11 }
{
    match which {
        0..=4 => which as usize,
        _ => 11,
    }
}

// Puts a plan, from FORCE, NEXT or GIVEN on.
pub fn put_plan(to: &mut [u64], from: usize, p: Plan)
    requires { from ≤ 476 }
{
    put(to, from, u64::from(p.period));
    for k in 0..96 {
        let at = from + 14 * (k / 6 + 1) as usize + plan_column(k % 6);
        put(to, at, u64::from(values::word(p, k)));
    }
}

pub fn plan_of(words: &[u64], from: usize) -> Plan
    requires { from ≤ 476 }
{
    Plan {
        period: values::narrow(word(words, from)),
        planned: flags(words, from + 14),
        reservation: numbers(words, from + 15),
        reclaimcap: numbers(words, from + 16),
        writebackcap: numbers(words, from + 17),
        writebackreservation: numbers(words, from + 18),
        marked: flags(words, from + 25),
    }
}

// Whether the plan that begins at a word is the one that begins at another.
pub fn same_plans(words: &[u64], a: usize, b: usize) -> bool
    requires { (a ≤ 476) × (b ≤ 476) }
{
    plan_of(words, a) == plan_of(words, b)
}

pub fn nothing_tracked() -> [Tracked; 16] {
    [Tracked {
        estimate: Estimate::Unknown,
    }; 16]
}

// Puts an estimate: the kind 0 for none, 1 for a number, whose bits stand behind it, and 2 for a NaN.
fn put_estimate(to: &mut [u64], at: usize, e: Estimate)
    requires { at ≤ 714 }
{
    match e {
        Estimate::Unknown => {
            put(to, at, 0);
            put(to, at + 1, 0);
        }
        Estimate::Known(x) => {
            let sorted = floats::bits_of(x);
            put(to, at, sorted.kind);
            put(to, at + 1, sorted.bits);
        }
    }
}

fn put_estimates(to: &mut [u64], tracked: [Tracked; 16]) {
    for i in 0..16 {
        put_estimate(to, 26 + 14 * i, tracked[i].estimate);
    }
}

fn estimate_of(kind: u64, bits: u64) -> Estimate {
    match kind {
        0 => Estimate::Unknown,
        1 => Estimate::Known(floats::float_of(bits)),
        _ => Estimate::Known(0.0 / 0.0),
    }
}

fn estimates(words: &[u64]) -> [Tracked; 16] {
    array::from_fn(|i| Tracked {
        estimate: estimate_of(word(words, 26 + 14 * i), word(words, 27 + 14 * i)),
    })
}

// Puts the numbers of the period's slots.
fn put_slots(to: &mut [u64], s: State) {
    put(to, 1, u64::from(s.decided));
    put(to, 3, u64::from(s.idle));
    put(to, 4, u64::from(s.best));
    put(to, 5, u64::from(s.stock));
    put(to, 7, u64::from(s.steps));
}

// Puts what outlasts a period, and what waits.
fn put_lasting(to: &mut [u64], s: State) {
    put(to, 2, u64::from(s.closed));
    put(to, 6, s.turn as u64);
    put(to, WAITS, u64::from(s.waiting.given));
    put_plan(to, NEXT, s.waiting.plan);
    put_estimates(to, s.tracked);
}

// Puts a state; the words that it does not have stay.
pub fn put_state(to: &mut [u64], s: State) {
    put_plan(to, FORCE, s.plan);
    put_slots(to, s);
    put_lasting(to, s);
    put_numbers(to, 19, s.claim);
    put_numbers(to, 20, s.reserved);
    put_numbers(to, 21, s.reclaimed);
    put_numbers(to, 22, s.yielded);
    put_numbers(to, 23, s.writebacks);
    put_numbers(to, 24, s.writebackclaim);
}

fn waiting_of(words: &[u64]) -> Waiting {
    Waiting {
        given: word(words, WAITS) != 0,
        plan: plan_of(words, NEXT),
    }
}

// The state of these words, of each as many bits as the state has.
pub fn state_of(words: &[u64]) -> State {
    State {
        plan: plan_of(words, FORCE),
        decided: values::narrow(word(words, 1)),
        closed: (word(words, 2) % 4294967296) as u32,
        idle: values::narrow(word(words, 3)),
        best: values::narrow(word(words, 4)),
        stock: values::narrow(word(words, 5)),
        turn: word(words, 6) as usize,
        claim: numbers(words, 19),
        reserved: numbers(words, 20),
        reclaimed: numbers(words, 21),
        yielded: numbers(words, 22),
        writebacks: numbers(words, 23),
        steps: (word(words, 7) % 4294967296) as u32,
        waiting: waiting_of(words),
        writebackclaim: numbers(words, 24),
        tracked: estimates(words),
    }
}

// Cuts the words of a state to what it holds.
pub fn fit(words: &mut [u64]) {
    let s = state_of(words);
    put_state(words, s);
}

// Puts the counts of a period where the model has them.
pub fn put_counts(to: &mut [u64], c: Counts) {
    put(to, 3, u64::from(c.idle));
    put(to, 4, u64::from(c.best));
    put(to, 7, u64::from(c.steps));
    put_numbers(to, 20, c.reserved);
    put_numbers(to, 21, c.reclaimed);
    put_numbers(to, 22, c.yielded);
    put_numbers(to, 23, c.writebacks);
}
