// What a call on a state of these words shows of plans handed in: yes or no for each line that is printed of it.
ghost use Rattle.std.specs.Prelude.{◌≤◌, ℕ};

use super::calls::{Asks, Call};
use super::forms;
use model_calls::forecast;

// What a domain may have.
#[derive(Clone, Copy, Debug, PartialEq, Eq)]
pub enum Mark {
    // A place in the plan in force, in the one that waits, or in the one at hand.
    Planned,
    Coming,
    Given,
    // Claim, while the plan at hand leaves it out; numbers or a mark that the one at hand has otherwise.
    Dropped,
    Resized,
    Claim,
    Writebacks,
    Reclaimed,
    Marked,
    Estimated,
    Nan,
    // A yield by forecast.
    Foreseen,
}

// Whether a word of a domain is another in the plan at hand, as bits. Here and below a place is required to be inside its words:
// a type for it would be made and taken apart at each use.
fn other(words: &[u64], at: usize) -> u64
    requires { at ≤ 237 }
{
    forms::word(words, at) ^ forms::word(words, forms::GIVEN + at)
}

// The same of all numbers of a domain's row, and of its mark.
fn otherwise(words: &[u64], at: usize) -> u64
    requires { at ≤ 224 }
{
    let shares = other(words, at + 1) | other(words, at + 4);
    shares | other(words, at + 2) | other(words, at + 3) | other(words, at + 11)
}

// Whether the domain whose row begins at a word has this.
fn has(words: &[u64], at: usize, what: Mark) -> bool
    requires { at ≤ 224 }
{
    let planned = forms::word(words, at) != 0;
    let given = forms::word(words, forms::GIVEN + at) != 0;
    let claim = forms::word(words, at + 5) != 0;
    match what {
        Mark::Planned => planned,
        Mark::Coming => forms::word(words, forms::NEXT + at) != 0,
        Mark::Given => given,
        Mark::Dropped => claim && !given,
        Mark::Resized => planned && given && otherwise(words, at) != 0,
        Mark::Claim => claim,
        Mark::Writebacks => forms::word(words, at + 9) != 0,
        Mark::Reclaimed => forms::word(words, at + 7) != 0,
        Mark::Marked => forms::word(words, at + 11) != 0,
        Mark::Estimated => forms::word(words, at + 12) != 0,
        Mark::Nan => forms::word(words, at + 12) == 2,
        Mark::Foreseen => forecast::need(words, at / 14) < forms::word(words, at + 1),
    }
}

// The domains of which something holds, domain 1 as the lowest bit.
pub fn those<F: Fn(usize) -> bool>(holds: F) -> u32
    requires { (n : ℕ) → 1 ≤ n → n ≤ 16 → F.pre holds n }
{
    let mut bits: u32 = 0;
    for n in 1..=16 {
        if holds(n) {
            bits |= 1 << (n - 1);
        }
    }
    bits
}

// The domains that have this.
pub fn domains(words: &[u64], what: Mark) -> u32 {
    those(|n| has(words, 14 * n, what))
}

// The domains of the plan in force, and a bit above them that tells a plan from none.
pub fn planned(words: &[u64]) -> u32 {
    domains(words, Mark::Planned) | 65536
}

// Whether a domain offers, or is the one that yields.
fn asks(c: Call, n: usize) -> bool
    requires { n ≤ 16 }
{
    match c.asks {
        Asks::Slot => c.offers[n] != 0,
        Asks::Yield => c.domain == n as u64,
        Asks::HandIn | Asks::Open => false,
    }
}

fn asking(c: Call) -> u32 {
    those(|n| asks(c, n))
}

// A slot call or a yield: whether a plan takes force, and then is of a smaller or a larger period; whether 33, and then 21, is
// told of domains that the plan that waits has, and that the plan before the one in force had; whether a slot, and then a
// yield, is taken from a domain that the plan that waits leaves out.
pub fn of_call(words: &[u64], c: Call, number: u32, complete: bool, before: u32) -> [bool; 9] {
    let asked = asking(c);
    let force = domains(words, Mark::Planned);
    let next = domains(words, Mark::Coming);
    let waits = forms::word(words, forms::WAITS) != 0;
    let comes = complete && waits;
    let due = waits && (asked | force | next) == (force | next);
    let gone = before != 0 && (asked | force | before) == (force | before);
    let left = waits && number == 0 && (asked | next) != next;
    let bad_yield = number == 21 && asked != 0;
    [
        comes,
        comes && forms::word(words, forms::NEXT) < forms::word(words, forms::FORCE),
        comes && forms::word(words, forms::NEXT) > forms::word(words, forms::FORCE),
        number == 33 && due,
        number == 33 && gone,
        bad_yield && due,
        bad_yield && gone,
        left && c.asks == Asks::Slot,
        left && c.asks == Asks::Yield,
    ]
}

// The plan at hand, handed in and taken: whether at T 0, in the middle, at T P - 1, and with P 1; in the place of another, as
// the plan in force again, with a domain more, without one that has claim left, with other numbers for one, and while claim,
// stock and writebacks stand.
fn of_taken(words: &[u64]) -> [bool; 13] {
    let at = forms::word(words, 1);
    let last = forms::word(words, forms::FORCE) == at.wrapping_add(1);
    let force = domains(words, Mark::Planned);
    let given = domains(words, Mark::Given);
    let resized = domains(words, Mark::Resized) != 0;
    let again = force == given && !resized && other(words, forms::FORCE) == 0;
    let stand = domains(words, Mark::Claim) != 0 && domains(words, Mark::Writebacks) != 0;
    [
        at == 0 && !last,
        at > 0 && !last,
        at > 0 && last,
        at == 0 && last,
        forms::word(words, forms::WAITS) != 0,
        again,
        (force | given) != force,
        domains(words, Mark::Dropped) != 0,
        resized,
        stand && forms::word(words, 5) > 0,
        false,
        false,
        false,
    ]
}

// The same of a plan that is taken; of one that is refused, whether it is for itself while another waits, with 30, or with 34.
pub fn of_plan(words: &[u64], number: u32) -> [bool; 13] {
    if number == 0 {
        return of_taken(words);
    }
    let mut all = [false; 13];
    match number {
        30 => all[11] = true,
        34 => all[12] = true,
        _ => all[10] = forms::word(words, forms::WAITS) != 0,
    }
    all
}

// A changed state, what its plan beside the flag would be refused with, and whether it adds up: whether that plan waits, and
// then would be refused with 2, 9, 11 and 10; whether there is one that does not wait, would be refused, and the state adds up.
pub fn of_change(words: &[u64], number: u32, adds: bool) -> [bool; 8] {
    let waits = forms::word(words, forms::WAITS) != 0;
    let some = forms::word(words, forms::NEXT) | u64::from(domains(words, Mark::Coming));
    let beside = some != 0 && !waits;
    let refused = beside && number != 0;
    [
        waits,
        waits && number == 2,
        waits && number == 9,
        waits && number == 11,
        waits && number == 10,
        beside,
        refused,
        refused && adds,
    ]
}
