// Plans that are handed in, drawn for a state of these words, and plans laid beside its flag.
ghost use Rattle.std.specs.Prelude.{◌≤◌};

use super::calls::Asks;
use super::styles::Style;
use super::{draws, forms};
use plan::Plan;
use trial_kit::{draw, plans, styles, values};

// The plan with drawn numbers for a domain, Q up to the most given.
fn with_drawn(p: Plan, domain: u32, most: u32, seed: u32) -> Plan {
    let period = u32::from(p.period);
    let r = draw::upto(seed, 92, period);
    let w = draw::upto(seed, 93, period);
    let v = draw::upto(seed, 99, if w < 2 { w } else { 2 });
    values::with_numbers(p, domain, draw::upto(seed, 91, most), r, w, v)
}

// The index of a domain that is planned or is not.
fn index_from(words: &[u64], start: u32, planned: bool) -> u32
    ensures { result ≤ 15 }
{
    ((draws::domain_from(words, start, planned) + 15) % 16) as u32
}

// The plan in force: again, with a domain more or less, with other numbers for one, with the numbers of one for another, with
// a slot more or less, or with another mark.
fn edited(words: &[u64], seed: u32) -> Plan {
    let p = forms::plan_of(words, forms::FORCE);
    let period = u32::from(p.period);
    let present = index_from(words, draw::upto(seed, 94, 15), true);
    let absent = index_from(words, draw::upto(seed, 95, 15), false);
    let k = present * 6;
    match draw::upto(seed, 96, 7) {
        0 => p,
        1 => with_drawn(p, absent, 2, seed),
        2 => plans::without(p, present),
        3 => with_drawn(p, present, period / 2 + 1, seed),
        4 => values::with_numbers(
            plans::without(p, present),
            absent,
            values::word(p, k + 1),
            values::word(p, k + 2),
            values::word(p, k + 3),
            values::word(p, k + 4),
        ),
        5 => values::with_period(p, period + 1),
        6 => values::with_mark(p, present, values::word(p, k + 5) == 0),
        _ => values::with_period(p, period + 65535),
    }
}

// The plan as it would be refused with 2, 9, 11 or 10.
fn spoiled(p: Plan, seed: u32) -> Plan {
    plans::spoiled(p, draw::upto(seed, 89, 5), seed)
}

// A plan as runs of the style have it, or the one in force edited; one in four has a fault, or two.
fn drawn(words: &[u64], style: Style, seed: u32) -> Plan {
    let p = if draw::upto(seed, 97, 15) < style.edits {
        edited(words, seed)
    } else {
        styles::plan_of(style.plans, draw::draw(seed, 98), seed)
    };
    match draw::upto(seed, 88, 7) {
        0 => spoiled(p, seed),
        1 => spoiled(spoiled(p, seed), draw::draw(seed, 8)),
        _ => p,
    }
}

// Puts the plan at hand, where it is to be handed in.
pub fn prepare(words: &mut [u64], style: Style, seed: u32, asks: Asks) {
    if asks == Asks::HandIn {
        let p = drawn(words, style, draw::draw(seed, 5));
        forms::put_plan(words, forms::GIVEN, p);
    }
}

// Puts a plan that would be refused beside the flag, and the flag.
pub fn lay_spoiled(words: &mut [u64], waits: bool, seed: u32) {
    let p = spoiled(edited(words, seed), seed);
    forms::put_plan(words, forms::NEXT, p);
    forms::put(words, forms::WAITS, u64::from(waits));
}
