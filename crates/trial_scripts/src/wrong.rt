// Lines with a byte edited, and lines of numbers that are not taken.
ghost use Rattle.std.specs.Prelude.{◌<◌};

use super::lines::Amount;
use model_replay::text::Text;
use trial_kit::{bytes, draw};

// What an edit does to a byte: it is left out, has another put in before it, or is put to another.
#[derive(Clone, Copy, Debug, PartialEq, Eq)]
pub enum Way {
    LeftOut,
    PutBefore,
    Changed,
}

impl Way {
    pub fn of(number: u32) -> Way {
        match number {
            0 => Way::LeftOut,
            1 => Way::PutBefore,
            _ => Way::Changed,
        }
    }
}

// An edit of the byte at a place of a line.
#[derive(Clone, Copy)]
pub struct Edit {
    way: Way,
    place: usize,
    value: u8,
}

impl Edit {
    // Each of so many places in turn, and each value in turn.
    pub fn of(way: Way, places: u32, case: u32) -> Edit
        requires { 0 < places }
    {
        Edit {
            way,
            place: (case % places) as usize,
            value: draw::low(case / places),
        }
    }
}

impl Edit {
    // A byte of a line, edited.
    fn put(self, to: &mut Text<'_>, b: u8) {
        match self.way {
            Way::LeftOut => {}
            Way::PutBefore => {
                to.byte(self.value);
                to.byte(b);
            }
            Way::Changed => to.byte(self.value),
        }
    }
}

// A line, edited.
pub fn put_edited(to: &mut Text<'_>, line: &[u8], e: Edit) {
    for (k, &b) in line.iter().enumerate() {
        if k == e.place {
            e.put(to, b);
        } else {
            to.byte(b);
        }
    }
}

// A digit above 2 at any number.
fn spoil_digit(offers: &mut [u8], seed: u32) {
    bytes::put(
        offers,
        draw::upto(seed, 60, 16) as usize,
        draw::low(3 + draw::upto(seed, 61, 6)),
    );
}

// An offer from any domain, planned or not.
fn spoil_domain(offers: &mut [u8], seed: u32) {
    bytes::put(
        offers,
        1 + draw::upto(seed, 62, 15) as usize,
        draw::low(1 + draw::upto(seed, 63, 1)),
    );
}

// One of these two, or both.
pub fn spoil_offers(offers: &mut [u8], cause: u32, seed: u32) {
    match cause % 3 {
        0 => spoil_digit(offers, seed),
        1 => spoil_domain(offers, seed),
        _ => {
            spoil_digit(offers, seed);
            spoil_domain(offers, seed);
        }
    }
}

// A yield whose domain, k or both may not be taken.
pub fn spoiled_yield(y: Amount, claim: u32, cause: u32, seed: u32) -> Amount {
    let mut after = y;
    match cause % 5 {
        0 => after.domain.value = 0,
        1 => after.domain.value = 17,
        2 => after.domain.value = 18 + draw::upto(seed, 64, 81),
        _ => {}
    }
    match cause / 5 % 5 {
        0 => after.k.value = 0,
        1 => after.k.value = 9999,
        2 => after.k.value = claim % 9999 + 1,
        _ => {}
    }
    after
}
