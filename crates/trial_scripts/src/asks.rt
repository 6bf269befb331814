// The file `ask` of a case.
use super::cases::Case;
use super::lines::{Amount, Padded};
use super::wrong::{Edit, Way};
use super::{cases, lines, scripts, wrong};
use model_replay::text::Text;
use trial_kit::{bytes, draw};

// A slot of a script that has about so many: mostly one of them, or the next two; now and then 0, the last, or a number of nine
// digits.
fn slot(slots: u32, seed: u32) -> u32 {
    match draw::upto(seed, 200, 31) {
        0 => 0,
        1 => 999999999,
        2 => draw::upto(seed, 201, 999999999),
        3 | 4 => slots,
        _ => draw::upto(seed, 202, slots.wrapping_add(1)) % 1000000 + 1,
    }
}

// The first planned domain behind a number, going round from 16 to 1.
fn planned_behind(s: &[u64], start: u32) -> Option<u32> {
    (0..16)
        .map(|k| (start % 16 + k) % 16 + 1)
        .find(|&n| lines::word(s, n, 0) != 0)
}

// An offering number: mostly a planned domain's, or best effort, which stands for it too where none is planned.
fn number(s: &[u64], seed: u32) -> u32 {
    match draw::upto(seed, 203, 23) {
        0 => draw::upto(seed, 204, 99),
        1 | 2 => draw::upto(seed, 205, 16),
        3 | 4 => 0,
        _ => planned_behind(s, draw::upto(seed, 206, 15)).unwrap_or(0),
    }
}

// A question on a script of so many bytes, with zeros before either number in half of the cases.
fn drawn(s: &[u64], size: usize, seed: u32) -> Amount {
    let slots = (size / 20 % 65536) as u32;
    Amount {
        domain: Padded {
            value: slot(slots, seed),
            digits: draw::upto(seed, 207, 17) % 10,
        },
        k: Padded {
            value: number(s, seed),
            digits: 1 + draw::upto(seed, 208, 1),
        },
    }
}

// The question as it is, and its bytes.
fn put_whole(to: &mut [u8], q: Amount) -> usize {
    let mut text = Text::from(to, 0);
    lines::put_amount(&mut text, q);
    text.end()
}

// Cut at each place, with a byte behind it, or with two bytes damaged.
fn damaged(to: &mut [u8], size: usize, c: Case) -> usize {
    let cut = (c.case / 3 % 14) as usize;
    match c.case % 3 {
        0 => cut.min(size),
        1 => {
            bytes::put(to, size, draw::low(c.case / 3));
            size.wrapping_add(1)
        }
        _ => {
            scripts::spoil(to, size, 2, c.seed);
            size
        }
    }
}

// Each place of it in turn, and each value in turn.
fn put_edited(to: &mut [u8], line: &[u8], c: Case) -> usize {
    let way = Way::of(c.kind.wrapping_sub(cases::QUESTIONS));
    let mut text = Text::from(to, 0);
    wrong::put_edited(&mut text, line, Edit::of(way, 13, c.case));
    text.end()
}

// How many questions each case of a kind has: more where all lines of its script are taken.
pub fn count(kind: u32) -> u32 {
    match kind {
        4..=11 | 28 | 33..=36 => 4,
        43 => 8,
        _ => 1,
    }
}

// The case for its question k.
pub fn question(c: Case, k: u32) -> Case {
    Case {
        seed: draw::draw(c.seed, k.wrapping_add(210)),
        ..c
    }
}

// Puts the file and answers its bytes, where the script has so many, and the words are those of the state behind it.
pub fn put(to: &mut [u8], s: &[u64], c: Case, size: usize) -> usize {
    let q = drawn(s, size, c.seed);
    match c.kind {
        38..=40 => {
            let mut line = [0u8; 13];
            let whole = put_whole(&mut line, q);
            put_edited(to, &line[..whole.min(13)], c)
        }
        41 => {
            let whole = put_whole(to, q);
            damaged(to, whole, c)
        }
        _ => put_whole(to, q),
    }
}
