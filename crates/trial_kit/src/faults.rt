// Faults put into a file that was laid well.
use super::chain::Chain;
use super::{bytes, chain, draw};

// A fault, by its part and which of that part: 8 of a link, 5 of a domain number, 5 of a mark and of a byte that has to be
// zero, 9 of Q, R and W, 5 of the writeback reservation, and 6 of a mark, of which the last two are none.
#[derive(Clone, Copy)]
pub enum Fault {
    Link(u32),
    Number(u32),
    Unlisted(u32),
    Amount(u32),
    Write(u32),
    Mark(u32),
}

// Any of these, drawn.
pub fn drawn(seed: u32, salt: u32) -> Fault {
    match draw::upto(seed, salt, 37) {
        k @ 0..=7 => Fault::Link(k),
        k @ 8..=12 => Fault::Number(k - 8),
        k @ 13..=17 => Fault::Unlisted(k - 13),
        k @ 18..=26 => Fault::Amount(k - 18),
        k @ 27..=31 => Fault::Write(k - 27),
        k => Fault::Mark(k.wrapping_sub(32)),
    }
}

// Where a link leads: mostly to no record or back on the chain, now and then where it may.
fn bad_link(c: Chain, record: u32, which: u32, seed: u32) -> u32 {
    let order = c.order;
    match which {
        0 => c.records,
        1 => 64,
        2 => 65535,
        3 => record,
        4 => chain::record_at(order, draw::upto(seed, 700, c.domains)),
        5 => 0,
        6 => draw::upto(seed, 701, c.records),
        _ => draw::upto(seed, 702, 65535),
    }
}

// 0, 17, 255, the number that another record has, or any.
fn bad_number(which: u32, other: u8, seed: u32) -> u8 {
    match which {
        0 => 0,
        1 => 17,
        2 => 255,
        3 => other,
        _ => draw::low(draw::upto(seed, 703, 255)),
    }
}

// Byte 3, or one of 12 to 15.
fn unlisted_offset(which: u32) -> u32 {
    match which {
        1..=4 => 11 + which,
        _ => 3,
    }
}

// P, P + 1 or the largest.
fn bad_amount(period: u32, which: u32) -> u32 {
    match which {
        0 => period,
        1 => if period < 65535 { period + 1 } else { period },
        _ => 65535,
    }
}

fn damage_number(file: &mut [u8], c: Chain, record: u32, which: u32, seed: u32) {
    let other = bytes::get(file, bytes::place(record_on_chain(c, seed, 705), 2));
    let number = bad_number(which, other, seed);
    bytes::put(file, bytes::place(record, 2), number);
}

// A byte that draws 8: from 1 on, or from 2 on for a mark.
fn damage_unlisted(file: &mut [u8], record: u32, which: u32, seed: u32) {
    let offset = unlisted_offset(which);
    let drawn = draw::upto(seed, 704, if offset == 3 { 253 } else { 254 });
    let b = draw::low(255u32.wrapping_sub(drawn));
    bytes::put(file, bytes::place(record, offset), b);
}

// The mark put to 2, 3, 128 or 255, to 1, or to 0.
fn damage_mark(file: &mut [u8], record: u32, which: u32) {
    let b = match which {
        0 => 2,
        1 => 3,
        2 => 128,
        3 => 255,
        4 => 1,
        _ => 0,
    };
    bytes::put(file, bytes::place(record, 3), b);
}

// One of Q, R and W put to one of three.
fn damage_amount(file: &mut [u8], period: u32, record: u32, which: u32) {
    let k = which % 9;
    bytes::put_pair(file, record, 4 + k / 3 * 2, bad_amount(period, k % 3));
}

// The writeback reservation put to one above W, the largest, P + 1, W, or 0.
fn damage_reservation(file: &mut [u8], period: u32, record: u32, which: u32) {
    let cap = bytes::pair(file, record, 8);
    let value = match which {
        0 => cap.wrapping_add(1),
        1 => 65535,
        2 => bad_amount(period, 1),
        3 => cap,
        _ => 0,
    };
    bytes::put_pair(file, record, 10, value);
}

// Puts a fault into a record; in record 0 a fault of a link alone.
pub fn damage(file: &mut [u8], c: Chain, record: u32, fault: Fault, seed: u32) {
    match fault {
        Fault::Link(which) => {
            let link = bad_link(c, record, which, seed);
            bytes::put_pair(file, record, bytes::link_offset(record), link);
        }
        Fault::Number(which) => damage_number(file, c, record, which, seed),
        Fault::Unlisted(which) => damage_unlisted(file, record, which, seed),
        Fault::Amount(which) => damage_amount(file, c.period, record, which),
        Fault::Write(which) => damage_reservation(file, c.period, record, which),
        Fault::Mark(which) => damage_mark(file, record, which),
    }
}

// A record of the chain; record 1 or another off it where the chain is empty.
pub fn record_on_chain(c: Chain, seed: u32, salt: u32) -> u32 {
    let order = c.order;
    let domains = c.domains;
    if domains == 0 {
        return chain::record_at(order, 0);
    }
    chain::record_at(order, draw::upto(seed, salt, domains - 1))
}

// A record that a fault may go into: one of the chain, and for a fault of a link now and then record 0.
pub fn record_for(c: Chain, fault: Fault, seed: u32, salt: u32) -> u32 {
    if matches!(fault, Fault::Link(_)) && draw::upto(seed, 706, c.domains) == 0 {
        return 0;
    }
    record_on_chain(c, seed, salt)
}
