// Files that are made to be refused with a number: a fault of 4 to 9 or 11 at a place of the chain, and one of 1 to 11.
use super::chain::Chain;
use super::faults::Fault;
use super::{bytes, chain, draw, faults, files};

// The refusal of 4 to 9 or 11 that is put in, and how many records are taken.
#[derive(Clone, Copy)]
pub struct Spot {
    pub fault: u32,
    pub taken: u32,
}

// Each place where a fault can be, in turn: 4 and 6 also behind sixteen records, 5 and 7 not before a record is taken.
pub fn place(fault: u32, turn: u32) -> u32 {
    match fault {
        4 | 6 => turn % 17,
        5 | 7 => turn % 16 + 1,
        _ => turn % 16,
    }
}

// A damage that surely draws the fault.
fn damage_of(fault: u32, seed: u32) -> Fault {
    match fault {
        4 => Fault::Link(draw::upto(seed, 710, 2)),
        5 => Fault::Link(3),
        6 => Fault::Number(draw::upto(seed, 710, 2)),
        7 => Fault::Number(3),
        8 => Fault::Unlisted(draw::upto(seed, 710, 4)),
        11 => Fault::Write(draw::upto(seed, 710, 1)),
        _ => Fault::Amount(1 + draw::upto(seed, 710, 2) * 3 + draw::upto(seed, 711, 1)),
    }
}

// Puts the fault behind the records taken: 4 and 5 into the link, the others into the next record. The number that 7 repeats
// is one of those taken.
pub fn put_spot(file: &mut [u8], c: Chain, s: Spot, seed: u32) {
    let order = c.order;
    let mut reached = c;
    reached.domains = s.taken;
    let from = chain::before(order, s.taken);
    let to = chain::record_at(order, s.taken);
    bytes::put_pair(file, from, bytes::link_offset(from), to);
    let record = if s.fault < 6 { from } else { to };
    faults::damage(file, reached, record, damage_of(s.fault, seed), seed);
}

// Puts a fault of 4 to 9 or 11 into a chain, at each place in turn.
pub fn put_fault(file: &mut [u8], c: Chain, fault: u32, turn: u32, seed: u32) {
    put_spot(
        file,
        c,
        Spot {
            fault,
            taken: place(fault, turn),
        },
        seed,
    );
}

// A byte that is not zero: the lowest bit alone, the highest, all of them, or any.
pub fn put_byte(file: &mut [u8], record: u32, offset: u32, seed: u32) {
    let b = match draw::upto(seed, 810, 3) {
        0 => 1,
        1 => 128,
        2 => 255,
        _ => draw::low(1 + draw::upto(seed, 811, 254)),
    };
    bytes::put(file, bytes::place(record, offset), b);
}

// Such a byte in any place of a record; none in record 0, which stands for no record here.
pub fn put_in(file: &mut [u8], record: u32, seed: u32) {
    if record != 0 {
        put_byte(file, record, draw::upto(seed, 812, 15), seed);
    }
}

// Down to fifteen bytes less, or a record more than a file may have.
fn wrong_length(bytes: u32, turn: u32) -> u32 {
    match turn % 16 {
        0 => files::LONGEST,
        k => bytes.wrapping_sub(k),
    }
}

fn wrong_period(turn: u32) -> u32 {
    match turn % 3 {
        0 => 0,
        1 => 4097,
        _ => 65535,
    }
}

// Makes a file of sixteen domains refused with a number, and answers its bytes. 10 is drawn by the plan alone.
pub fn spoil(file: &mut [u8], c: Chain, number: u32, turn: u32, seed: u32) -> u32 {
    let bytes = files::bytes_of(c.records);
    match number {
        1 => return wrong_length(bytes, turn),
        2 => bytes::put_pair(file, 0, 0, wrong_period(turn)),
        3 => put_byte(file, 0, 4 + turn % 12, seed),
        10 => (),
        _ => put_fault(file, c, number, turn, seed),
    }
    bytes
}
