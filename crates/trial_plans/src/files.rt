// The files of each kind, put where all bytes are zero; records off the chain stay so, but for those of the kinds from 30 on.
use super::cases::Case;
use super::leftovers::Made;
use super::{leftovers, places};
use trial_kit::faults::Fault;
use trial_kit::files::{bytes_of, put_good};
use trial_kit::{bytes, chain, draw, faults, files, rest, values};

fn periods(file: &mut [u8], number: u32, seed: u32) -> u32 {
    let c = put_good(file, seed);
    let period = match number % 8 {
        0 => 0,
        1 => 1,
        2 => 4096,
        3 => 4097,
        4 => 65535,
        5 => draw::upto(seed, 7, 4200),
        6 => draw::upto(seed, 7, 65535),
        _ => 4095,
    };
    bytes::put_pair(file, 0, 0, period);
    bytes_of(c.records)
}

fn first_record(file: &mut [u8], number: u32, seed: u32) -> u32 {
    let c = put_good(file, seed);
    bytes::put(
        file,
        bytes::place(0, 4 + number % 12),
        draw::low(draw::draw(seed, 7)),
    );
    bytes_of(c.records)
}

fn chains(file: &mut [u8], seed: u32) -> u32 {
    let c = put_good(file, seed);
    bytes_of(c.records)
}

fn one_fault(file: &mut [u8], fault: Fault, seed: u32) -> u32 {
    let c = put_good(file, seed);
    let record = faults::record_for(c, fault, seed, 7);
    faults::damage(file, c, record, fault, seed);
    bytes_of(c.records)
}

fn sums(file: &mut [u8], number: u32, seed: u32) -> u32 {
    let c = chain::lay(
        file,
        values::summed(seed, number),
        17 + draw::upto(seed, 5, 47),
        seed,
    );
    bytes_of(c.records)
}

// Two faults of any sort, in one record or each in its own.
fn two_faults(file: &mut [u8], apart: bool, seed: u32) -> u32 {
    let c = put_good(file, seed);
    let a = faults::drawn(seed, 8);
    let b = faults::drawn(seed, 9);
    let first = faults::record_on_chain(c, seed, 10);
    let second = if apart {
        faults::record_for(c, b, seed, 11)
    } else {
        first
    };
    faults::damage(file, c, first, a, seed);
    faults::damage(file, c, second, b, draw::draw(seed, 12));
    bytes_of(c.records)
}

// The fault of a case of the kinds 5 to 8, 26 and 28, one sort each.
fn fault_of(c: Case) -> Fault {
    match c.kind {
        5 => Fault::Link(c.number % 8),
        6 => Fault::Number(c.number % 5),
        7 => Fault::Unlisted(c.number % 5),
        8 => Fault::Amount(c.number % 9),
        26 => Fault::Write(c.number % 5),
        _ => Fault::Mark(c.number % 6),
    }
}

// The kinds of good files, and of files with a fault of one sort.
fn put_laid(file: &mut [u8], c: Case) -> u32 {
    match c.kind {
        1 => files::lengths(file, c.number, c.seed),
        2 => periods(file, c.number, c.seed),
        3 => first_record(file, c.number, c.seed),
        4 => chains(file, c.seed),
        _ => one_fault(file, fault_of(c), c.seed),
    }
}

// The kinds of filled bytes.
fn put_filled(file: &mut [u8], c: Case) -> u32 {
    match c.kind {
        13 | 38 => files::filled(file, bytes::Kind::Any, c.number, c.seed),
        14 | 39 => files::filled(file, bytes::Kind::Sparse, c.number, c.seed),
        _ => files::small(file, c.seed),
    }
}

// The same, where the records off the chain are cleared.
fn put_cleared(file: &mut [u8], c: Case) -> u32 {
    let bytes = put_filled(file, c);
    rest::clear(file);
    bytes
}

// Puts the file of a case of which nothing is known, and answers its length.
fn put_unknown(file: &mut [u8], c: Case) -> u32 {
    match c.kind {
        1..=8 | 26 | 28 => put_laid(file, c),
        9 => sums(file, c.number, c.seed),
        10 => two_faults(file, false, c.seed),
        11 => two_faults(file, true, c.seed),
        12 => files::one_byte(file, c.number, c.seed),
        13..=15 => put_cleared(file, c),
        38..=40 => put_filled(file, c),
        _ => places::put(file, c),
    }
}

// Puts the file of a case.
pub fn put(file: &mut [u8], c: Case) -> Made {
    match c.kind {
        30..=37 => leftovers::put(file, c),
        _ => Made {
            bytes: put_unknown(file, c),
            known: None,
        },
    }
}
