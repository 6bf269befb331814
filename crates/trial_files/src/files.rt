// The files of each kind, put where all bytes are zero.
use super::{Case, rescues};
use trial_kit::chain::Chain;
use trial_kit::files::bytes_of;
use trial_kit::{bytes, chain, draw, files, rest, spoiled, values};

fn good(file: &mut [u8], seed: u32) -> u32 {
    let c = files::put_good(file, seed);
    bytes_of(c.records)
}

// How many records have the chain on all of them but record 0, of the kinds 6, 7 and 17; in every second case of 7 there is no
// chain, and in 17 the sixteen domains may leave records.
fn laid(of: Case) -> u32 {
    match of.kind {
        6 => 1 + draw::upto(of.seed, 6, 15),
        7 if of.case % 2 == 0 => 1 + of.case / 2 % 17,
        7 => 1,
        _ => 17 + draw::upto(of.seed, 5, 47),
    }
}

// How many records are behind these.
fn behind(of: Case) -> u32 {
    match of.kind {
        6 if of.case / 32 % 2 == 0 => 1 + draw::upto(of.seed, 7, 40),
        7 if of.case % 2 == 1 => of.case / 2 % 64,
        _ => 0,
    }
}

// As many of sixteen domains as there is room for.
fn whole(file: &mut [u8], of: Case) -> u32 {
    let seed = of.seed;
    let records = laid(of);
    chain::lay(
        file,
        values::drawn(seed, values::Kind::Whole),
        records,
        seed,
    );
    bytes_of(records.wrapping_add(behind(of)))
}

// Makes a file of sixteen domains refused with a number, and answers its bytes; 10 is drawn by the plan alone. The leftover of
// 12 is one of the first four records off the chain.
fn refused(file: &mut [u8], c: Chain, number: u32, turn: u32, seed: u32) -> u32 {
    if number < 12 {
        return spoiled::spoil(file, c, number, turn, seed);
    }
    spoiled::put_in(file, rest::nth(file, draw::upto(seed, 7, 3)), seed);
    bytes_of(c.records)
}

// A file that is refused with each number of 1 to 12 in turn; every second one of 1 to 11 has all records on its chain.
fn each_refusal(file: &mut [u8], case: u32, seed: u32) -> u32 {
    let number = case % 12 + 1;
    let full = number < 12 && case / 12 % 2 == 0;
    let style = if number == 10 {
        values::Kind::Full
    } else {
        values::Kind::Whole
    };
    let records = if full {
        17
    } else {
        22 + draw::upto(seed, 5, 42)
    };
    let c = chain::lay(file, values::drawn(seed, style), records, seed);
    refused(file, c, number, case / 24 % 15, seed)
}

// Good files over bytes that are any, or records of domains that name each other.
fn over(file: &mut [u8], style: bytes::Kind, seed: u32) -> u32 {
    bytes::fill(file, files::LONGEST, seed, style);
    good(file, seed)
}

// Records of small fields, cleared off the chain.
fn small(file: &mut [u8], seed: u32) -> u32 {
    let size = files::small(file, seed);
    rest::clear(file);
    size
}

// The kinds of bytes that are damaged or filled.
fn put_rough(file: &mut [u8], of: Case) -> u32 {
    let case = of.case;
    let seed = of.seed;
    match of.kind {
        11 => files::one_byte(file, case, seed),
        12 => files::filled(file, bytes::Kind::Any, case, seed),
        13 => files::filled(file, bytes::Kind::Sparse, case, seed),
        14 => small(file, seed),
        _ => files::lengths(file, case, seed),
    }
}

// Puts the file of a case and answers its length.
pub fn put(file: &mut [u8], of: Case) -> u32 {
    match of.kind {
        6 | 7 | 17 => whole(file, of),
        8 => each_refusal(file, of.case, of.seed),
        9 => over(file, bytes::Kind::Any, of.seed),
        10 => over(file, bytes::Kind::Small, of.seed),
        11..=15 => put_rough(file, of),
        18..=29 => rescues::put(file, of),
        _ => good(file, of.seed),
    }
}
