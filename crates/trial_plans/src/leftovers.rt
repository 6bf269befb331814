// The files of the kinds 30 to 37, made with leftovers: of each the refusal and its place are known.
use super::cases::Case;
use super::compare;
use trial_kit::chain::Chain;
use trial_kit::spoiled::{put_byte, put_in, spoil};
use trial_kit::{bytes, chain, draw, files, rest, values};

// The refusal that reading has to tell, 0 for none, and its place.
#[derive(Clone, Copy)]
pub struct Known {
    pub number: u32,
    pub place: u32,
}

// A file that was put: its bytes, and what reading has to tell where that is known.
#[derive(Clone, Copy)]
pub struct Made {
    pub bytes: u32,
    pub known: Option<Known>,
}

// The kind of leftovers beside another refusal.
pub const BESIDE: u32 = 35;

// A file of so many records whose lowest leftover is known, 0 for none.
fn with_leftover(records: u32, leftover: u32) -> Made {
    let number = if leftover == 0 { 0 } else { 12 };
    Made {
        bytes: files::bytes_of(records),
        known: Some(Known {
            number,
            place: leftover,
        }),
    }
}

// How many records the chain does not reach.
fn free(c: Chain) -> u32 {
    c.records.wrapping_sub(c.domains.wrapping_add(1))
}

// A plan that is accepted, and at least one record that the chain does not reach.
fn put_roomy(file: &mut [u8], seed: u32) -> Chain {
    let records = 1 + draw::upto(seed, 5, 62);
    let mut c = chain::lay(file, values::drawn(seed, values::Kind::Good), records, seed);
    c.records = records + 1 + draw::upto(seed, 6, 63 - records);
    c
}

// Any bytes off the chain, where it does not reach all records.
fn any_rest(file: &mut [u8], seed: u32) -> Made {
    bytes::fill(file, files::LONGEST, seed, bytes::Kind::Any);
    let c = files::put_good(file, seed);
    let lowest = rest::nth(file, 0);
    with_leftover(c.records, if free(c) == 0 { 0 } else { lowest })
}

// One byte at each place of a record in turn: of the first record off the chain, of one in the middle, and of the last.
fn one_byte(file: &mut [u8], case: u32, seed: u32) -> Made {
    let c = put_roomy(file, seed);
    let last = free(c).wrapping_sub(1);
    let n = match case / 16 % 3 {
        0 => 0,
        1 => last / 2,
        _ => last,
    };
    let record = rest::nth(file, n);
    put_byte(file, record, case % 16, seed);
    with_leftover(c.records, record)
}

// The record of a domain that names the one before.
fn put_linked(file: &mut [u8], record: u32, before: u32, seed: u32) {
    let domain = 1 + draw::upto(seed, 813, 15);
    bytes::put_record(file, record, [before, domain, 1, 0, 0, 0]);
}

// Puts two to nine leftovers among so many records off the chain, and answers the lowest: a byte each, or records of domains,
// of which the first names a record of the chain, or none.
fn put_several(file: &mut [u8], free: u32, linked: bool, seed: u32) -> u32 {
    let count = 2 + draw::upto(seed, 814, 7);
    let last = free.wrapping_sub(1);
    let mut lowest: u32 = 64;
    let mut before = bytes::pair(file, 0, 2);
    for i in 0..count {
        let drawn = draw::draw(seed, i + 820);
        let record = rest::nth(file, draw::upto(drawn, 0, last));
        if linked {
            put_linked(file, record, before, drawn);
        } else {
            put_in(file, record, drawn);
        }
        lowest = lowest.min(record);
        before = record;
    }
    lowest
}

fn several(file: &mut [u8], linked: bool, seed: u32) -> Made {
    let c = put_roomy(file, seed);
    with_leftover(c.records, put_several(file, free(c), linked, seed))
}

// 64 records and a chain of 0, 1 or 16 of them, no leftover, one in record 63, which is then off the chain, or one in any.
fn largest(file: &mut [u8], case: u32, seed: u32) -> Made {
    let way = case / 3 % 3;
    let taken = match case % 3 {
        0 => 0,
        1 => 1,
        _ => 16,
    };
    let p = values::drawn(seed, values::Kind::Whole);
    let c = chain::lay(file, p, if way == 0 { 64 } else { 63 }, seed);
    chain::end_chain(file, c, taken);
    rest::clear(file);
    let leftover = match way {
        0 => 0,
        1 => 63,
        _ => rest::nth(file, draw::upto(seed, 815, 62u32.wrapping_sub(taken))),
    };
    put_in(file, leftover, seed);
    with_leftover(64, leftover)
}

// The place that the model tells of the first bytes.
fn place_told(file: &[u8], bytes: u32) -> u32 {
    let size = file.len().min(bytes as usize);
    model_plans::read(&file[..size]).place
}

// A leftover in the last record of a file that is refused with each number of 1 to 11: it alters neither number nor place.
fn beside(file: &mut [u8], case: u32, seed: u32) -> Made {
    let number = case % 11 + 1;
    let style = if number == 10 {
        values::Kind::Full
    } else {
        values::Kind::Whole
    };
    let records = 18 + draw::upto(seed, 5, 45);
    let mut c = chain::lay(file, values::drawn(seed, style), records, seed);
    c.records = records + 1;
    let bytes = spoil(file, c, number, case / 11, seed);
    let place = place_told(file, bytes);
    put_in(file, records, seed);
    Made {
        bytes,
        known: Some(Known { number, place }),
    }
}

// A chain of all records from 1 to 16, cut after 0 to 16 of them, and zeros behind.
fn cut(file: &mut [u8], case: u32, seed: u32) -> Made {
    let taken = case % 17;
    let c = chain::lay(file, values::drawn(seed, values::Kind::Whole), 17, seed);
    chain::end_chain(file, c, taken);
    let lowest = rest::nth(file, 0);
    with_leftover(
        17 + draw::upto(seed, 6, 47),
        if taken == 16 { 0 } else { lowest },
    )
}

// What a buffer was used for: any bytes (0), an older plan of sixteen domains (1), or nothing.
fn put_used(file: &mut [u8], way: u32, seed: u32) {
    match way {
        0 => bytes::fill(file, files::LONGEST, seed, bytes::Kind::Any),
        1 => {
            compare::write_over(
                file,
                values::drawn(draw::draw(seed, 816), values::Kind::Whole),
            );
        }
        _ => (),
    }
}

// The lowest leftover of so many records of a used buffer, of which the first were written; of an older plan seventeen were.
fn first_behind(way: u32, written: u32, records: u32, seed: u32) -> u32 {
    if written >= records {
        return 0;
    }
    match way {
        0 => written,
        1 => if written < 17 { written } else { 0 },
        2 => written + draw::upto(seed, 817, records - written - 1),
        _ => 0,
    }
}

// A used buffer that the library writes a plan to, read whole: behind it are any bytes, an older plan, one byte, or zeros.
fn used(file: &mut [u8], case: u32, seed: u32) -> Made {
    let way = case % 4;
    let p = values::drawn(seed, values::Kind::Good);
    put_used(file, way, seed);
    let written = compare::write_over(file, p);
    let records = written + draw::upto(seed, 5, 64 - written);
    let leftover = first_behind(way, written, records, seed);
    put_in(file, if way == 2 { leftover } else { 0 }, seed);
    with_leftover(records, leftover)
}

// Puts the file of a case.
pub fn put(file: &mut [u8], c: Case) -> Made {
    match c.kind {
        30 => any_rest(file, c.seed),
        31 => one_byte(file, c.number, c.seed),
        32 => several(file, false, c.seed),
        33 => several(file, true, c.seed),
        34 => largest(file, c.number, c.seed),
        BESIDE => beside(file, c.number, c.seed),
        36 => cut(file, c.number, c.seed),
        _ => used(file, c.number, c.seed),
    }
}

// Whether the model tells what is known, and by the earlier rule the same, where 12 is none.
pub fn holds(file: &[u8], known: Option<Known>) -> bool {
    let Some(k) = known else {
        return true;
    };
    let a = model_plans::read(file);
    let earlier = if k.number == 12 { 0 } else { k.number };
    a.number == k.number
        && a.place == k.place
        && model_plans::read_with_leftovers(file).number == earlier
}
