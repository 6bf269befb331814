// The plan file of a case.
use super::cases;
use super::cases::Case;
use trial_kit::{bytes, draw, rest};

// Each byte of the file in turn, put to a small value or to any.
fn spoil_byte(file: &mut [u8], size: usize, c: Case) {
    let drawn = draw::draw(c.seed, 70);
    let value = if c.case % 2 == 0 { drawn % 20 } else { drawn };
    if size > 0 {
        bytes::put(file, c.case as usize % size, draw::low(value));
    }
}

// A record 0 with a period and a link that may do, in every second case.
fn put_first(file: &mut [u8], c: Case) {
    if c.case % 2 == 0 {
        bytes::put_record(
            file,
            0,
            [
                1 + draw::upto(c.seed, 71, 11),
                draw::upto(c.seed, 72, 7),
                0,
                0,
                0,
                0,
            ],
        );
    }
}

// Bytes filled in a style.
fn filled(file: &mut [u8], c: Case, style: bytes::Kind) -> usize {
    bytes::fill(file, 144, c.seed, style);
    put_first(file, c);
    16 + 16 * draw::upto(c.seed, 73, 8) as usize
}

// The same, with zeros off the chain.
fn cleared(file: &mut [u8], c: Case, style: bytes::Kind) -> usize {
    let size = filled(file, c, style);
    rest::clear(file);
    size
}

// Records behind the plan, all zero but for one byte; in every fourth run of sixteen cases this is zero too.
fn longer(file: &mut [u8], size: usize, c: Case) -> usize {
    let written = (size / 16 % 64) as u32;
    let records = 1 + draw::upto(c.seed, 74, 63 - written);
    let record = written + draw::upto(c.seed, 75, records - 1);
    let value = if c.case / 16 % 4 == 3 {
        0
    } else {
        draw::low(1 + draw::upto(c.seed, 76, 254))
    };
    bytes::put(file, bytes::place(record, c.case % 16), value);
    ((written + records) * 16) as usize
}

// Puts the file and answers its bytes: of each length in turn (0), with a byte damaged (1), filled (2, 3 and 30), too short in
// the fourth run of short buffers and in every eleventh case where the file `ask` is edited or damaged (38 to 41), with records
// behind (29), and else as it is.
pub fn put(file: &mut [u8], c: Case) -> usize {
    let size = cases::put_plan(file, c);
    match c.kind {
        0 => c.case as usize,
        1 => {
            spoil_byte(file, size, c);
            size
        }
        2 => cleared(file, c, bytes::Kind::Small),
        3 => cleared(file, c, bytes::Kind::Any),
        26 => if c.run == 3 { 15 } else { size },
        29 => longer(file, size, c),
        38..=41 => if c.case % 11 == 0 { 15 } else { size },
        30 => filled(file, c, bytes::Kind::Small),
        _ => size,
    }
}
