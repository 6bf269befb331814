// Plan files put where all bytes are zero: good ones, cut to a length or with a byte changed, and filled bytes.
ghost use Rattle.std.specs.Prelude.{◌≤◌};

use super::chain::Chain;
use super::{bytes, chain, draw, values};

// The bytes of the longest file that is tried.
pub const LONGEST: u32 = 1040;

fn most_records(many: bool) -> u32
    ensures { result ≤ 63 }
{
    if many { 63 } else { 19 }
}

// A plan that is accepted, in few records or in many.
pub fn put_good(file: &mut [u8], seed: u32) -> Chain {
    let records = 1 + draw::upto(seed, 5, most_records(draw::upto(seed, 6, 3) == 0));
    chain::lay(file, values::drawn(seed, values::Kind::Good), records, seed)
}

// How many bytes so many records are.
pub fn bytes_of(records: u32) -> u32 {
    records % 128 * 16
}

// A good file cut to every length, from no byte to more than a file may have.
pub fn lengths(file: &mut [u8], case: u32, seed: u32) -> u32 {
    let whole = case / 16 % 128;
    let records = if whole == 0 { 1 } else { whole };
    chain::lay(file, values::drawn(seed, values::Kind::Good), records, seed);
    case
}

// The byte that a case damages: each in its order, and round again.
fn position(case: u32, bytes: u32) -> u32 {
    case.checked_rem(bytes).unwrap_or(0)
}

// Each byte of a good file in turn, put to a drawn value; 336 cases have one file.
pub fn one_byte(file: &mut [u8], case: u32, seed: u32) -> u32 {
    let c = put_good(file, case / 336);
    let bytes = bytes_of(c.records);
    bytes::put(
        file,
        position(case, bytes) as usize,
        draw::low(draw::draw(seed, 7)),
    );
    bytes
}

// A record 0 with a link.
fn put_first(file: &mut [u8], records: u32, seed: u32) {
    bytes::put_record(
        file,
        0,
        [
            1 + draw::upto(seed, 6, 4095),
            draw::upto(seed, 7, records),
            0,
            0,
            0,
            0,
        ],
    );
}

// Filled bytes of any length; every second file has a record 0 that is followed.
pub fn filled(file: &mut [u8], fill: bytes::Kind, case: u32, seed: u32) -> u32 {
    bytes::fill(file, LONGEST, seed, fill);
    let records = draw::upto(seed, 5, 65);
    if case % 2 == 0 {
        put_first(file, records, seed);
    }
    if draw::upto(seed, 8, 7) == 0 {
        draw::upto(seed, 9, LONGEST)
    } else {
        bytes_of(records)
    }
}

// Records whose fields are small, so that links, numbers and amounts are often right.
pub fn small(file: &mut [u8], seed: u32) -> u32 {
    bytes::fill(file, 144, seed, bytes::Kind::Small);
    bytes::put_record(
        file,
        0,
        [
            1 + draw::upto(seed, 6, 30),
            draw::upto(seed, 7, 7),
            0,
            0,
            0,
            0,
        ],
    );
    16 + 16 * draw::upto(seed, 5, 8)
}
