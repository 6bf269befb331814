// Bytes of files and lent buffers: put and filled.
ghost use Rattle.std.specs.Prelude.{◌<◌};

use super::draw;

// How bytes are filled: any, mostly zero, as records whose fields are small, or with zeros.
#[derive(Clone, Copy)]
pub enum Kind {
    Any,
    Sparse,
    Small,
    Zeros,
}

pub fn put(file: &mut [u8], at: usize, b: u8) {
    if let Some(there) = file.get_mut(at) {
        *there = b;
    }
}

pub fn get(file: &[u8], at: usize) -> u8 {
    file.get(at).copied().unwrap_or(0)
}

// Where a byte of a record stands.
pub fn place(record: u32, offset: u32) -> usize
    ensures { result < 1048576 }
{
    (record % 65536 * 16 + offset % 16) as usize
}

// A number of two bytes, the low byte first.
pub fn put_pair(file: &mut [u8], record: u32, offset: u32, value: u32) {
    let at = place(record, offset);
    let b = value.to_le_bytes();
    put(file, at, b[0]);
    put(file, at + 1, b[1]);
}

// The number of two bytes at an offset of a record.
pub fn pair(file: &[u8], record: u32, offset: u32) -> u32
    ensures { result < 65536 }
{
    let at = place(record, offset);
    u32::from(get(file, at)) + u32::from(get(file, at + 1)) * 256
}

// Where a record has its link.
pub fn link_offset(record: u32) -> u32 {
    if record == 0 { 2 } else { 0 }
}

// A record of six numbers, each two bytes, and zeros.
pub fn put_record(file: &mut [u8], record: u32, numbers: [u32; 6]) {
    for k in 0..8 {
        let number = numbers.get(k as usize).copied().unwrap_or(0);
        put_pair(file, record, 2 * k, number);
    }
}

// Of small fields: a link to one of eight records, a domain number to 17, a mark, now and then of 2, Q, R and W to 7, a
// writeback reservation to 3; now and then another byte.
fn small_byte(drawn: u32, at: u32) -> u8 {
    let x = drawn / 256;
    match at % 16 {
        0 | 4 | 6 | 8 => draw::low(x % 8),
        10 => draw::low(x % 4),
        2 => if at < 16 {
            draw::low(x % 8)
        } else {
            draw::low(x % 18)
        },
        3 => if at < 16 { 0 } else { small_mark(x) },
        _ => if x % 256 == 0 { draw::low(drawn) } else { 0 },
    }
}

fn small_mark(x: u32) -> u8 {
    if x % 16 == 0 { 2 } else { draw::low(x % 2) }
}

fn filling(seed: u32, fill: Kind, at: u32) -> u8 {
    let drawn = draw::draw(seed, at.wrapping_add(65536));
    match fill {
        Kind::Any => draw::low(drawn),
        Kind::Sparse => if drawn / 256 % 16 == 0 {
            draw::low(drawn) % 32
        } else {
            0
        },
        Kind::Small => small_byte(drawn, at),
        Kind::Zeros => 0,
    }
}

// Fills the first bytes of a buffer, as many as are asked for or are there.
pub fn fill(file: &mut [u8], bytes: u32, seed: u32, fill: Kind) {
    for at in 0..bytes {
        put(file, at as usize, filling(seed, fill, at));
    }
}
