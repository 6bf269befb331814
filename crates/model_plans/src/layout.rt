// The file of a plan as a function from a byte's place to its value.
ghost use Rattle.std.specs.Prelude.{◌<◌, ◌≤◌};

use super::words;

// The index of the record of a rank, or 0 where so many domains are not present.
fn index_of(domains: [u32; 96], rank: u32) -> u32 {
    words::ranked(domains, rank).map_or(0, |_| rank)
}

// The number of two bytes at an even offset of record 0.
fn first_number(period: u32, domains: [u32; 96], offset: u32) -> u32 {
    match offset {
        0 => period,
        2 => index_of(domains, 1),
        _ => 0,
    }
}

// The number of two bytes at an even offset of the record of a rank; byte 3, above the domain number, is the mark.
fn domain_number(domains: [u32; 96], rank: u32, offset: u32) -> u32
    requires { rank < 65536 }
{
    let Some(domain) = words::ranked(domains, rank) else {
        return 0;
    };
    match offset {
        0 => index_of(domains, rank + 1),
        2 => words::number_and_mark(domains, domain),
        4 | 6 | 8 | 10 => words::word(domains, domain, offset / 2 - 1),
        _ => 0,
    }
}

// Byte k of the file.
fn byte_at(period: u32, domains: [u32; 96], k: u32) -> u8
    requires { k < 1024 }
{
    let record = k / 16;
    let offset = k % 16 / 2 * 2;
    let number = if record == 0 {
        first_number(period, domains, offset)
    } else {
        domain_number(domains, record, offset)
    };
    number.to_le_bytes()[(k % 2) as usize]
}

// Puts the file's bytes into the buffer if they all fit; otherwise puts none.
pub fn put_all(period: u32, domains: [u32; 96], bytes: u32, buffer: &mut [u8]) -> bool
    requires { bytes ≤ 272 }
{
    if bytes as usize > buffer.len() {
        return false;
    }
    for k in 0..bytes {
        buffer[k as usize] = byte_at(period, domains, k);
    }
    true
}
