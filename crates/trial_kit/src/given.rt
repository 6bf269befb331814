// Plan files given as text lines: a record more of six numbers, of which the second is a domain number, and 256 more where it
// is marked; a byte; or the file's bytes. The first byte tells which.
use super::{bytes, draw, lines};

// One record more.
fn put_record(file: &mut [u8], size: usize, given: &[u8], at: usize) -> usize {
    let mut numbers = [0u32; 6];
    for k in 0..6 {
        numbers[k] = lines::small(given, at, 5 + 6 * k, 5);
    }
    bytes::put_record(file, (size / 16 % 64) as u32, numbers);
    size.wrapping_add(16)
}

fn put_byte(file: &mut [u8], given: &[u8], at: usize) {
    bytes::put(
        file,
        lines::small(given, at, 3, 4) as usize,
        draw::low(lines::small(given, at, 8, 3)),
    );
}

// A line of the plan file; answers the bytes it then has.
pub fn put_in_file(file: &mut [u8], size: usize, given: &[u8], at: usize) -> usize {
    match lines::byte(given, at) {
        b'f' => put_record(file, size, given, at),
        b's' => lines::small(given, at, 5, 4) as usize,
        _ => {
            put_byte(file, given, at);
            size
        }
    }
}
