// The lines of a lent text: their bytes, digits and numbers, and where they end.
ghost use Rattle.std.specs.Prelude.{◌<◌, ◌≤◌, length};

use std::io;

pub fn byte(text: &[u8], at: usize) -> u8 {
    text.get(at).copied().unwrap_or(10)
}

pub fn digit(text: &[u8], from: usize, k: usize) -> u8 {
    let b = byte(text, from.wrapping_add(k));
    if b.is_ascii_digit() { b - b'0' } else { 0 }
}

// The number of so many digits, at an offset of the line that begins at a place; 0 behind the line's end.
pub fn number(text: &[u8], at: usize, offset: usize, digits: usize) -> u64 {
    let from = at.wrapping_add(offset);
    if from < line_end(text, at) {
        digits_from(text, from, digits)
    } else {
        0
    }
}

fn digits_from(text: &[u8], from: usize, digits: usize) -> u64 {
    (0..digits).fold(0, |value, k| {
        value % 100000000000 * 10 + u64::from(digit(text, from, k))
    })
}

// The number at an offset of such a line, of as many digits as stand there.
pub fn figure(text: &[u8], at: usize, offset: usize) -> u64 {
    let digits = (0..20)
        .find(|&k| !byte(text, place(at, offset, k)).is_ascii_digit())
        .unwrap_or(20);
    number(text, at, offset, digits)
}

fn place(at: usize, offset: usize, k: usize) -> usize {
    at.wrapping_add(offset).wrapping_add(k)
}

// The bits that the line's last digits are, up to sixteen hexadecimal ones, from the highest on; those left out are zeros.
pub fn bits(text: &[u8], at: usize, offset: usize) -> u64 {
    let end = line_end(text, at);
    (0..16).fold(0, |value, k| {
        value % 1152921504606846976 * 16 + nibble_at(text, place(at, offset, k), end)
    })
}

// The digit at a place before the line's end, and 0 from there on. The low four bits of a figure's byte are the figure.
fn nibble_at(text: &[u8], at: usize, end: usize) -> u64
    ensures { result < 16 }
{
    let b = byte(text, at);
    if at >= end {
        return 0;
    }
    if b.is_ascii_digit() {
        u64::from(b) % 16
    } else {
        (u64::from(b) + 9) % 16
    }
}

pub fn small(text: &[u8], at: usize, offset: usize, digits: usize) -> u32
    ensures { result < 65536 }
{
    (number(text, at, offset, digits) % 65536) as u32
}

// The end of the line that begins at a place: where its byte 10 stands, or the text's end.
pub fn line_end(text: &[u8], from: usize) -> usize
    ensures { result ≤ length text.now }
{
    (from..text.len())
        .find(|&at| text[at] == 10)
        .unwrap_or(text.len())
}

// Where the next line begins.
pub fn after_line(text: &[u8], from: usize) -> usize
    requires { from < length text.now }
    ensures { from < result }
{
    let end = line_end(text, from);
    if from <= end { end + 1 } else { text.len() }
}

// The text from its second line on.
pub fn next_line(text: &[u8]) -> &[u8]
    requires { 0 < length text.now }
    ensures { length result.now < length text.now }
{
    let from = after_line(text, 0);
    text.get(from..).unwrap_or(&[])
}

// Where line k of a text begins, from 0 on; the text's end where it has not so many.
fn line_start(text: &[u8], k: usize) -> usize {
    let mut at = 0;
    for _ in 0..k {
        if at >= text.len() {
            break;
        }
        at = after_line(text, at);
    }
    at
}

// Prints line k of a text, from 0 on.
pub fn say_nth(rt: &impl Print, text: &[u8], k: usize) -> io::Result<()> {
    say_line(rt, text, line_start(text, k))
}

// Prints a line from a place on.
pub fn say_line(rt: &impl Print, text: &[u8], from: usize) -> io::Result<()> {
    let end = line_end(text, from);
    if from <= end {
        rt.write_all(&text[from..end])?;
    }
    Ok(())
}
