// One script line: a slot line, a yield line or neither.
ghost use Rattle.std.specs.Prelude.{◌≡◌, true, cond, List, ℕ, ◌-◌, ◌≤◌, length, position, eqb};
ghost use Rattle.script.specs.Line.{is_digit, digits_only, is_number, value_of, is_slot, offers_of, slot_meaning, yield_meaning, meaning_of, told as told_by, offers_in};
ghost use Rattle.script.specs.Inner.{number_in, numbers_in};

// What a line is: a slot line, whose offers went to the lent buffer; a yield line, with its domain and count; or neither, with the
// number that refuses it. (Document 01 names this enum, so the number is no fault of its own.)
#[derive(Clone, Copy)]
pub enum Line {
    Slot,
    Yield { domain: u64, count: u64 },
    Bad(u8),
}

// Is every byte a digit?
fn digits_only(part: &[u8]) -> bool
    ensures { result ≡ digits_only part.now }
{
    part.iter().all(u8::is_ascii_digit)
}

fn is_number(part: &[u8], most: usize) -> bool
    ensures { result ≡ is_number most part.now }
{
    1 <= part.len() && (part.len() <= most && digits_only(part))
}

// What a digit stands for.
fn figure(b: u8) -> u8
    requires { is_digit b ≡ true }
    ensures { result ≡ b - 48 }
{
    b - b'0'
}

// The number that at most nine digits write.
fn value(part: &[u8]) -> u64
    requires part_len_bound { length part.now ≤ 9 }
    requires part_value { digits_only part.now ≡ true }
    ensures { result ≡ value_of part.now }
{
    let mut n = 0;
    for &b in part {
        n = n * 10 + u64::from(figure(b));
    }
    n
}

// Where a byte first stands.
pub(crate) fn place_of(byte: u8, bytes: &[u8]) -> Option<usize>
    ensures { result ≡ position (λ b. eqb b byte) bytes.now }
{
    bytes.iter().position(|&b| b == byte)
}

// The number that bytes write, in at most so many digits.
fn read_number(part: &[u8], most: usize) -> Option<u64>
    requires { most ≤ 9 }
    ensures { result ≡ number_in most part.now }
{
    if !is_number(part, most) {
        return None;
    }
    Some(value(part))
}

// Two numbers that bytes write.
#[derive(Clone, Copy, Debug, PartialEq, Eq)]
pub struct Numbers {
    pub first: u64,
    pub second: u64,
}

// Two numbers with a space between them, of at most so many digits each.
pub fn read_numbers(bytes: &[u8], most: usize, more: usize) -> Option<Numbers>
    requires { (most ≤ 9) × (more ≤ 9) }
    ensures { result ≡ numbers_in most more bytes.now }
{
    let space = place_of(b' ', bytes)?;
    let first = read_number(&bytes[..space], most)?;
    let second = read_number(&bytes[space + 1..], more)?;
    Some(Numbers { first, second })
}

// What stands behind the letter and the space of a yield line.
fn read_yield(rest: &[u8]) -> Line
    ensures { (offers : List ℕ) → told_by result offers ≡ yield_meaning rest.now }
{
    let Some(n) = read_numbers(rest, 2, 4) else {
        return Line::Bad(41);
    };
    Line::Yield {
        domain: n.first,
        count: n.second,
    }
}

// The offers of seventeen digits.
fn copy_offers(digits: &[u8], offers: &mut [u8])
    requires digits_len { length digits.now ≡ 17 }
    requires offers_len { length offers.old ≡ 17 }
    requires digits_value { digits_only digits.now ≡ true }
    ensures { offers.new ≡ offers_of digits.now }
{
    // By index: behind a zip of iter_mut nothing is known of what was written.
    for (i, offer) in offers.iter_mut().enumerate() {
        *offer = figure(digits[i]);
    }
}

// What stands behind the letter and the space of a slot line.
fn read_slot(rest: &[u8], offers: &mut [u8; 17]) -> Line
    ensures told { told_by result offers.new ≡ slot_meaning rest.now }
    ensures offers { offers.new ≡ cond (is_slot rest.now) (offers_of rest.now) offers.old }
{
    if rest.len() != 17 || !digits_only(rest) {
        return Line::Bad(41);
    }
    copy_offers(rest, offers);
    Line::Slot
}

// Reads one line, without its byte 10.
pub fn read_line(line: &[u8], offers: &mut [u8; 17]) -> Line
    ensures told { told_by result offers.new ≡ meaning_of line.now }
    ensures offers { offers.new ≡ offers_in line.now offers.old }
{
    let [letter, b' ', rest @ ..] = line else {
        return Line::Bad(41);
    };
    match letter {
        b's' => read_slot(rest, offers),
        b'y' => read_yield(rest),
        _ => Line::Bad(41),
    }
}
