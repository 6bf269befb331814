// A script line judged byte by byte. Where it is neither form, what was read of its numbers counts no more.

// What was read of a line so far.
#[derive(Clone, Copy, Debug, PartialEq, Eq)]
pub enum Form {
    Nothing,
    // `s`.
    Slot,
    // Its space, and so many offers.
    Offers(u32),
    // `y`.
    Yield,
    // Its space, and so many digits of a domain.
    Domain(u32),
    // The space behind it, and so many digits of a k.
    Count(u32),
    Neither,
}

// A whole slot line.
pub const SLOT: Form = Form::Offers(17);

// The form, and the numbers of a yield line so far.
#[derive(Clone, Copy)]
pub struct Line {
    pub form: Form,
    pub domain: u64,
    pub k: u64,
}

pub fn nothing() -> Line {
    Line {
        form: Form::Nothing,
        domain: 0,
        k: 0,
    }
}

// Whether a line is a whole yield line.
pub fn is_yield(form: Form) -> bool {
    matches!(form, Form::Count(1..=4))
}

// The value of a digit.
pub fn digit(b: u8) -> Option<u8> {
    match b {
        b'0'..=b'9' => Some(b - b'0'),
        _ => None,
    }
}

// The form after one byte more.
fn after(form: Form, b: u8) -> Form {
    match (form, b) {
        (Form::Nothing, b's') => Form::Slot,
        (Form::Nothing, b'y') => Form::Yield,
        (Form::Slot, b' ') => Form::Offers(0),
        (Form::Offers(n @ 0..=16), b'0'..=b'9') => Form::Offers(n + 1),
        (Form::Yield, b' ') => Form::Domain(0),
        (Form::Domain(n @ 0..=1), b'0'..=b'9') => Form::Domain(n + 1),
        (Form::Domain(1..=2), b' ') => Form::Count(0),
        (Form::Count(n @ 0..=3), b'0'..=b'9') => Form::Count(n + 1),
        _ => Form::Neither,
    }
}

// A number with one digit more; none here has more than nine.
pub fn tenfold(x: u64, digit: u8) -> u64 {
    x % 100000000 * 10 + u64::from(digit)
}

// The line with one byte more, an offer of which goes to the lent slice.
pub fn with_byte(l: Line, b: u8, offers: &mut [u8]) -> Line {
    let mut next = l;
    next.form = after(l.form, b);
    if let Some(d) = digit(b) {
        match l.form {
            Form::Offers(n) => put_offer(offers, n as usize, d),
            Form::Domain(_) => next.domain = tenfold(l.domain, d),
            Form::Count(_) => next.k = tenfold(l.k, d),
            _ => {}
        }
    }
    next
}

fn put_offer(offers: &mut [u8], n: usize, value: u8) {
    if n < offers.len() {
        offers[n] = value;
    }
}

// A line without its byte 10: what it is, and where it is a slot line its offers.
pub fn read_line(line: &[u8], offers: &mut [u8]) -> Line {
    let mut l = nothing();
    for &b in line {
        l = with_byte(l, b, offers);
    }
    l
}
