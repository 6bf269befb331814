// The marks of plan values and of files, and the refusals that they draw, counted.
use super::seen;
use model_plans::words;
use plan::Plan;
use trial_kit::{bytes, counts, values};

// How many domains are marked.
fn marked(domains: [u32; 96]) -> u32 {
    (1..=16).fold(0, |sum, n| words::word(domains, n, 5).wrapping_add(sum))
}

// Whether a domain is absent and has a mark, and no number above zero.
fn mark_alone(domains: [u32; 96], n: u32) -> bool {
    (0..5).all(|which| words::word(domains, n, which) == 0) && words::word(domains, n, 5) != 0
}

// Whether one of the domains is such.
fn any_alone(domains: [u32; 96]) -> bool {
    (1..=16).any(|n| mark_alone(domains, n))
}

// Counts a plan value.
pub fn count_value(p: Plan, seen: &mut [u32]) {
    let domains = values::words(p);
    let t = model_plans::check(u32::from(p.period), domains);
    match t.number {
        0 => counts::raise(seen, seen::MARKS, marked(domains)),
        9 => count_nine(domains, t.place, seen),
        _ => (),
    }
}

// A value refused with 9 at a domain: for its mark alone, or beside such a domain of a higher number.
fn count_nine(domains: [u32; 96], place: u32, seen: &mut [u32]) {
    if mark_alone(domains, place) {
        counts::raise(seen, seen::MARKS + 1, 1);
    } else {
        counts::raise_if(seen, seen::MARKS + 2, any_alone(domains));
    }
}

fn byte(file: &[u8], record: u32, offset: u32) -> u8 {
    bytes::get(file, bytes::place(record, offset))
}

// Where a file is refused with 8 at a record whose bytes 12 to 15 are zero, its mark is 2 or more.
fn count_eight(file: &[u8], record: u32, seen: &mut [u32]) {
    let zeros = (12..16).all(|offset| byte(file, record, offset) == 0);
    let at = if byte(file, record, 3) == 2 {
        seen::MARKS + 4
    } else {
        seen::MARKS + 5
    };
    counts::raise_if(seen, at, zeros);
}

// Counts a file.
pub fn count_file(file: &[u8], seen: &mut [u32]) {
    let a = model_plans::read(file);
    let domains = a.domains;
    match a.number {
        0 => counts::raise(seen, seen::MARKS + 3, marked(domains)),
        8 => count_eight(file, a.place, seen),
        _ => (),
    }
}
