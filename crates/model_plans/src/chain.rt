// The chain of domain records, walked anew from record 0 for each question about it.
use super::{Refusal, record, words};

// The record that is so many steps along the chain; record 0 after none.
pub fn nth(file: &[u8], steps: u32) -> u32 {
    (0..steps).fold(0, |at, _| record::link(file, at))
}

// Whether one of the first records of the chain, as many as there are steps, passes a test.
fn any<F: Fn(u32) -> bool>(file: &[u8], steps: u32, passes: F) -> bool
    requires { F.IsAlwaysCallable passes }
{
    let mut at = 0;
    for _ in 0..steps {
        at = record::link(file, at);
        if passes(at) {
            return true;
        }
    }
    false
}

// Whether one of them is the record given.
pub fn meets(file: &[u8], steps: u32, index: u32) -> bool {
    any(file, steps, |at| at == index)
}

// Whether one of them has the domain number of the record given.
fn repeats_number(file: &[u8], steps: u32, index: u32) -> bool {
    let domain = record::byte(file, index, 2);
    any(file, steps, |at| record::byte(file, at, 2) == domain)
}

// Whether a record's mark is 0 or 1, and its unlisted bytes are zero.
fn rest_right(file: &[u8], index: u32) -> bool {
    record::byte(file, index, 3) <= 1 && record::zeros(file, index, 12, 16)
}

// Whether Q, R and W of a record are at most the period.
fn within(file: &[u8], index: u32, period: u32) -> bool {
    [4, 6, 8]
        .iter()
        .all(|&offset| record::number(file, index, offset) <= period)
}

// The first refusal of an index that is followed after so many steps: 4 to 9 or 11.
pub fn fault(file: &[u8], steps: u32, index: u32, period: u32) -> Option<u32> {
    if !record::exists(file, index) {
        return Some(4);
    }
    if meets(file, steps, index) {
        return Some(5);
    }
    let domain = record::byte(file, index, 2);
    if domain == 0 || domain > 16 {
        return Some(6);
    }
    if repeats_number(file, steps, index) {
        return Some(7);
    }
    amounts_fault(file, index, period)
}

// 8 where the mark or an unlisted byte is wrong, 9 where Q, R or W is above the period, then 11 where the writeback reservation
// is above W.
fn amounts_fault(file: &[u8], index: u32, period: u32) -> Option<u32> {
    if !rest_right(file, index) {
        return Some(8);
    }
    if !within(file, index, period) {
        return Some(9);
    }
    (record::number(file, index, 10) > record::number(file, index, 8)).then_some(11)
}

fn with_record(domains: [u32; 96], file: &[u8], index: u32) -> [u32; 96] {
    let q = record::number(file, index, 4);
    let r = record::number(file, index, 6);
    let w = record::number(file, index, 8);
    let v = record::number(file, index, 10);
    let domain = record::byte(file, index, 2);
    let with = words::with_domain(domains, domain, q, r, w, v);
    words::with_mark(with, domain, record::byte(file, index, 3))
}

// Follows the chain to its end, and answers the domains on it, or the first refusal. No chain that is accepted has more records
// than a file.
pub fn walk(file: &[u8], period: u32) -> Result<[u32; 96], Refusal> {
    let mut domains = [0u32; 96];
    let mut at = record::link(file, 0);
    for steps in 0..64 {
        if at == 0 {
            break;
        }
        if let Some(number) = fault(file, steps, at, period) {
            return Err(Refusal { number, place: at });
        }
        let next = with_record(domains, file, at);
        domains = next;
        at = record::link(file, at);
    }
    Ok(domains)
}

// The lowest record from 1 up that is none of the first records of the chain, as many as there are steps, and is not all zero.
// A record that the file does not have reads as zeros.
pub fn lowest_leftover(file: &[u8], steps: u32) -> Option<u32> {
    (1..64).find(|&index| is_leftover(file, steps, index))
}

fn is_leftover(file: &[u8], steps: u32, index: u32) -> bool {
    !record::zeros(file, index, 0, 16) && !meets(file, steps, index)
}
