// The leftovers that files are refused for, or have beside another refusal, counted.
use super::{leftovers, seen};
use trial_kit::{bytes, counts};

// The place of the only byte of a record that is not zero; none where there are more.
fn alone(file: &[u8], record: u32) -> Option<u32> {
    let mut found = None;
    for offset in 0..16 {
        if bytes::get(file, bytes::place(record, offset)) != 0 {
            if found.is_some() {
                return None;
            }
            found = Some(offset);
        }
    }
    found
}

// Where a leftover stands, in the order of the printed row: in the first record, where the longest chain may be, behind it, or
// in the last record of all.
#[derive(Clone, Copy)]
enum Stood {
    First,
    AtChain,
    Behind,
    Last,
}

fn standing(record: u32) -> Stood {
    match record {
        1 => Stood::First,
        2..=16 => Stood::AtChain,
        17..=62 => Stood::Behind,
        _ => Stood::Last,
    }
}

// A file refused with 12.
fn count_twelve(file: &[u8], record: u32, seen: &mut [u32]) {
    let taken = plan::read_with_leftovers(file).is_ok();
    counts::raise(seen, seen::LEFTOVERS, 1);
    counts::raise_if(seen, seen::LEFTOVERS + 1, taken);
    counts::raise(seen, seen::LEFTOVERS + 2 + standing(record) as usize, 1);
    if let Some(offset) = alone(file, record) {
        counts::raise(seen, seen::LEFTOVERS + 6 + (offset % 16) as usize, 1);
    }
}

// A file of 64 records, after so many of which the chain ends, that is accepted, or refused with 12.
fn count_largest(records: u32, number: u32, seen: &mut [u32]) {
    let at = seen::LEFTOVERS + 33 + usize::from(number == 12);
    match records {
        0 => counts::raise(seen, at, 1),
        1 => counts::raise(seen, at + 2, 1),
        16 => counts::raise(seen, at + 4, 1),
        _ => (),
    }
}

// A file of any length, by its refusal.
fn count_size(file: &[u8], number: u32, seen: &mut [u32]) {
    match number {
        0 | 12 if file.len() == 1024 => count_largest(
            model_plans::sums(file).records,
            number,
            seen,
        ),
        _ => (),
    }
}

// A refusal of 1 to 11 in a file with a leftover.
fn count_beside(number: u32, kind: u32, seen: &mut [u32]) {
    if kind == leftovers::BESIDE {
        counts::raise(seen, seen::LEFTOVERS + 21 + (number % 12) as usize, 1);
    }
}

// Counts a file.
pub fn count_file(file: &[u8], kind: u32, seen: &mut [u32]) {
    let a = model_plans::read(file);
    let number = a.number;
    count_size(file, number, seen);
    match number {
        0 => (),
        12 => count_twelve(file, a.place, seen),
        _ => count_beside(number, kind, seen),
    }
}
