// The calls of each kind: which edit, and with which numbers, by what the model reads in the file.
use super::Case;
use edit::NewDomain;
use model_plans::words;
use trial_kit::draw;

// An edit: the domain of a number is dropped, one is added, or the file is compacted or rescued.
#[derive(Clone, Copy)]
pub enum Call {
    Drop(u64),
    Add(NewDomain),
    Compact,
    Rescue,
}

// A number above 16 that is a small one where it is cut to 8, 16 or 32 bits, and others that are refused.
fn wide_number(n: u32, seed: u32) -> u64 {
    let small = u64::from(n);
    match draw::upto(seed, 900, 9) {
        0 => 0,
        1 => 17,
        2 => 256,
        3 | 4 => 256 + small,
        5 => 65536 + small,
        6 | 7 => 4294967296 + small,
        8 => u64::MAX,
        _ => u64::from(draw::draw(seed, 901)) + 17,
    }
}

// P, or a value above it, some of which are at most P where they are cut to 16 or 32 bits.
fn large(period: u32, seed: u32) -> u64 {
    let small = u64::from(draw::upto(seed, 902, period));
    match draw::upto(seed, 903, 9) {
        0 | 1 => u64::from(period) + 1,
        9 => u64::from(period),
        2 => 65535,
        3 => 65536,
        4 => 65537,
        5 => 4294967297,
        6 => u64::MAX,
        7 => 65536 + small,
        _ => 4294967296 + small,
    }
}

// A number of the plan, or any of 1 to 16 where it has none.
fn present(domains: [u32; 96], seed: u32) -> u32 {
    let t = words::count(1, domains);
    words::ranked(domains, 1 + draw::upto(seed, 904, t.present) % 16).unwrap_or(
        1 + draw::upto(seed, 905, 15),
    )
}

// A number that the plan has not, or any where it has all.
fn absent(domains: [u32; 96], seed: u32) -> u32 {
    let first = draw::upto(seed, 906, 15);
    let found = (0..16)
        .map(|k| (first + k) % 16 + 1)
        .find(|&n| words::word(domains, n, 0) == 0);
    found.unwrap_or(first + 1)
}

// Which faults a domain to add has, each of them named by its number: 6, 7, 9, 11 and 10.
#[derive(Clone, Copy)]
struct Faults {
    number: bool,
    present: bool,
    amount: bool,
    writes: bool,
    sum: bool,
}

impl Faults {
    // The set of these bits, of which 1 is 6, 2 is 7, 4 is 9, 8 is 11 and 16 is 10.
    fn of(set: u32) -> Faults {
        Faults {
            number: set % 2 == 1,
            present: set / 2 % 2 == 1,
            amount: set / 4 % 2 == 1,
            writes: set / 8 % 2 == 1,
            sum: set / 16 % 2 == 1,
        }
    }
}

// What both reservations come to: at most what is left of the period, or more where 10 is a fault; exact where the sum of all
// comes to P, or to P + 1.
fn reserved(left: u32, period: u32, over: bool, exact: bool, seed: u32) -> u32 {
    let more = draw::upto(seed, 911, period.saturating_sub(1));
    if exact {
        return left.wrapping_add(u32::from(over));
    }
    if over {
        left.wrapping_add(more).wrapping_add(1)
    } else {
        draw::upto(seed, 912, left)
    }
}

// An amount, or a large value in its place.
fn amount(large_one: bool, x: u32, period: u32, seed: u32) -> u64 {
    if large_one {
        large(period, seed)
    } else {
        u64::from(x)
    }
}

// The writeback reservation, or where 11 is a fault one above W, mostly by 1.
fn reservation(above: bool, v: u32, w: u32, period: u32, seed: u32) -> u64 {
    if !above {
        return u64::from(v);
    }
    if draw::upto(seed, 914, 1) == 0 {
        large(period, draw::draw(seed, 915))
    } else {
        u64::from(w) + 1
    }
}

// The number to add: one that the plan has not, or has, or a wide one that is such where it is cut.
fn number_of(domains: [u32; 96], faults: Faults, seed: u32) -> u64 {
    let n = if faults.present {
        present(domains, seed)
    } else {
        absent(domains, seed)
    };
    if faults.number {
        wide_number(n, seed)
    } else {
        u64::from(n)
    }
}

fn add(file: &[u8], faults: Faults, exact: bool, seed: u32) -> Call {
    let a = model_plans::read_with_leftovers(file);
    let domains = a.domains;
    let period = a.period;
    let t = words::count(period, domains);
    let left = period.saturating_sub((t.reservations % 65537) as u32);
    let all = reserved(left, period, faults.sum, exact, seed);
    let v = draw::upto(seed, 907, all.min(period));
    let w = v.wrapping_add(draw::upto(seed, 908, period.saturating_sub(v)));
    let r = draw::upto(seed, 909, period);
    let above = faults.amount.then(|| draw::upto(seed, 913, 2));
    Call::Add(NewDomain {
        number: number_of(domains, faults, seed),
        reservation: amount(above == Some(0), all.saturating_sub(v), period, seed),
        reclaimcap: amount(above == Some(1), r, period, seed),
        writebackcap: amount(above == Some(2), w, period, seed),
        writebackreservation: reservation(faults.writes, v, w, period, seed),
        marked: draw::upto(seed, 910, 1) == 0,
    })
}

// Dropping: a domain of the plan, or a number above 16.
fn drop_present(file: &[u8], wide: bool, seed: u32) -> Call {
    let a = model_plans::read_with_leftovers(file);
    let domains = a.domains;
    let n = present(domains, seed);
    Call::Drop(if wide {
        wide_number(n, seed)
    } else {
        u64::from(n)
    })
}

// Dropping each number from 0 to 17 in turn, and then wide ones.
fn drop_each(file: &[u8], turn: u32, seed: u32) -> Call {
    match turn % 27 {
        k @ 0..=17 => Call::Drop(u64::from(k)),
        _ => drop_present(file, true, seed),
    }
}

// One fault of the amounts.
fn one_amount(turn: u32) -> Faults {
    Faults::of(match turn % 3 {
        0 => 4,
        1 => 8,
        _ => 16,
    })
}

// Dropping, adding or compacting in turn, mostly with numbers that do.
fn mixed(file: &[u8], turn: u32, seed: u32) -> Call {
    let wrong = draw::upto(seed, 916, 5) == 0;
    match turn % 3 {
        0 => drop_present(file, wrong, seed),
        1 => {
            let set = if wrong { draw::upto(seed, 917, 31) } else { 0 };
            add(file, Faults::of(set), wrong, seed)
        }
        _ => Call::Compact,
    }
}

// A sequence: of eight edits about three drop, four add and one compacts.
fn sequence(file: &[u8], seed: u32) -> Call {
    match draw::upto(seed, 918, 7) {
        0..=2 => mixed(file, 0, seed),
        7 => Call::Compact,
        _ => mixed(file, 1, seed),
    }
}

// A file that reading refuses, rescued after one edit more, and then edited and rescued again.
fn around_rescue(file: &[u8], k: u32, seed: u32) -> Call {
    match k {
        0 => mixed(file, draw::upto(seed, 920, 2), seed),
        1 | 5 | 9 => Call::Rescue,
        _ => sequence(file, seed),
    }
}

// Edits of a file that reading refuses: with a domain that may be there, with 72, 6, 7, 9, 11 or 10 beside, and none.
fn beside(file: &[u8], k: u32, seed: u32) -> Call {
    match k {
        0 => drop_present(file, false, seed),
        1 => drop_present(file, true, seed),
        2 => Call::Drop(0),
        3 => add(file, Faults::of(0), false, seed),
        4 => add(file, Faults::of(1), false, seed),
        5 => add(file, Faults::of(2), false, seed),
        6 => add(file, Faults::of(28), false, seed),
        _ => Call::Compact,
    }
}

// How many edits a file of the kind has, one after the other.
pub fn edits(kind: u32) -> u32 {
    match kind {
        1..=7 | 18..=28 => 1,
        8 => 8,
        9 | 10 => 5,
        29 => 10,
        16 => 24,
        17 => 32,
        _ => 3,
    }
}

// Edit k of a case, drawn by what its file is by then.
pub fn drawn(file: &[u8], of: Case, k: u32) -> Call {
    let case = of.case;
    let kind = of.kind;
    let seed = draw::draw(of.seed, k.wrapping_add(1000));
    match kind {
        1 => drop_present(file, false, seed),
        2 => drop_each(file, case, seed),
        3 => add(file, Faults::of(0), false, seed),
        4 => add(file, one_amount(case), false, seed),
        5 => add(file, Faults::of(case % 2 * 16), true, seed),
        6 => add(file, Faults::of(case % 32), case / 64 % 2 == 0, seed),
        7 => add(file, Faults::of(0), true, seed),
        8 => beside(file, k, seed),
        16 => sequence(file, seed),
        17 => mixed(file, k % 2, draw::draw(seed, 919)),
        18..=28 => Call::Rescue,
        29 => around_rescue(file, k, seed),
        _ => mixed(file, k, seed),
    }
}
