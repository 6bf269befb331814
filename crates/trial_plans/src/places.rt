// The files of the kinds 23 to 25, made for the sums along the chain: how many records are taken of each is known.
use super::cases::Case;
use trial_kit::spoiled::Spot;
use trial_kit::{chain, draw, rest, spoiled, values};

// Where the walk ends: behind so many records, and with a refusal of 4 to 9 or 11 that is put in there, or at the chain's end.
#[derive(Clone, Copy)]
struct Stop {
    taken: u32,
    fault: Option<u32>,
}

// In kind 25 the chain ends after 0 to 16 records, and has no fault.
fn stop_of(c: Case) -> Stop {
    if c.kind == 25 {
        return Stop {
            taken: c.number % 17,
            fault: None,
        };
    }
    let fault = match c.number % 7 {
        6 => 11,
        k => 4 + k,
    };
    Stop {
        taken: spoiled::place(fault, c.number / 7),
        fault: Some(fault),
    }
}

// The plan's style: sixteen domains whose reservations come to P in kind 23, mostly to more in 24, and in 25 to either or to
// 65,536.
fn style_of(c: Case) -> values::Kind {
    match c.kind {
        23 => values::Kind::Whole,
        24 => values::Kind::Over,
        _ => match c.number / 17 % 3 {
            0 => values::Kind::Whole,
            1 => values::Kind::Over,
            _ => values::Kind::Full,
        },
    }
}

// Puts the file of a case and answers its length: a chain of sixteen domains, and a record that may be behind it. Where there
// is no fault, what the chain is cut from is cleared.
pub fn put(file: &mut [u8], c: Case) -> u32 {
    let records = 18 + draw::upto(c.seed, 5, 46);
    let p = values::drawn(c.seed, style_of(c));
    let laid = chain::lay(file, p, records, c.seed);
    let Stop { taken, fault } = stop_of(c);
    match fault {
        Some(fault) => spoiled::put_spot(file, laid, Spot { fault, taken }, c.seed),
        None => {
            chain::end_chain(file, laid, taken);
            rest::clear(file);
        }
    }
    records * 16
}

// Whether the model takes as many records as are to be taken, and tells the fault that was put in; of other kinds nothing
// is known.
pub fn holds(file: &[u8], c: Case) -> bool {
    match c.kind {
        23..=25 => (),
        _ => return true,
    }
    let s = stop_of(c);
    let told = s
        .fault
        .map_or(true, |fault| model_plans::read(file).number == fault);
    told && model_plans::sums(file).records == s.taken
}
