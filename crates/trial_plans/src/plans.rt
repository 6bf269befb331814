// The plan values of each kind, and the buffers lent for them.
use super::cases::Case;
use super::compare;
use plan::Plan;
use trial_kit::{plans, values};

// The plan of a case of the kinds 16 to 22, 27 and 29; those of 16 and 22 are accepted.
pub fn made(c: Case) -> Plan {
    let way = match c.kind {
        27 => 6,
        29 => 7,
        kind => kind.wrapping_sub(17),
    };
    plans::made(way, c.number, c.seed)
}

// The bytes that a plan needs, or 0 where it is refused.
fn needed(p: Plan) -> u32 {
    let mut whole = [0u8; 320];
    model_plans::write(u32::from(p.period), values::words(p), &mut whole).bytes
}

fn short(p: Plan, number: u32) -> u32 {
    let bytes = needed(p);
    match number % 7 {
        0 => 0,
        1 => 15,
        2 => 16,
        3 => bytes.wrapping_sub(1),
        4 => bytes,
        5 => bytes.wrapping_add(1),
        _ => compare::BUFFER,
    }
}

// How much of the buffer is lent: all of it in kind 16, and else each of the lengths around what is needed.
pub fn lent(p: Plan, c: Case) -> u32 {
    if c.kind == 16 {
        compare::BUFFER
    } else {
        short(p, c.number)
    }
}
