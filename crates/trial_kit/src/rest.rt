// The records of a plan file that its chain does not reach.
ghost use Rattle.std.specs.Prelude.{◌<◌};

use super::bytes;

// Whether each record is one that links lead to from record 0 on; behind the chain's end record 0 is reached again.
fn reached(file: &[u8]) -> [bool; 64] {
    let mut on = [false; 64];
    let mut at: u32 = 0;
    for _ in 0..64 {
        at = bytes::pair(file, at, bytes::link_offset(at));
        if at >= 64 {
            break;
        }
        on[at as usize] = true;
    }
    on
}

// The record from 1 up that is the given one, counted from 0, of those that the chain does not reach; 0 where so many are not,
// as a link to none is 0: callers put it as a record's number or tell it as a place.
pub fn nth(file: &[u8], n: u32) -> u32
    ensures { result < 64 }
{
    let on = reached(file);
    (1..64)
        .filter(|&k| on.get(k as usize) == Some(&false))
        .nth(n as usize)
        .unwrap_or(0)
}

// Puts all of these to zeros.
pub fn clear(file: &mut [u8]) {
    let on = reached(file);
    for k in 1..64 {
        if !on[k as usize] {
            bytes::put_record(file, k, [0, 0, 0, 0, 0, 0]);
        }
    }
}
