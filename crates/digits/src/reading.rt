// Seventeen digits as two masks.
ghost use Rattle.std.specs.Prelude.{◌+◌, ◌<◌, ◌≤◌, length};
ghost use Rattle.std.specs.Option.{IfSome};
ghost use Rattle.digits.specs.Lanes.{Laid, Offered};

use super::lanes;

// Digits as masks, bit n for the digit of number n: of accesses, and of writebacks.
#[derive(Clone, Copy)]
pub struct Masks {
    pub access: u32,
    pub writeback: u32,
}

// In each of eight bytes: the digit 0, and the bits that no digit up to 3 changes in it.
const ZEROS: u64 = 0x3030303030303030;

const OTHERS: u64 = 0xfcfcfcfcfcfcfcfc;

// A bit, eight bits and eight bits side by side.
fn lay(first: u32, low: u32, high: u32) -> u32
    requires { (first < 2) × (low < 256) × (high < 256) }
    ensures { Laid first low high result }
{
    first + (low + high * 256) * 2
}

// The digit of best effort and the sixteen of the domains. Of a digit up to 3, bit 0 offers an access and bit 1 a writeback; 3 would
// offer both.
pub fn offers(b: &[u8], at: usize) -> Option<Masks>
    requires { at + 17 ≤ length b.now }
    ensures { IfSome result (λ m. Offered b.now at m.access m.writeback) }
{
    let best = u32::from(b[at]) ^ 48;
    let low = lanes::word(b, at + 1) ^ ZEROS;
    let high = lanes::word(b, at + 9) ^ ZEROS;
    let others = (low | high) & OTHERS;
    if others != 0 {
        return None;
    }
    if best > 3 {
        return None;
    }
    let l = lanes::fold(low);
    let h = lanes::fold(high);
    let access = lay(best & 1, lanes::gather(l), lanes::gather(h));
    let writeback = lay(best >> 1, lanes::gather(l >> 1), lanes::gather(h >> 1));
    let twice = access & writeback;
    if twice != 0 {
        return None;
    }
    Some(Masks { access, writeback })
}
