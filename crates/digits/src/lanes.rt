// Eight bytes as one number, and one bit of each side by side.
ghost use Rattle.std.specs.Prelude.{◌≡◌, ◌+◌, ◌<◌, ◌≤◌, length};
ghost use Rattle.digits.specs.Lanes.{Lanes, from, Folded, Gathered};

// Eight bytes as one number, lowest first. The compiler makes one load of it.
pub fn word(b: &[u8], at: usize) -> u64
    requires { at + 8 ≤ length b.now }
    ensures { Lanes (from b.now at) 8 result }
{
    u64::from_le_bytes([
        b[at],
        b[at + 1],
        b[at + 2],
        b[at + 3],
        b[at + 4],
        b[at + 5],
        b[at + 6],
        b[at + 7],
    ])
}

// The upper four bytes laid between the lower four. Where no byte is above 3, the two bits of byte i are then at 8 * i, and those
// of byte i + 4 at 8 * i + 4.
pub fn fold(x: u64) -> u64
    ensures { Folded x result }
{
    x | (x >> 28)
}

// Bits 0, 8, 16 and 24 side by side, then bits 4, 12, 20 and 28. The product adds them up shifted left by 7, 14, 21 and 28: no two
// bits come to one place, so nothing is carried, and from bit 28 on the eight stand in this order.
pub fn gather(x: u64) -> u32
    ensures { Gathered x result }
{
    (((x & 0x11111111) * 0x10204080) >> 28 & 255) as u32
}
