// Drawn numbers, fixed by a seed: the same in every run.
ghost use Rattle.std.specs.Prelude.{◌<◌, ◌≤◌};

// The low 32 bits of a product with an odd constant.
fn times(x: u32) -> u32 {
    x.wrapping_mul(2146121005)
}

fn mixed(x: u32) -> u32 {
    let a = times(x ^ (x >> 16));
    let b = times(a ^ (a >> 15));
    b ^ (b >> 16)
}

// The number drawn for a seed at a salt; each draw of one seed has a salt of its own.
pub fn draw(seed: u32, salt: u32) -> u32 {
    mixed(mixed(seed.wrapping_add(1)).wrapping_add(salt))
}

// A number from 0 to the most given.
pub fn upto(seed: u32, salt: u32, most: u32) -> u32
    ensures { result ≤ most }
{
    if most < 4294967295 {
        draw(seed, salt) % (most + 1)
    } else {
        most
    }
}

pub fn low(x: u32) -> u8 {
    (x % 256) as u8
}

// The numbers below n, at most 64 of them, in a drawn order.
pub fn shuffled(seed: u32, salt: u32, n: u32) -> [u32; 64] {
    let mut order = [0u32; 64];
    for i in 0..n.min(64) {
        let j = upto(seed, salt.wrapping_add(i), i) as usize;
        order[i as usize] = order[j];
        order[j] = i;
    }
    order
}

// The number at a place of a row of those below n.
fn in_row(n: u32, place: u32, falling: bool) -> u32 {
    if falling && place < n {
        n - 1 - place
    } else {
        place
    }
}

// The numbers below 64 in rising order, or first those below n in falling order.
pub fn row(n: u32, falling: bool) -> [u32; 64] {
    let mut order = [0u32; 64];
    for i in 0..64 {
        order[i as usize] = in_row(n, i, falling);
    }
    order
}

// An entry of such an order.
pub fn entry(order: [u32; 64], k: u32) -> u32
    ensures { result < 64 }
{
    let at = (k % 64) as usize;
    order[at] % 64
}
