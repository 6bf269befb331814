// The sum of steps of a state, put at its bounds and off them. Ways 0 to 3 are the least, one less, the most and one more; the
// others 0, all 32 bits, 65,536 more than the sum is, and 0 less the sum; both go round.
// A way is a number and no enum: it is drawn.
use super::forms;

pub const LEAST: u32 = 0;

// The sum in a way, where so many slots are idle of those decided: 17 each, and the others up to 16.
fn sum_in(idle: u64, decided: u64, sum: u64, way: u32) -> u64 {
    let least = idle % 65536 * 17;
    let most = idle % 65536 + decided % 65536 * 16;
    match way % 8 {
        0 => least,
        1 => (least + 4294967295) % 4294967296,
        2 => most,
        3 => most + 1,
        4 => 0,
        5 => 4294967295,
        6 => sum.wrapping_add(65536),
        _ => 0u64.wrapping_sub(sum),
    }
}

pub fn put_sum(words: &mut [u64], way: u32) {
    let idle = forms::word(words, 3);
    let decided = forms::word(words, 1);
    let sum = forms::word(words, 7);
    forms::put(words, 7, sum_in(idle, decided, sum, way));
}

// The first of ways 0 to 3 in which the sum stands, or 4.
pub fn edge(words: &[u64]) -> usize {
    let idle = forms::word(words, 3);
    let decided = forms::word(words, 1);
    let sum = forms::word(words, 7);
    (0..4)
        .position(|way| sum == sum_in(idle, decided, sum, way))
        .unwrap_or(4)
}
