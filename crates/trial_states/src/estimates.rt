// Estimates of every sort: put into states, and told apart again.
ghost use Rattle.std.specs.Prelude.{◌<◌, ◌≤◌};

use super::calls::{Asks, Call};
use super::marks::Mark;
use super::{draws, forms, marks};
use model_calls::{floats, forecast};
use trial_kit::draw;

const SIGN: u64 = 9223372036854775808;

const INFINITY: u64 = 9218868437227405312;

// The bits of a whole number.
fn whole(n: u32) -> u64 {
    floats::bits_of(f64::from(n)).bits
}

// The bits of a quarter of a whole number.
fn quarter(n: u32) -> u64 {
    floats::bits_of(f64::from(n) * 0.25).bits
}

// Bits of a sort, where it needs one beside a whole number: 0 to 2 the number, the next float above and below; 3 and 4 both
// zeros, 5 to 7 subnormals, 8 a negative number, 9 and 10 both infinities, 11 and 12 the largest on both sides, 13 a fraction,
// 14 any bits, and 15 those of a NaN. A sort is a number and no enum: it is drawn.
pub fn bits(sort: u32, n: u32, drawn: u32) -> u64 {
    let digits = u64::from(drawn);
    match sort {
        0 => whole(n),
        1 => whole(n).wrapping_add(1),
        2 => whole(n).wrapping_sub(1),
        3 => 0,
        4 => SIGN,
        5 => 1 + digits % 4,
        6 => SIGN + 1 + digits,
        7 => 4503599627370495 - digits % 4,
        8 => SIGN | whole(n.wrapping_add(1)),
        9 => INFINITY,
        10 => SIGN + INFINITY,
        11 => INFINITY - 1 - digits,
        12 => SIGN + INFINITY - 1,
        13 => quarter(n % 65536 * 4 + 1 + drawn % 3),
        14 => digits * 4294967296 + digits,
        _ => INFINITY + 1 + digits,
    }
}

// The number of a domain's row, cut to sixteen bits.
fn number(words: &[u64], row: usize, column: usize) -> u32
    ensures { result < 65536 }
{
    (forms::word(words, 14 * (row % 17) + column % 14) % 65536) as u32
}

// The whole number that an estimate is put beside: the domain's passes, at which it rests, or one more, its Q, 4,096 or any.
fn beside(words: &[u64], row: usize, seed: u32) -> u32 {
    let passes = number(words, row, 6) + number(words, row, 7);
    let reservation = number(words, row, 1);
    match draw::upto(seed, 110, 6) {
        0 | 1 => passes,
        2 => passes + 1,
        3 => reservation,
        4 => 4096,
        _ => draw::upto(seed, 111, reservation + 1),
    }
}

// Puts an estimate of a sort at a domain; there is none in row 0.
fn put_sort(words: &mut [u64], row: usize, sort: u32, seed: u32) {
    if row == 0 {
        return;
    }
    let at = 14 * (row % 17);
    let n = beside(words, row, seed);
    forms::put(words, at + 12, 1);
    forms::put(words, at + 13, bits(sort, n, draw::draw(seed, 112)));
}

// Puts a marked domain's estimate, seven times in eight of a drawn sort, and else none.
fn put_drawn(words: &mut [u64], row: usize, seed: u32) {
    if draw::upto(seed, 114, 7) == 0 {
        forms::put(words, 14 * (row % 17) + 12, 0);
    } else {
        put_sort(words, row, draw::upto(seed, 115, 15), seed);
    }
}

// Marks a domain, three times in four, and puts its estimate if it is marked.
fn put_marked(words: &mut [u64], row: usize, seed: u32) {
    let at = 14 * (row % 17) + 11;
    let kept = forms::word(words, at);
    let mark = if draw::upto(seed, 113, 3) > 0 {
        1
    } else {
        kept
    };
    forms::put(words, at, mark);
    if mark != 0 {
        put_drawn(words, row, seed);
    }
}

// The same, if it is planned.
fn put_planned(words: &mut [u64], row: usize, seed: u32) {
    if forms::word(words, 14 * (row % 17)) != 0 {
        put_marked(words, row, seed);
    }
}

// Estimates of drawn sorts for the planned domains.
pub fn put_sorts(words: &mut [u64], seed: u32) {
    for n in 1..=16 {
        put_planned(words, n as usize, draw::draw(seed, n + 120));
    }
}

// An estimate of a drawn sort at one domain: at one that is planned and then not marked, at one that is marked, or at one that
// is not planned.
pub fn put_unmarked(words: &mut [u64], seed: u32) {
    let way = draw::upto(seed, 116, 3);
    let row = draws::domain_from(words, draw::upto(seed, 117, 15), way > 1);
    let kept = forms::word(words, 14 * row + 11);
    let mark = match way {
        2 => 0,
        3 => 1,
        _ => kept,
    };
    forms::put(words, 14 * row + 11, mark);
    put_sort(words, row, draw::upto(seed, 115, 15), seed);
}

// The sorts that are told apart, by number: none, a NaN, 0, a subnormal, a negative number, 4,096, another whole number, the
// next float above one, the next below one, any other above Q, and any other; then those that no close leaves: -0, and both
// infinities.

// The sort of a number above 0, of which the smallest whole number at or above it is given.
fn sort_above(given: u64, above: u32, reservation: u32) -> usize
    ensures { result ≤ 13 }
{
    if given == whole(above) {
        return if above == 4096 { 5 } else { 6 };
    }
    if given == whole(above.wrapping_sub(1)).wrapping_add(1) {
        return 7;
    }
    if given.wrapping_add(1) == whole(above) {
        return 8;
    }
    if above > reservation { 9 } else { 10 }
}

fn sort_of(given: u64, reservation: u32) -> usize
    ensures { result ≤ 13 }
{
    match given {
        0 => 2,
        SIGN => 11,
        INFINITY => 12,
        18442240474082181120 => 13,
        _ if given % SIGN < 4503599627370496 => 3,
        _ if given > SIGN => 4,
        _ => {
            let above = forecast::least_above(floats::float_of(given), 65535);
            sort_above(given, (above % 65536) as u32, reservation)
        }
    }
}

// The sort of a domain's estimate.
pub fn sort(words: &[u64], row: usize) -> usize
    ensures { result ≤ 13 }
{
    let at = 14 * (row % 17);
    match forms::word(words, at + 12) {
        0 => 0,
        1 => sort_of(forms::word(words, at + 13), number(words, row, 1)),
        _ => 1,
    }
}

// Whether a domain is marked.
pub fn is_marked(words: &[u64], row: usize) -> bool {
    forms::word(words, 14 * (row % 17) + 11) != 0
}

// What a domain with an estimate was left at a period's start: 0 of a Q of 0, none or all of a Q of 1; of a larger one none,
// some, all but one, or all.
pub fn need(words: &[u64], row: usize) -> usize
    ensures { result ≤ 6 }
{
    let left = number(words, row, 5);
    let all = number(words, row, 1);
    match (all, left) {
        (0, _) => 0,
        (1, 0) => 1,
        (1, _) => 2,
        (_, 0) => 3,
        _ if left == all => 6,
        _ if all.wrapping_sub(left) == 1 => 5,
        _ => 4,
    }
}

// The close of a period, from these words before its last slot and after: whether the next begins with a yield by forecast;
// whether a new plan drops estimates, and then is the plan in force again; whether a marked domain has reclaimed, and written
// back, in the period.
fn of_close(before: &[u64], after: &[u64]) -> [bool; 7] {
    let marked = marks::domains(before, Mark::Marked);
    let waits = forms::word(before, forms::WAITS) != 0;
    let drops = waits && marks::domains(before, Mark::Estimated) != 0;
    [
        marks::domains(after, Mark::Foreseen) != 0,
        drops,
        drops && forms::same_plans(before, forms::NEXT, forms::FORCE),
        (marks::domains(before, Mark::Reclaimed) & marked) != 0,
        (marks::domains(before, Mark::Writebacks) & marked) != 0,
        false,
        false,
    ]
}

// A yield: whether it is taken of a domain that has yielded by forecast too; whether it is refused with 23, and would not be of
// the claim and what is yielded already together.
fn of_yield(words: &[u64], c: Call, number: u32) -> [bool; 7] {
    let at = 14 * (c.domain % 17) as usize;
    let once = forms::word(words, at + 5).wrapping_add(forms::word(words, at + 8));
    let foreseen = forecast::need(words, at / 14) < forms::word(words, at + 1);
    let mut all = [false; 7];
    all[5] = number == 0 && foreseen;
    all[6] = number == 23 && foreseen && c.k <= once;
    all
}

// A call on these words, and the words after it, where a slot completes its period or not.
pub fn of_call(before: &[u64], after: &[u64], c: Call, number: u32, complete: bool) -> [bool; 7] {
    if complete {
        return of_close(before, after);
    }
    if c.asks == Asks::Yield {
        of_yield(before, c, number)
    } else {
        [false; 7]
    }
}

// A changed state, and whether it adds up: whether a planned domain without a mark has an estimate, whether an absent one has;
// whether there are estimates, and then a NaN, and the state adds up.
pub fn of_change(words: &[u64], adds: bool) -> [bool; 4] {
    let planned = marks::domains(words, Mark::Planned);
    let marked = marks::domains(words, Mark::Marked);
    let estimated = marks::domains(words, Mark::Estimated);
    [
        (estimated & planned & !marked) != 0,
        (estimated & !planned) != 0,
        adds && estimated != 0,
        adds && marks::domains(words, Mark::Nan) != 0,
    ]
}
