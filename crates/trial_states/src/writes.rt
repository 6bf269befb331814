// What calls and changed states show of writebacks and their claims: yes or no for each line that is printed of it.
ghost use Rattle.std.specs.Prelude.{◌≤◌};

use super::calls::{Asks, Call};
use super::marks::Mark;
use super::{forms, marks};

// How a domain's writeback claim stands to what its reservation and its writebacks leave it.
#[derive(Clone, Copy, Debug, PartialEq, Eq)]
enum Stand {
    // One above or one below that where the writebacks are below the reservation.
    Above,
    Below,
    // 1 where they are equal to it, above 0 where they exceed it, 0 there.
    Equal,
    Beyond,
    Exceeded,
    // Above 0 at all.
    Claimed,
}

// Whether the domain whose row begins at a word stands so. The word is required to be inside its rows: a type for it would be
// made and taken apart at each use.
fn stands(words: &[u64], at: usize, how: Stand) -> bool
    requires { at ≤ 224 }
{
    let reserved = forms::word(words, at + 4);
    let writebacks = forms::word(words, at + 9);
    let claim = forms::word(words, at + 10);
    let all = claim.wrapping_add(writebacks);
    match how {
        Stand::Above => writebacks < reserved && all == reserved.wrapping_add(1),
        Stand::Below => writebacks < reserved && all.wrapping_add(1) == reserved,
        Stand::Equal => writebacks == reserved && claim == 1,
        Stand::Beyond => writebacks > reserved && claim > 0,
        Stand::Exceeded => writebacks > reserved && claim == 0,
        Stand::Claimed => claim > 0,
    }
}

// The domains that stand so, domain 1 as the lowest bit.
fn standing(words: &[u64], how: Stand) -> u32 {
    marks::those(|n| stands(words, 14 * n, how))
}

// The domains whose byte is this.
fn having(all: [u8; 18], value: u8) -> u32 {
    marks::those(|n| all[n] == value)
}

// What all domains have left of a claim, by its column: 5, or 10 of writebacks.
fn claims(words: &[u64], column: usize) -> u64
    requires { column ≤ 10 }
{
    (1..=16).fold(
        0u64,
        |sum, n| sum.wrapping_add(forms::word(words, 14 * n + column)),
    )
}

// A decided slot on these words with these verdicts: whether a writeback is granted on claim; without, while access claim is
// left; with no claim of either kind; whether one is 6 while access claim is left; whether writeback claims alone are waited
// on where some number is 6; whether loose is at most 0 and nobody waits, while a domain with access claim offers a writeback
// without claim; whether some number is 6 that would not be by access claims alone; whether a writeback is 3 while access
// claim is left.
fn of_slot(words: &[u64], offers: [u8; 18], verdicts: [u8; 18]) -> [bool; 9] {
    let writes = having(offers, 2);
    let reads = marks::domains(words, Mark::Claim);
    let claimed = standing(words, Stand::Claimed);
    let granted = having(verdicts, 1) & writes;
    let stopped = having(verdicts, 6);
    let some_stopped = stopped != 0 || verdicts[0] == 6;
    let access_waits = having(offers, 1) & reads;
    let free = writes & reads & !claimed;
    let decided = forms::word(words, 1).wrapping_add(claims(words, 5));
    let all = decided.wrapping_add(claims(words, 10));
    let nobody = (access_waits | (writes & claimed)) == 0;
    let tight = forms::word(words, forms::FORCE) <= all;
    [
        (granted & claimed) != 0,
        (granted & free) != 0,
        (granted & !claimed & !reads) != 0,
        (stopped & free) != 0,
        some_stopped && access_waits == 0,
        tight && nobody && free != 0,
        some_stopped && decided < forms::word(words, forms::FORCE),
        (having(verdicts, 3) & reads) != 0,
        false,
    ]
}

// Whether k is above a domain's claim, and at most both of its claims.
fn of_both(words: &[u64], domain: u64, k: u64) -> bool {
    let at = 14 * (domain % 17) as usize;
    let both_claims = forms::word(words, at + 5).wrapping_add(forms::word(words, at + 10));
    k > forms::word(words, at + 5) && k <= both_claims
}

// A call of a run: of a decided slot the marks above; last, whether a yield is refused with 23 that both claims would allow.
pub fn of_call(words: &[u64], c: Call, verdicts: [u8; 18], number: u32) -> [bool; 9] {
    let offers = c.offers;
    if c.asks == Asks::Slot && number == 0 {
        return of_slot(words, offers, verdicts);
    }
    let mut all = [false; 9];
    if c.asks == Asks::Yield && number == 23 {
        all[8] = of_both(words, c.domain, c.k);
    }
    all
}

// A changed state, and whether it adds up: whether some domain stands in each of the first four ways; whether one stands in
// the fifth and the state adds up.
pub fn of_change(words: &[u64], adds: bool) -> [bool; 5] {
    [
        standing(words, Stand::Above) != 0,
        standing(words, Stand::Below) != 0,
        standing(words, Stand::Equal) != 0,
        standing(words, Stand::Beyond) != 0,
        adds && standing(words, Stand::Exceeded) != 0,
    ]
}
