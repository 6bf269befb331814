// What each number is told in a slot, before one of those that pass is granted: 2 for one that passes.
ghost use Rattle.std.specs.Prelude.{◌≡◌, not, ◌&&◌, ◌<◌, ◌≤◌, eqb, length, pos, ◌-ℤ◌, unwrap_or, IfSome};
ghost use Rattle.table.specs.Sums.{nth};
ghost use Rattle.table.specs.Ranges.{lowest};
ghost use Rattle.regulator.specs.Verdict.{at_cap, claim_of, waits, waiting, loose as loose_of, blocked as blocked_in, ruling, best_ruling, domain_ruling, ruling_number};
ghost use Rattle.regulator.specs.Turn.{rulings};

use super::state::State;

// What a number is told before one of those that pass is granted. They stand in the order of their numbers, so that a number is a
// place and costs no table; 1 is the granted number's own, which `mark` puts and no ruling tells.
#[derive(Clone, Copy, Debug, PartialEq, Eq)]
enum Ruling {
    NoOffer,
    Granted,
    Passes,
    AtCap,
    ReclaimedFull,
    NoStock,
    Blocked,
}

impl Ruling {
    // Its number in the verdict buffer.
    fn number(self) -> u8
        ensures { result ≡ ruling_number self }
    {
        self as u8
    }
}

// A writeback with writebacks = W?
fn is_at_cap(offer: u8, writebacks: u16, w: u16) -> bool
    ensures { result ≡ at_cap offer writebacks w }
{
    offer == 2 && writebacks == w
}

// The claim of the kind that is offered.
pub fn claim_of(offer: u8, claim: u16, writebackclaim: u16) -> u16
    ensures { result ≡ claim_of offer claim writebackclaim }
{
    if offer == 2 { writebackclaim } else { claim }
}

// Is a domain of these numbers waiting on claim?
fn is_waiting(offer: u8, claim: u16, writebackclaim: u16) -> bool
    ensures { result ≡ waits offer claim writebackclaim }
{
    let left = claim_of(offer, claim, writebackclaim);
    offer != 0 && 0 < left
}

// The index of the lowest domain that is waiting on claim. (The length of the offers is required here and below, as in refusals.rt.)
pub fn lowest_waiting(s: State, offers: &[u8]) -> Option<usize>
    requires { length offers.now ≡ 17 }
    ensures lowest { unwrap_or result 16 ≡ lowest (waiting s offers.now) 16 }
    ensures below { IfSome result (λ j. j < 16) }
{
    (0..16).find(|&j| is_waiting(offers[j + 1], s.claim[j], s.writebackclaim[j]))
}

// The slots left less the summed claims.
fn difference(left: u16, claims: u32) -> i32
    requires { claims ≤ 2097120 }
    ensures { result ≡ pos left -ℤ pos claims }
{
    i32::from(left) - claims as i32
}

// Loose: it may be below zero.
pub fn loose(s: State) -> i32
    requires { s.decided ≤ s.plan.period }
    ensures { result ≡ loose_of s }
{
    let claims = table::total(s.claim) + table::total(s.writebackclaim);
    difference(s.plan.period - s.decided, claims)
}

pub(crate) fn is_blocked(s: State, offers: &[u8]) -> bool
    requires decided_le_period { s.decided ≤ s.plan.period }
    requires offers_len { length offers.now ≡ 17 }
    ensures { result ≡ blocked_in s offers.now }
{
    loose(s) <= 0 && lowest_waiting(s, offers).is_some()
}

// The first line that applies, of the lines' tests.
fn first_line(
    none: bool,
    capped: bool,
    claimed: bool,
    full: bool,
    empty: bool,
    blocked: bool,
) -> Ruling
    ensures { ruling_number result ≡ ruling none capped claimed full empty blocked }
{
    if none {
        Ruling::NoOffer
    } else if capped {
        Ruling::AtCap
    } else if claimed {
        Ruling::Passes
    } else if full {
        Ruling::ReclaimedFull
    } else if empty {
        Ruling::NoStock
    } else if blocked {
        Ruling::Blocked
    } else {
        Ruling::Passes
    }
}

fn rule_best(offer: u8, blocked: bool) -> Ruling
    ensures { ruling_number result ≡ best_ruling offer blocked }
{
    first_line(offer == 0, false, false, false, false, blocked)
}

// Does a test that only an access is held to apply?
fn of_access(offer: u8, test: bool) -> bool
    ensures { result ≡ (not (eqb offer 2) && test) }
{
    offer != 2 && test
}

// The ruling of the domain at index j.
fn rule_domain(s: &State, j: usize, offer: u8, blocked: bool) -> Ruling
    requires { j < 16 }
    ensures { ruling_number result ≡ domain_ruling offer (nth s.now.claim j) (nth s.now.reclaimed j) (nth s.now.writebacks j) (nth s.now.writebackclaim j) (nth s.now.plan.reclaimcap j) (nth s.now.plan.writebackcap j) s.now.stock blocked }
{
    let capped = is_at_cap(offer, s.writebacks[j], s.plan.writebackcap[j]);
    let left = claim_of(offer, s.claim[j], s.writebackclaim[j]);
    let full = of_access(offer, s.reclaimed[j] == s.plan.reclaimcap[j]);
    let empty = of_access(offer, s.stock == 0);
    first_line(offer == 0, capped, 0 < left, full, empty, blocked)
}

// The rulings of all numbers, to a lent buffer.
pub fn rule(s: State, offers: &[u8], blocked: bool, verdicts: &mut [u8])
    requires blocked_value { blocked ≡ blocked_in s offers.now }
    requires offers_len { length offers.now ≡ 17 }
    requires verdicts_len { length verdicts.old ≡ 17 }
    ensures { verdicts.new ≡ rulings s offers.now }
{
    verdicts[0] = rule_best(offers[0], blocked).number();
    for j in 0..16 {
        verdicts[j + 1] = rule_domain(&s, j, offers[j + 1], blocked).number();
    }
}
