// The plan value, and the check of a plan that is held as a value.
ghost use Rattle.std.specs.Prelude.{◌≡◌, cond, ◌<◌, ◌≤◌};
ghost use Rattle.plan.specs.Value.{outside, above, holds_absent, above_cap, out_of_range, over_cap, IsLowest, reserved, plan_refusal, refusal_by, no_domains, with_domain, reserves};

use crate::refusal::{Fault, Refused};

// A plan: the period, and of each domain number n at index n - 1 whether it is planned, its reservation Q, reclaim cap R,
// writeback cap W and writeback reservation, and whether it is marked to yield by forecast.
#[derive(Clone, Copy, PartialEq, Eq)]
pub struct Plan {
    pub period: u16,
    pub planned: [bool; 16],
    pub reservation: [u16; 16],
    pub reclaimcap: [u16; 16],
    pub writebackcap: [u16; 16],
    pub writebackreservation: [u16; 16],
    pub marked: [bool; 16],
}

// A domain by itself, as a record of a plan file states it.
#[derive(Clone, Copy)]
pub struct Domain {
    pub number: u8,
    pub reservation: u16,
    pub reclaimcap: u16,
    pub writebackcap: u16,
    pub writebackreservation: u16,
    pub marked: bool,
}

// Would the plan be accepted as a value? If not, what it is refused for.
pub fn check(p: Plan) -> Result<(), Refused>
    ensures { refusal_by result ≡ plan_refusal p }
{
    if is_outside(4096, u64::from(p.period)) {
        return Err(Refused {
            fault: Fault::Period,
            place: 0,
        });
    }
    if let Some(j) = lowest_out_of_range(p) {
        return Err(Refused {
            fault: Fault::AbovePeriod,
            place: (j + 1) as u16,
        });
    }
    if let Some(j) = lowest_over_cap(p) {
        return Err(Refused {
            fault: Fault::AboveCap,
            place: (j + 1) as u16,
        });
    }
    if u32::from(p.period) < all_reserved(p) {
        return Err(Refused {
            fault: Fault::Sum,
            place: 0,
        });
    }
    Ok(())
}

// Is a number 0 or above a bound?
pub fn is_outside(most: u64, n: u64) -> bool
    ensures { result ≡ outside most n }
{
    n == 0 || most < n
}

// Is one of a domain's three numbers above what they may be at most?
pub fn any_above(most: u64, q: u64, r: u64, w: u64) -> bool
    ensures { result ≡ above most q r w }
{
    most < q || (most < r || most < w)
}

// What the numbers of a domain may be at most.
fn most_of(planned: bool, period: u16) -> u16
    ensures { result ≡ cond planned period 0 }
{
    if planned { period } else { 0 }
}

// Is the domain absent, and has a writeback reservation or a mark?
fn holds_absent(planned: bool, reservation: u16, marked: bool) -> bool
    ensures { result ≡ holds_absent planned reservation marked }
{
    !planned && (0 < reservation || marked)
}

// Is the writeback reservation above the writeback cap?
pub fn is_above_cap(cap: u64, reservation: u64) -> bool
    ensures { result ≡ above_cap cap reservation }
{
    cap < reservation
}

// Are the numbers of the domain at index j out of range?
fn is_out_of_range(p: Plan, j: usize) -> bool
    requires { j < 16 }
    ensures { result ≡ out_of_range p j }
{
    let most = u64::from(most_of(p.planned[j], p.period));
    let q = u64::from(p.reservation[j]);
    let r = u64::from(p.reclaimcap[j]);
    let w = u64::from(p.writebackcap[j]);
    any_above(most, q, r, w) || holds_absent(p.planned[j], p.writebackreservation[j], p.marked[j])
}

// Is the writeback reservation of the domain at index j above its cap?
fn is_over_cap(p: Plan, j: usize) -> bool
    requires { j < 16 }
    ensures { result ≡ over_cap p j }
{
    is_above_cap(
        u64::from(p.writebackcap[j]),
        u64::from(p.writebackreservation[j]),
    )
}

// The lowest index of a domain whose numbers are out of range. Two searches, and not one that is handed its test: its contract would
// have to speak of what that test answers at each index.
fn lowest_out_of_range(p: Plan) -> Option<usize>
    ensures { IsLowest (out_of_range p) 16 result }
{
    (0..16).find(|&j| is_out_of_range(p, j))
}

// The lowest index of a domain whose writeback reservation is above its cap.
fn lowest_over_cap(p: Plan) -> Option<usize>
    ensures { IsLowest (over_cap p) 16 result }
{
    (0..16).find(|&j| is_over_cap(p, j))
}

// What all domains reserve together.
pub fn all_reserved(p: Plan) -> u32
    ensures { result ≡ reserved p }
{
    let q = p.reservation;
    let w = p.writebackreservation;
    table::total(q) + table::total(w)
}

// A plan of a period, without domains.
pub fn no_domains(period: u16) -> Plan
    ensures { result ≡ no_domains period }
{
    Plan {
        period,
        planned: [false; 16],
        reservation: [0; 16],
        reclaimcap: [0; 16],
        writebackcap: [0; 16],
        writebackreservation: [0; 16],
        marked: [false; 16],
    }
}

// A plan with one domain more.
pub(crate) fn with_domain(p: Plan, d: Domain) -> Plan
    requires { (1 ≤ d.number) × (d.number ≤ 16) }
    ensures { result ≡ with_domain p d }
{
    let at = (d.number - 1) as usize;
    let mut next = p;
    next.planned[at] = true;
    next.reservation[at] = d.reservation;
    next.reclaimcap[at] = d.reclaimcap;
    next.writebackcap[at] = d.writebackcap;
    next.writebackreservation[at] = d.writebackreservation;
    next.marked[at] = d.marked;
    next
}

// What a domain reserves.
pub(crate) fn reserves(d: Domain) -> u32
    ensures { (result ≡ reserves d) × (result ≤ 131070) }
{
    u32::from(d.reservation) + u32::from(d.writebackreservation)
}
