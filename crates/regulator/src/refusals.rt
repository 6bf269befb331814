// When a call on a state is refused: the first line of the table that applies.
ghost use Rattle.std.specs.Prelude.{◌≡◌, true, not, ◌&&◌, eqb, length};
ghost use Rattle.table.specs.Ranges.{some_below};
ghost use Rattle.regulator.specs.State.{adds_up};
ghost use Rattle.regulator.specs.Refusals.{slot_refusal_by, yield_refusal_by, hand_told_by, above_two, unplanned, offers_refusal, slot_refusal, no_domain, yield_refusal, hand_refusal};

use super::faults::{HandFault, SlotFault, YieldFault};
use super::state::State;
use plan::Plan;

// Is a byte of the offers above 2? (Offers stay a slice whose length is required, here and below: `slot` takes any, and of an array the
// public `rule` and `lowest_waiting` would ask more.)
fn any_above_two(offers: &[u8]) -> bool
    requires { length offers.now ≡ 17 }
    ensures { result ≡ some_below (above_two offers.now) 17 }
{
    offers.iter().any(|&offer| 2 < offer)
}

fn is_unplanned(offer: u8, planned: bool) -> bool
    ensures { result ≡ (not (eqb offer 0) && not planned) }
{
    offer != 0 && !planned
}

// Does a domain offer that is not planned?
fn any_unplanned(p: Plan, offers: &[u8]) -> bool
    requires { length offers.now ≡ 17 }
    ensures { result ≡ some_below (unplanned p offers.now) 16 }
{
    (0..16).any(|j| is_unplanned(offers[j + 1], p.planned[j]))
}

// Are offers and a buffer of length `room` refused under a plan?
fn check_offers(p: Plan, offers: &[u8], room: usize) -> Result<(), SlotFault>
    ensures { slot_refusal_by result ≡ offers_refusal p offers.now room }
{
    if offers.len() != 17 || room != 17 {
        return Err(SlotFault::Length);
    }
    if any_above_two(offers) {
        return Err(SlotFault::AboveTwo);
    }
    if any_unplanned(p, offers) {
        return Err(SlotFault::Unplanned);
    }
    Ok(())
}

// Is a slot call refused on a state that adds up? (Required here and below, as in calls.rt.)
pub fn check_slot(s: State, offers: &[u8], room: usize) -> Result<(), SlotFault>
    requires { adds_up s ≡ true }
    ensures { slot_refusal_by result ≡ slot_refusal s offers.now room }
{
    if s.closed == u32::MAX {
        return Err(SlotFault::LastPeriod);
    }
    check_offers(s.plan, offers, room)
}

// Is a number 0, above 16, or that of a domain that is not planned?
pub fn is_no_domain(p: Plan, domain: u64) -> bool
    ensures { result ≡ no_domain p domain }
{
    plan::is_outside(16, domain) || !p.planned[(domain - 1) as usize]
}

// Is a yield refused on a state that adds up?
pub(crate) fn check_yield(s: State, domain: u64, k: u64) -> Result<(), YieldFault>
    requires { adds_up s ≡ true }
    ensures { yield_refusal_by result ≡ yield_refusal s domain k }
{
    if s.closed == u32::MAX {
        return Err(YieldFault::LastPeriod);
    }
    if is_no_domain(s.plan, domain) {
        return Err(YieldFault::NoDomain);
    }
    if k == 0 {
        return Err(YieldFault::Nothing);
    }
    if u64::from(s.claim[(domain - 1) as usize]) < k {
        return Err(YieldFault::AboveClaim);
    }
    Ok(())
}

// Is a plan handed in refused on a state that adds up?
pub(crate) fn check_hand_in(s: State, p: Plan) -> Result<(), HandFault>
    requires { adds_up s ≡ true }
    ensures { hand_told_by result ≡ hand_refusal s p }
{
    if s.closed == u32::MAX {
        return Err(HandFault::LastPeriod);
    }
    plan::check(p)?;
    Ok(())
}
