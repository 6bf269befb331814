// The calls: opening, slots, yields and plans handed in, for any state and any arguments.
ghost use Rattle.std.specs.Prelude.{◌≡◌, true, ◌-◌, length};
ghost use Rattle.regulator.specs.State.{adds_up, yielding};
ghost use Rattle.regulator.specs.Turn.{granted as granted_in, steps_of, verdicts as verdicts_of};
ghost use Rattle.regulator.specs.Refusals.{slot_refusal, yield_refusal};
ghost use Rattle.regulator.specs.Close.{slot_by};
ghost use Rattle.regulator.specs.Calls.{open_plan, one_slot, slot_of, verdicts_in, yield_of, hand_of, opening_by, answer_by, yielding_by, handing_by};

use super::close::Slot;
use super::faults::{HandFault, SlotFault, YieldFault};
use super::state::State;
use super::turn::Picked;
use super::{close, forecast, grant, refusals, state, turn, verdict};
use plan::{Plan, Refused};

// Opens a plan.
#[tactic(auto, using(crate::proofs::Laws::Telling::plan_refused), unfolding(crate::specs::Calls::open_plan))]
pub fn open(p: Plan) -> Result<State, Refused>
    ensures { opening_by result ≡ open_plan p }
{
    plan::check(p)?;
    Ok(state::begin(p, 0, 0, forecast::no_estimates()))
}

// The verdicts of a slot, to the lent buffer, and the number that is granted, or 17, with its steps.
fn tell_verdicts(s: State, offers: &[u8], verdicts: &mut [u8]) -> Picked
    requires { slot_refusal s offers.now (length verdicts.old) ≡ 0 }
    ensures granted { result.number ≡ granted_in s offers.now }
    ensures steps { result.steps ≡ steps_of s offers.now }
    ensures shown { verdicts.new ≡ verdicts_of s offers.now }
{
    let blocked = verdict::is_blocked(s, offers);
    verdict::rule(s, offers, blocked, verdicts);
    let picked = turn::pick(verdicts, s.turn);
    turn::mark(verdicts, picked.number);
    picked
}

// The slot of a call that is not refused, from the number that is granted in it, or 17, and its steps.
pub fn grant_slot(s: State, offers: &[u8], number: usize, steps: u32) -> Slot
    requires offers_value { slot_refusal s offers.now 17 ≡ 0 }
    requires number_value { number ≡ granted_in s offers.now }
    requires steps_value { steps ≡ steps_of s offers.now }
    ensures { slot_by result ≡ one_slot s offers.now }
{
    let t = grant::grant_number(s, offers, number);
    let next = grant::go_on(t, number, steps);
    close::end(next, steps)
}

// One slot, of a call that is not refused.
fn decide(s: State, offers: &[u8], verdicts: &mut [u8]) -> Slot
    requires { slot_refusal s offers.now (length verdicts.old) ≡ 0 }
    ensures answer { slot_by result ≡ one_slot s offers.now }
    ensures shown { verdicts.new ≡ verdicts_of s offers.now }
{
    let picked = tell_verdicts(s, offers, verdicts);
    grant_slot(s, offers, picked.number, picked.steps)
}

// A slot call on a state that adds up, as every state of a run does. That is required here and of the two calls like it, and no type
// of its own: `slot` takes any state and answers one, so each call would wrap it and take it out again.
pub fn run_slot(s: State, offers: &[u8], verdicts: &mut [u8]) -> Result<Slot, SlotFault>
    requires { adds_up s ≡ true }
    ensures answer { answer_by s result ≡ slot_of s offers.now (length verdicts.old) }
    ensures shown { verdicts.new ≡ verdicts_in s offers.now verdicts.old }
{
    refusals::check_slot(s, offers, verdicts.len())?;
    Ok(decide(s, offers, verdicts))
}

// One slot: the verdicts go to the lent buffer.
pub fn slot(s: State, offers: &[u8], verdicts: &mut [u8]) -> Result<Slot, SlotFault>
    ensures answer { answer_by s result ≡ slot_of s offers.now (length verdicts.old) }
    ensures shown { verdicts.new ≡ verdicts_in s offers.now verdicts.old }
{
    if !state::adds_up(s) {
        return Err(SlotFault::Unsound);
    }
    run_slot(s, offers, verdicts)
}

// A yield that is not refused.
fn give(s: State, domain: u64, k: u64) -> State
    requires { yield_refusal s domain k ≡ 0 }
    ensures { result ≡ yielding s (domain - 1) k }
{
    state::move_claim(s, (domain - 1) as usize, k as u16)
}

// A yield on a state that adds up, as every state of a run does.
pub fn run_yield(s: State, domain: u64, k: u64) -> Result<State, YieldFault>
    requires { adds_up s ≡ true }
    ensures { yielding_by s result ≡ yield_of s domain k }
{
    refusals::check_yield(s, domain, k)?;
    let t = give(s, domain, k);
    Ok(t)
}

// Moves k of a domain's claim to the stock.
pub fn yield_claim(s: State, domain: u64, k: u64) -> Result<State, YieldFault>
    ensures { yielding_by s result ≡ yield_of s domain k }
{
    if !state::adds_up(s) {
        return Err(YieldFault::Unsound);
    }
    run_yield(s, domain, k)
}

// A plan handed in on a state that adds up, as every state of a run does.
pub fn run_hand_in(s: State, p: Plan) -> Result<State, HandFault>
    requires { adds_up s ≡ true }
    ensures { handing_by s result ≡ hand_of s p }
{
    refusals::check_hand_in(s, p)?;
    let next = state::let_wait(s, p);
    Ok(next)
}

// Hands in a plan, which takes force when the open period ends.
pub fn hand_in(s: State, p: Plan) -> Result<State, HandFault>
    ensures { handing_by s result ≡ hand_of s p }
{
    if !state::adds_up(s) {
        return Err(HandFault::Unsound);
    }
    run_hand_in(s, p)
}
