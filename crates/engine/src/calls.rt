// The slot call by masks, for any state and any arguments. What is not decided by masks is the first engine's. The calls stand beside
// the first engine's and do not go into one generic call: each is proved by itself, and then that they answer alike.
ghost use Rattle.std.specs.Prelude.{◌≡◌, true, length};
ghost use Rattle.regulator.specs.State.{adds_up};
ghost use Rattle.regulator.specs.Verdict.{blocked as blocked_in};
ghost use Rattle.regulator.specs.Turn.{granted as granted_in, steps_of, verdicts as verdicts_of};
ghost use Rattle.regulator.specs.Refusals.{slot_refusal, slot_refusal_by};
ghost use Rattle.regulator.specs.Close.{slot_by};
ghost use Rattle.regulator.specs.Calls.{one_slot, slot_of, verdicts_in, answer_by};

use super::{masks, turn};
use regulator::{Slot, SlotFault, State};

// What masks tell of a slot: whether it is blocked, the number that is granted, or 17, and its steps.
#[derive(Clone, Copy)]
struct Asked {
    blocked: bool,
    number: usize,
    steps: u32,
}

// The number that is granted in a slot that is not refused.
fn ask(s: State, offers: &[u8]) -> Asked
    requires { slot_refusal s offers.now 17 ≡ 0 }
    ensures blocked { result.blocked ≡ blocked_in s offers.now }
    ensures number { result.number ≡ granted_in s offers.now }
    ensures steps { result.steps ≡ steps_of s offers.now }
{
    let access = masks::offering(offers, 1);
    let writeback = masks::offering(offers, 2);
    let m = masks::masks_of(
        s.claim,
        s.writebackclaim,
        s.reclaimed,
        s.writebacks,
        s.plan.reclaimcap,
        s.plan.writebackcap,
    );
    let wait = masks::waiting(access, writeback, m.has, m.back);
    let claims = table::total(s.claim) + table::total(s.writebackclaim);
    let spoken = u32::from(s.decided) + claims;
    let blocked = masks::is_blocked(u32::from(s.plan.period), spoken, wait);
    let pass = masks::passing(wait, access, writeback, m, s.stock != 0, blocked);
    let picked = turn::pick(pass, s.turn as u32);
    Asked {
        blocked,
        number: picked.number as usize,
        steps: picked.steps,
    }
}

// A slot call on a state that adds up, as every state of a run does, with no buffer for the verdicts.
pub fn run_slot(s: State, offers: &[u8]) -> Result<Slot, SlotFault>
    requires { adds_up s ≡ true }
    ensures { answer_by s result ≡ slot_of s offers.now 17 }
{
    regulator::check_slot(s, offers, 17)?;
    let a = ask(s, offers);
    Ok(regulator::grant_slot(s, offers, a.number, a.steps))
}

// Is a slot call refused?
fn check(s: State, offers: &[u8], room: usize) -> Result<(), SlotFault>
    ensures { slot_refusal_by result ≡ slot_refusal s offers.now room }
{
    if !regulator::adds_up(s) {
        return Err(SlotFault::Unsound);
    }
    regulator::check_slot(s, offers, room)
}

// One slot, of a call that is not refused.
fn decide(s: State, offers: &[u8], verdicts: &mut [u8]) -> Slot
    requires { slot_refusal s offers.now (length verdicts.old) ≡ 0 }
    ensures answer { slot_by result ≡ one_slot s offers.now }
    ensures shown { verdicts.new ≡ verdicts_of s offers.now }
{
    let a = ask(s, offers);
    regulator::rule(s, offers, a.blocked, verdicts);
    regulator::mark(verdicts, a.number);
    regulator::grant_slot(s, offers, a.number, a.steps)
}

// One slot: the verdicts go to the lent buffer.
pub fn slot(s: State, offers: &[u8], verdicts: &mut [u8]) -> Result<Slot, SlotFault>
    ensures answer { answer_by s result ≡ slot_of s offers.now (length verdicts.old) }
    ensures shown { verdicts.new ≡ verdicts_in s offers.now verdicts.old }
{
    check(s, offers, verdicts.len())?;
    Ok(decide(s, offers, verdicts))
}
