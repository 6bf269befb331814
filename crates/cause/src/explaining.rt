// The call that tells the verdict of a number and its cause, for any state and any arguments.
ghost use Rattle.std.specs.Prelude.{◌≡◌, ℕ, ◌≤◌, eqb, length};
ghost use Rattle.table.specs.Sums.{nth};
ghost use Rattle.table.specs.Ranges.{lowest};
ghost use Rattle.regulator.specs.Turn.{verdicts as verdicts_of};
ghost use Rattle.regulator.specs.Refusals.{slot_refusal};
ghost use Rattle.cause.specs.Cause.{word, word_of, cause_of, told_by};
ghost use Rattle.cause.specs.Explaining.{no_number, explain_of, explain_number, explained_by};
ghost use Rattle.cause.specs.declared.explaining.ExplainFault.TheVariants.{Slot};

use super::cause;
use super::cause::Told;
use plan::Plan;
use regulator::{SlotFault, State};

// What is answered: the verdict, and what is told of it.
#[derive(Clone, Copy, Debug, PartialEq, Eq)]
pub struct Explained {
    pub verdict: u8,
    pub cause: Told,
}

// What the call is refused for: what the slot is refused for, or a number that is neither 0 nor planned.
#[derive(Clone, Copy, Debug, PartialEq, Eq)]
pub enum ExplainFault {
    Slot(SlotFault),
    Number,
}

impl From<SlotFault> for ExplainFault {
    ghost from_gives = { λ e f. f ≡ Slot e };

    fn from(e: SlotFault) -> ExplainFault {
        ExplainFault::Slot(e)
    }
}

impl ExplainFault {
    // Its number in the tables.
    pub fn number(self) -> u8
        ensures { result ≡ explain_number self }
    {
        match self {
            ExplainFault::Slot(fault) => fault.number(),
            ExplainFault::Number => 62,
        }
    }
}

// Is a number neither 0 nor planned?
fn is_no_number(p: Plan, number: u64) -> bool
    ensures { result ≡ no_number p number }
{
    number != 0 && regulator::is_no_domain(p, number)
}

// The number with verdict 1, or 17.
fn granted(verdicts: &[u8]) -> usize
    requires { length verdicts.now ≡ 17 }
    ensures { result ≡ lowest (λ (n : ℕ). eqb (nth verdicts.now n) 1) 17 }
{
    verdicts
        .iter()
        .position(|&verdict| verdict == 1)
        .unwrap_or(17)
}

// The word of a pass of a number.
fn word_of(s: State, offers: &[u8], number: usize) -> Told
    requires offers_len { length offers.now ≡ 17 }
    requires number_bound { number ≤ 16 }
    ensures { told_by result ≡ word (word_of s offers.now number) }
{
    let j = number.saturating_sub(1);
    let offer = offers[number];
    let left = regulator::claim_of(offer, s.claim[j], s.writebackclaim[j]);
    cause::tell_word(number == 0, 0 < left, offer == 2)
}

// The cause of a number's verdict, in a slot that is not refused. (Of best effort, which has no caps, none is told.)
fn cause_of(s: State, offers: &[u8], verdicts: &[u8], number: usize) -> Told
    requires offers_value { slot_refusal s offers.now 17 ≡ 0 }
    requires verdicts_value { verdicts.now ≡ verdicts_of s offers.now }
    requires number_bound { number ≤ 16 }
    ensures { told_by result ≡ cause_of s offers.now number }
{
    let j = number.saturating_sub(1);
    match verdicts[number] {
        0 => Told::Nothing,
        1 => word_of(s, offers, number),
        2 => Told::Granted(granted(verdicts)),
        3 => Told::Cap(s.plan.writebackcap[j]),
        4 => Told::Cap(s.plan.reclaimcap[j]),
        5 => Told::Totals {
            yielded: table::total(s.yielded),
            reclaimed: table::total(s.reclaimed),
        },
        _ => Told::Blocked {
            loose: regulator::loose(s),
            domain: regulator::lowest_waiting(s, offers).unwrap_or(16) + 1,
        },
    }
}

// The verdict of a number and its cause, in the slot that a state and offers decide.
pub fn explain(s: State, offers: &[u8], number: u64) -> Result<Explained, ExplainFault>
    ensures { explained_by result ≡ explain_of s offers.now number }
{
    let mut verdicts = [0u8; 17];
    regulator::slot(s, offers, &mut verdicts)?;
    if is_no_number(s.plan, number) {
        return Err(ExplainFault::Number);
    }
    let n = number as usize;
    let cause = cause_of(s, offers, &verdicts, n);
    Ok(Explained {
        verdict: verdicts[n],
        cause,
    })
}
