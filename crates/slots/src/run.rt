// Plain slot lines in a row: on numbers and lent tables, and from a state to a state.
ghost use Rattle.std.specs.Prelude.{◌≡◌, true, ◌≤◌, ◌<◌, length};
ghost use Rattle.regulator.specs.State.{adds_up};
ghost use Rattle.regulator.proofs.Laws.Keeping.{Kept as Sound};
ghost use Rattle.kept.specs.Numbers.{Kept, state_of, rest_of};
ghost use Rattle.slots.specs.Lines.{Carries};

use super::plain;
use super::plain::LINE;
use kept::{Limits, Numbers, Tables};
use regulator::State;

// The state after the lines, and the place behind them.
#[derive(Clone, Copy)]
pub struct Carried {
    pub state: State,
    pub at: usize,
}

// The numbers after the lines, and the place behind them.
#[derive(Clone, Copy)]
struct Ran {
    numbers: Numbers,
    at: usize,
}

// The plain slot lines of a part from a place on. The state lends its plan; its other numbers are those given and the tables.
fn run(s: State, given: Numbers, from: usize, part: &[u8], tables: &mut Tables) -> Ran
    requires from_in_bounds { from ≤ length part.now }
    requires kept { Kept s.plan.reclaimcap s.plan.writebackcap given tables.old }
    requires sound { Sound (state_of (rest_of s) given tables.old) × (given.decided < s.plan.period) }
    ensures { Carries part.now (state_of (rest_of s) given tables.old) from (state_of (rest_of s) result.numbers tables.new) result.at }
{
    let limits = Limits::of(s.plan);
    let allowed = plain::allowed_of(s.plan);
    let mut numbers = given;
    let mut at = from;
    // The place moves by lines, as long as a plain one stands there: no range counts it.
    while let Some(offers) = plain::offers(part, at, numbers, limits.period, allowed) {
        numbers = kept::slot(numbers, &limits, offers.access, offers.writeback, tables);
        at += LINE;
    }
    Ran { numbers, at }
}

// The plain slot lines of a part from a place on, from a state that adds up, as every state of a run does.
pub fn carry(s: State, from: usize, part: &[u8]) -> Carried
    requires from_in_bounds { from ≤ length part.now }
    requires s_value { adds_up s ≡ true }
    ensures { Carries part.now s from result.state result.at }
{
    let numbers = kept::loaded(s);
    let mut tables = Tables::of(s);
    let ran = run(s, numbers, from, part, &mut tables);
    let state = kept::stored(s, ran.numbers, tables);
    Carried { state, at: ran.at }
}
