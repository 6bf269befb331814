// The end of a slot: a period's counts, and the next period.
ghost use Rattle.std.specs.Prelude.{◌≡◌, ◌<◌};
ghost use Rattle.table.specs.Sums.{sum};
ghost use Rattle.regulator.specs.Close.{counts_of, slot_by, next_plan, next_tracked, ended};

use super::forecast::Tracked;
use super::state::State;
use super::{forecast, state};
use plan::Plan;

// The counts of a period.
#[derive(Clone, Copy, Debug, PartialEq, Eq)]
pub struct Counts {
    pub idle: u16,
    pub best: u16,
    pub reserved: [u16; 16],
    pub reclaimed: [u16; 16],
    pub yielded: [u16; 16],
    pub writebacks: [u16; 16],
    pub steps: u32,
}

// A decided slot: the state after it, the counts of a period that it completed, and how many numbers were asked and passed by
// before the granted one, 17 in an idle slot.
#[derive(Clone, Copy, PartialEq)]
pub struct Slot {
    pub state: State,
    pub counts: Option<Counts>,
    pub steps: u32,
}

fn counts_of(s: State) -> Counts
    ensures { result ≡ counts_of s }
{
    let reserved = s.reserved;
    let reclaimed = s.reclaimed;
    let yielded = s.yielded;
    let writebacks = s.writebacks;
    Counts {
        idle: s.idle,
        best: s.best,
        reserved,
        reclaimed,
        yielded,
        writebacks,
        steps: s.steps,
    }
}

// The plan of the next period: the one that waits, or else the one in force.
fn next_plan(s: State) -> Plan
    ensures { result ≡ next_plan s }
{
    if s.waiting.given {
        s.waiting.plan
    } else {
        s.plan
    }
}

// The estimates of the next period: none under a new plan.
fn next_tracked(s: State) -> [Tracked; 16]
    ensures { result ≡ next_tracked s }
{
    if s.waiting.given {
        return forecast::no_estimates();
    }
    forecast::close_all(s.plan.marked, s.tracked, s.reserved, s.reclaimed)
}

// What becomes of a decided slot.
pub(crate) fn end(s: State, steps: u32) -> Slot
    requires closed_bound { s.closed < 4294967295 }
    requires s_bound { sum (next_plan s).reservation < 65536 }
    ensures { slot_by result ≡ ended s steps }
{
    if s.decided != s.plan.period {
        return Slot {
            state: s,
            counts: None,
            steps,
        };
    }
    let counts = counts_of(s);
    let state = state::begin(next_plan(s), s.closed + 1, s.turn, next_tracked(s));
    Slot {
        state,
        counts: Some(counts),
        steps,
    }
}
