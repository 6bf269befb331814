// The state of a period: where it begins, whether it adds up, what a yield moves, and the plan that waits.
ghost use Rattle.std.specs.Prelude.{◌≡◌, ◌&&◌, ◌+◌, ◌-◌, ◌<◌, ◌≤◌};
ghost use Rattle.table.specs.Sums.{nth, sum};
ghost use Rattle.table.specs.Ranges.{every_below};
ghost use Rattle.plan.specs.Value.{no_domains};
ghost use Rattle.regulator.specs.Forecast.{no_estimates};
ghost use Rattle.regulator.specs.State.{begun, domain_adds_up, sums_add_up, steps_add_up, waiting_adds_up, adds_up, yielding, handing};

use super::forecast;
use super::forecast::Tracked;
use plan::Plan;

// The plan that waits for the end of the open period, or none: where `given` is false the plan beside it is not looked at. It is no
// Option, which would exclude states with such a plan beside: tests give them, and `hand_in`'s promise is of them too.
#[derive(Clone, Copy, PartialEq, Eq)]
pub struct Waiting {
    pub given: bool,
    pub plan: Plan,
}

// The state of a period. Index n - 1 of the arrays is domain number n; decided is the number of slots decided, closed of
// periods closed, best of best-effort passes, and steps of the numbers asked and passed by in the period; plan is the one in
// force, claim is of accesses, and writebackclaim of writebacks; tracked holds the estimates.
#[derive(Clone, Copy, PartialEq)]
pub struct State {
    pub plan: Plan,
    pub decided: u16,
    pub closed: u32,
    pub idle: u16,
    pub best: u16,
    pub stock: u16,
    pub turn: usize,
    pub claim: [u16; 16],
    pub reserved: [u16; 16],
    pub reclaimed: [u16; 16],
    pub yielded: [u16; 16],
    pub writebacks: [u16; 16],
    pub steps: u32,
    pub waiting: Waiting,
    pub writebackclaim: [u16; 16],
    pub tracked: [Tracked; 16],
}

// A period begins, and no plan waits.
pub(crate) fn begin(p: Plan, closed: u32, turn: usize, tracked: [Tracked; 16]) -> State
    requires { sum p.reservation < 65536 }
    ensures { result ≡ begun p closed turn tracked }
{
    let claim = forecast::start_claims(p.reservation, tracked);
    let yielded = forecast::left_over(p.reservation, claim);
    let stock = table::total(yielded) as u16;
    let writebackclaim = p.writebackreservation;
    State {
        plan: p,
        decided: 0,
        closed,
        idle: 0,
        best: 0,
        stock,
        turn,
        claim,
        reserved: [0; 16],
        reclaimed: [0; 16],
        yielded,
        writebacks: [0; 16],
        steps: 0,
        waiting: Waiting {
            given: false,
            plan: plan::no_domains(0),
        },
        writebackclaim,
        tracked,
    }
}

// The state of all zeros, which stands where no state was given.
pub fn no_state() -> State
    ensures { result ≡ begun (no_domains 0) 0 0 no_estimates }
{
    begin(plan::no_domains(0), 0, 0, forecast::no_estimates())
}

// Do the numbers of the domain at index j add up? (The index is required to be in the arrays, as in grant.rt.)
fn domain_adds_up(s: &State, j: usize) -> bool
    requires { j < 16 }
    ensures { result ≡ domain_adds_up s.now j }
{
    let p = &s.plan;
    let spread = u32::from(s.claim[j]) + u32::from(s.reserved[j]) + u32::from(s.yielded[j]);
    spread == u32::from(p.reservation[j])
        && s.reclaimed[j] <= p.reclaimcap[j]
        && s.writebacks[j] <= p.writebackcap[j]
        && s.writebackclaim[j] == p.writebackreservation[j].saturating_sub(s.writebacks[j])
}

fn domains_add_up(s: &State) -> bool
    ensures { result ≡ every_below (domain_adds_up s.now) 16 }
{
    (0..16).all(|j| domain_adds_up(s, j))
}

// Do the sums of a state add up?
fn sums_add_up(s: &State) -> bool
    ensures { result ≡ sums_add_up s.now.stock s.now.idle s.now.best s.now.decided (sum s.now.reserved) (sum s.now.reclaimed) (sum s.now.yielded) (sum s.now.writebacks) }
{
    let reclaimed = table::total(s.reclaimed);
    let accesses = table::total(s.reserved) + reclaimed;
    let others = u32::from(s.idle) + u32::from(s.best);
    u32::from(s.stock) + reclaimed == table::total(s.yielded)
        && others + accesses + table::total(s.writebacks) == u32::from(s.decided)
}

// Does the running sum of steps add up? 17 for each idle slot, and at most 16 for each other.
fn steps_add_up(s: &State) -> bool
    ensures { result ≡ steps_add_up s.now.steps s.now.idle s.now.decided }
{
    let least = 17 * u32::from(s.idle);
    let most = least + 16 * u32::from(s.decided.saturating_sub(s.idle));
    least <= s.steps && s.steps <= most
}

// Would the waiting plan be accepted, if one waits?
fn waiting_adds_up(w: Waiting) -> bool
    ensures { result ≡ waiting_adds_up w }
{
    !w.given || plan::check(w.plan).is_ok()
}

// Does a state add up?
pub fn adds_up(s: State) -> bool
    ensures { result ≡ adds_up s }
{
    plan::check(s.plan).is_ok()
        && s.decided < s.plan.period
        && s.turn <= 16
        && domains_add_up(&s)
        && sums_add_up(&s)
        && steps_add_up(&s)
        && waiting_adds_up(s.waiting)
        && forecast::estimates_add_up(s.plan.marked, s.tracked)
}

// k of the claim at index j moves to the stock.
pub(crate) fn move_claim(mut s: State, j: usize, k: u16) -> State
    requires j_bound { j < 16 }
    requires k_bound { k ≤ nth s.claim j }
    requires k_bound_2 { s.stock + k < 65536 }
    requires k_bound_3 { nth s.yielded j + k < 65536 }
    ensures { result ≡ yielding s j k }
{
    s.stock += k;
    s.claim[j] -= k;
    s.yielded[j] += k;
    s
}

// A plan waits, in place of whatever waited.
pub(crate) fn let_wait(s: State, p: Plan) -> State
    ensures { result ≡ handing s p }
{
    let waiting = Waiting {
        given: true,
        plan: p,
    };
    State { waiting, ..s }
}
