// The regulator: the state of a period, one slot, the close of a period, yields by forecast, and the calls.
//
// open(plan): the state that a plan starts with; or 2, 9, 11 or 10 with its place.
// slot(state, offers, verdicts): one slot decided, for any state, bytes and lengths; or 30, 34, 31, 32 or 33.
// yield_claim(state, domain, k): claim moved to the stock, for any state and numbers; or 30, 34, 21, 22 or 23.
// hand_in(state, plan): a plan that takes force when the open period ends, for any state and plan; or 30, 34, or 2, 9, 11 or
// 10 with its place.
//
// run_slot, run_yield and run_hand_in are the same calls for a caller whose state is known to add up, as every state of a run
// from an opened plan does: they require it, and do not check it again.
//
// A refusal is an error whose number() is the number above: plan::Refused, SlotFault, YieldFault and HandFault. The state given is
// a value that the caller has still. no_state is the state of all zeros, which stands where no state was given.
//
// adds_up, check_slot, rule, mark and grant_slot are the parts of a slot call that a second engine shares: all but who passes and
// who is granted. loose, lowest_waiting, claim_of and is_no_domain are what a caller needs that tells why.
#![tactic(auto)]

mod calls;
mod close;
mod faults;
mod forecast;
mod grant;
mod refusals;
mod state;
mod turn;
mod verdict;

pub use calls::{grant_slot, hand_in, open, run_hand_in, run_slot, run_yield, slot, yield_claim};
pub use close::{Counts, Slot};
pub use faults::{HandFault, SlotFault, YieldFault};
pub use forecast::{Estimate, Tracked};
pub use refusals::{check_slot, is_no_domain};
pub use state::{State, Waiting, adds_up, no_state};
pub use turn::mark;
pub use verdict::{claim_of, loose, lowest_waiting, rule};
