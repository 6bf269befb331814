// A second implementation of the regulator and of the causes of verdicts, made plain and slow to compare the library with, and
// the ledger. A state and the ledger's page are 476 words, counts 238, whose places `cells` states.
#![tactic(auto)]

mod calls;
mod cause;
pub mod cells;
pub mod floats;
pub mod forecast;
mod ledger;
mod sums;
mod verdict;
mod waiting;

pub use calls::{Decision, hand_in, open, slot, take_yield};
pub use cause::{CLAIM, Cause, NEITHER, STOCK, explain, figures, sort};
pub use ledger::{Entry, begin, enter_plan, enter_slot, enter_yield};
