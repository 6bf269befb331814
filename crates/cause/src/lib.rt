// The cause of a verdict, as document 02 tells it (Point 2), and the proof that it is the true one.
//
// explain(state, offers, number): the verdict of a number in the slot that a state and offers decide, and its cause, for any state,
// bytes and number; or 30, 34, 31, 32, 33 or 62.
#![tactic(auto)]

mod cause;
mod explaining;

pub use cause::Told;
pub use explaining::{ExplainFault, Explained, explain};
