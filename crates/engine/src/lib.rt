// The second engine: one slot decided by masks. Bit n of a mask is number n, 0 for best effort.
//
// slot(state, offers, verdicts): one slot decided, for any state, bytes and lengths; or 30, 34, 31, 32 or 33. It answers as
// regulator::slot does.
//
// run_slot is the same call for a caller whose state is known to add up and who does not ask for the verdicts, as a replay does.
// masks_of, waiting, is_blocked, passing and pick are the steps of a decision, for a caller that keeps masks from slot to slot.
#![tactic(auto)]

mod calls;
mod masks;
mod turn;

pub use calls::{run_slot, slot};
pub use masks::{Masks, is_blocked, masks_of, passing, waiting, with_bit};
pub use turn::{Picked, pick};
