// The calls and the changed states that trial_calls compares the library and the model on, fixed by seeds.
#![tactic(auto)]

pub mod calls;
pub mod changes;
pub mod draws;
pub mod estimates;
pub mod forms;
pub mod handing;
pub mod marks;
pub mod passing;
pub mod styles;
pub mod sums;
pub mod writes;
