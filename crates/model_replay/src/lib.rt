// A second implementation of the replay and of questions, made plain and slow to compare the library with: a line and the file
// `ask` judged byte by byte.
#![tactic(auto)]

mod ask;
mod asking;
mod form;
mod run;
pub mod text;

pub use asking::{Answered, why};
pub use form::{Form, Line, SLOT, is_yield, read_line};
pub use run::{Ended, replay};
