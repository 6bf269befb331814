// The seventeen digits of a slot line, read eight bytes at a time.
//
// offers(b, at): digits 0, 1 or 2 from a place on as two masks, of accesses and of writebacks; None where a byte is no such digit.
//
// Nothing is promised of None: who is told so reads the bytes one by one.
#![tactic(auto)]

mod lanes;
mod reading;

pub use reading::{Masks, offers};
