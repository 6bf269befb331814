// A state kept for many slots: taken apart into numbers, with the masks and the sum that a slot asks for among them, and five
// tables that are lent.
//
// loaded(state): the numbers of a state, with masks and sum made anew from its tables. Tables::of(state): its tables.
// Limits::of(plan): the period and the caps.
// slot(numbers, limits, access, writeback, tables): one slot of offers as two masks; masks and sum are kept up.
// stored(state, numbers, tables): the state again, with all that no slot changes taken from the state given.
//
// slot refuses nothing: it requires what a state that adds up gives (Ready), and offers of which each number makes one at most.
#![tactic(auto)]

mod deciding;
mod grant;
mod numbers;
mod tables;

pub use deciding::{Limits, slot};
pub use numbers::{Numbers, loaded, stored};
pub use tables::Tables;
