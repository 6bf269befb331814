// Slot lines of a script that follow each other, decided by the second engine on lent tables and kept masks, without verdicts.
//
// carry(state, from, part): the state after the plain slot lines of a part from a place on, and the place behind them. A line is
// plain where it is decided and does not complete its period: any other line is left to the caller.
#![tactic(auto)]

mod plain;
mod run;

pub use run::{Carried, carry};
