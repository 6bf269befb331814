// What the test programs share: bytes put and filled, plans laid into files as chains, faults put into them, the records of a
// file off its chain, drawn numbers, drawn plans, the lines of a text, plan files given as such lines, the counts of what was
// compared, counts of other things, and the lines of both.
#![tactic(auto)]

pub mod bytes;
pub mod chain;
pub mod counts;
pub mod draw;
pub mod faults;
pub mod files;
pub mod given;
pub mod lines;
pub mod plans;
pub mod report;
pub mod rest;
pub mod spoiled;
pub mod styles;
pub mod tally;
pub mod values;

// The text that a test program is given, as much of it as a buffer takes.
pub use parts::read_full;
