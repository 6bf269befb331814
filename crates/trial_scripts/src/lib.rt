// The plan files, scripts and files `ask` that trial_replay compares replays and questions on, fixed by seeds: good ones, and ones
// with faults.
#![tactic(auto)]

pub mod asks;
pub mod cases;
pub mod files;
pub mod lines;
pub mod scripts;
mod wrong;
