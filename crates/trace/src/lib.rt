// A line of the replay format as a call: its name, its numbers and its last word, or what is wrong with it.
#![tactic(auto)]

mod arguments;
pub mod asks;
pub mod faults;
mod last_argument;
pub mod line;
pub mod low;
pub mod names;
mod number;
mod numbers;
pub mod pairs;
mod step;
