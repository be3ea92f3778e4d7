// What a call answers beside its value: the tests that refuse it, its notices, its report.
#![tactic(auto)]

pub mod modes;
pub mod notices;
mod offsets;
pub mod refusals;
pub mod report;
