// The answers of the replay format (docs/REPLAY.md) as text, put into a lent buffer: replies, reports, refusals, and what is
// answered to a line with a fault.
#![tactic(auto)]

pub mod faults;
pub mod line_figures;
mod notices;
pub mod refusals;
mod reports;
pub mod results;
