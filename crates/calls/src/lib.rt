// The calls that touch neither a register nor a byte of the host's, and what all calls share: set-up, wake, reset, clock change, watch,
// power-down, the two questions. Over parts: a `Core` by value, the arrays of the queues lent. Carried over from inkemu's uart.rs
// and changed.
#![tactic(auto)]

pub mod answers;
pub mod clock_change;
pub mod conclude;
mod levels;
pub mod power_down;
pub mod queries;
pub mod reset;
pub mod set_up;
pub mod settle_at;
pub mod wake;
pub mod watch;
