// The calls for Rust and C, a module for each: the core in plain numbers by value, the slots of the queues by pointer. rust/build-lib
// makes an object of each module.
#![tactic(auto)]

pub mod clock_change;
pub mod line_figures;
pub mod new;
pub mod power_down;
pub mod queries;
pub mod read;
pub mod receive;
pub mod reset;
pub mod take_tx;
pub mod take_written;
pub mod version;
pub mod wake;
pub mod watch;
pub mod write;
pub mod write_row;
