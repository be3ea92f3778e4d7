// Register access: what a read and a write do. `load` and `store` are the work at a place, `send` the FIFO's, over a settled UART;
// `read` and `write` are the calls. Carried over from inkemu's uart.rs and changed.
#![tactic(auto)]

mod load;
pub mod read;
pub mod row;
mod send;
mod store;
pub mod write;
