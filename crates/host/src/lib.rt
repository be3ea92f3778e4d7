// The host's side: bytes handed over to the receive line, and sent bytes taken. Carried over from inkemu's uart.rs and changed.
#![tactic(auto)]

pub mod answers;
pub mod receive;
pub mod take_tx;
pub mod take_written;
