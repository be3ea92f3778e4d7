// The UART over parts: its numbers and marks with a cursor for each queue, the slots of the queues in arrays lent beside them; and
// how it settles: bytes leave, bytes land, the wake is armed. What is decided stands in `line`; here the bytes follow. Carried
// over from inkemu's uart.rs and changed: the queues are rings in fixed slots.
#![tactic(auto)]

pub mod arm;
mod departures;
mod pass;
mod passes;
pub mod runs;
pub mod settle;

use line::Receiving;
use model::{Control, RegisterMap};
use queue::Cursor;

// All but the arrays.
#[repr(C)]
#[derive(Clone, Copy)]
pub struct Core {
    pub map: RegisterMap,
    pub control: Control,
    pub receiving: Receiving,
    // The byte on the line; free while nothing is on it.
    pub byte: u8,
    pub flight: Cursor,
    pub tx: Cursor,
    pub host: Cursor,
    pub runs: Cursor,
    pub rx: Cursor,
}
