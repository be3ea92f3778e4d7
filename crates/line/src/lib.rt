// Every decision about the line, on numbers and marks alone: a frame's start and the fate of its byte, the idle line and its timeout, a
// pass, levels and the interrupt, the next instant. No byte is in it. Carried over from inkemu's uart.rs and changed.
#![tactic(auto)]

pub mod fate;
mod frame;
pub mod idle;
pub mod levels;
pub mod marks;
pub mod next;
pub mod pass;

use model::{Fate, Frame, Line};

// What is on the line beside its byte, if one is.
pub type Receiving = Option<Frame>;

// What a pass found due.
#[derive(Clone, Copy)]
pub enum Found {
    NothingDue,
    TimedOut,
    Landed(Fate),
}

// What a pass does: the line's part after it, what it found, and whether a host byte started in it.
#[derive(Clone, Copy)]
pub struct Move {
    pub line: Line,
    pub receiving: Receiving,
    pub found: Found,
    pub started: bool,
}

// Which byte in flight, once it has gone, leaves fewer in the transmit FIFO than its threshold, counted from 0 at the shift register: none
// where they are fewer already, or the threshold is 0.
pub type Below = Option<usize>;
