// When the UART next has something to do, on numbers and marks. Dates in subcycles, the wake in cycles. Carried over from
// inkemu's uart.rs and changed.
ghost use Rattle.std.specs.Prelude.{◌≡◌, [], ◌∷◌};
ghost use Rattle.model.specs.Numbers.{only_if};
ghost use Rattle.model.specs.Settle.{empty_threshold};
ghost use Rattle.model.specs.Arm.{arm_all};
ghost use Rattle.line.specs.Instants.{below_threshold, next_start, next_landing};

use crate::{Below, Receiving, idle};
use model::{Date, Line};

// A date that asks for a wake only where the test passes.
pub fn only_if(test: bool, date: Date) -> Date
    ensures { result ≡ only_if test date }
{
    if test { date } else { None }
}

// Which byte in flight takes the transmit FIFO below its threshold.
pub fn below_threshold(conf1: u32, flying: usize) -> Below
    ensures { result ≡ below_threshold (empty_threshold conf1) flying }
{
    let threshold = registers::fields::txfifo_empty_thrhd(conf1) as usize;
    if 0 < threshold {
        if threshold < flying {
            let above = flying - threshold;
            return Some(above - 1);
        }
    }
    None
}

// When the next host byte starts, if one waits: no earlier than its run's date, and once the line is free.
fn next_start(free: u64, waiting: Date) -> Date
    ensures { result ≡ next_start free waiting }
{
    match waiting {
        None => None,
        Some(run) => Some(dates::later(run, free)),
    }
}

// When the byte on the line lands, or else the next to start.
pub fn next_landing(byte_time: u64, receiving: Receiving, waiting: Date, line: Line) -> Date
    ensures { result ≡ next_landing byte_time receiving waiting line }
{
    let free = line.line_free_at;
    match receiving {
        None => idle::after_date(byte_time, next_start(free, waiting)),
        Some(_) => Some(free),
    }
}

// The wake once it is armed for each instant: the last byte leaves, the next one lands, the timeout comes, the transmit
// FIFO falls below its threshold, the first byte leaves.
pub fn arm(wake: Date, last: Date, landing: Date, timeout: Date, below: Date, first: Date) -> Date
    ensures { result ≡ arm_all (last ∷ landing ∷ timeout ∷ below ∷ first ∷ []) wake }
{
    let a = deadline::arm(wake, last);
    let b = deadline::arm(a, landing);
    let c = deadline::arm(b, timeout);
    let d = deadline::arm(c, below);
    deadline::arm(d, first)
}
