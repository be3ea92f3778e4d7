// What a settling does before and after its passes: its date, TX_DONE, the levels and the interrupt.
ghost use Rattle.std.specs.Prelude.{◌≡◌, Some, None};
ghost use Rattle.dates.specs.Dates.{subcycles};
ghost use Rattle.model.specs.Numbers.{earliest, instant_of};
ghost use Rattle.model.specs.Settle.{tx_done, above_full, below_empty};
ghost use Rattle.line.specs.Levels.{levels as Levels·levels, int_status, level as Levels·level};

use crate::marks;
use model::{Date, Line};

// How far, in subcycles, a settling at a cycle goes: after power-down no further than that date.
pub fn settling_date(cycle: u64, powered_down_at: Date) -> u64
    ensures { result ≡ instant_of (earliest (Some (subcycles cycle)) powered_down_at) }
{
    let date = dates::subcycles(cycle);
    match powered_down_at {
        None => date,
        Some(down) => dates::earlier(date, down),
    }
}

// TX_DONE: bytes were in flight, and none is now.
pub fn tx_done(before: usize, flying: usize, line: Line) -> Line
    ensures { result ≡ tx_done before flying line }
{
    if 0 < before {
        return marks::raise_if(line, flying == 0, marks::TX_DONE);
    }
    line
}

// RXFIFO_FULL: strictly more bytes than its threshold.
fn above_full(conf1: u32, held: usize) -> bool
    ensures { result ≡ above_full conf1 held }
{
    (registers::fields::rxfifo_full_thrhd(conf1) as usize) < held
}

// TXFIFO_EMPTY: strictly fewer bytes than its threshold.
fn below_empty(conf1: u32, flying: usize) -> bool
    ensures { result ≡ below_empty conf1 flying }
{
    registers::words::in_fifo(flying) < registers::fields::txfifo_empty_thrhd(conf1) as usize
}

// The levels of both FIFOs raise their bits: uart.rs's assert_levels.
// ASSUMPTION: both are levels: a bit that is cleared while its condition holds is set again at once, and a set bit stays until it
// is cleared; "more than" is strict. Clearing the bit on a chip above its threshold, and sending just as many bytes as the
// threshold, settles it.
pub fn assert_levels(line: Line, conf1: u32, held: usize, flying: usize) -> Line
    ensures { result ≡ Levels·levels conf1 held flying line }
{
    let full = marks::raise_if(line, above_full(conf1, held), marks::RXFIFO_FULL);
    marks::raise_if(full, below_empty(conf1, flying), marks::TXFIFO_EMPTY)
}

pub fn int_status(line: Line, int_ena: u32) -> u32
    ensures { result ≡ int_status int_ena line }
{
    line.int_raw & int_ena
}

pub fn level(line: Line, int_ena: u32) -> bool
    ensures { result ≡ Levels·level int_ena line }
{
    int_status(line, int_ena) != 0
}
