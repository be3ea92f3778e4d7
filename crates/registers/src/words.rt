// The words that a read makes up, what a write to INT_CLR leaves, and when a byte written is dropped. Carried over from
// inkemu's uart.rs and changed.
ghost use Rattle.std.specs.Prelude.{◌≡◌, ◌≤◌, ltb};
ghost use Rattle.model.specs.Numbers.{without};
ghost use Rattle.model.specs.Line.{fifo_bytes};
ghost use Rattle.model.specs.Settle.{in_fifo};
ghost use Rattle.model.specs.Registers.{status_word, fsm_status};

// Each FIFO holds 128 bytes: the ROM waits while TXFIFO_CNT is 128 or more.
pub const FIFO_BYTES: usize = 128;

// STATUS bits 16-25 TXFIFO_CNT; bits 0-9 are RXFIFO_CNT.
const TXFIFO_CNT_SHIFT: u32 = 16;

// FSM_STATUS bits 4-7 ST_UTX_OUT: 0 while the transmitter is idle, the only value that software tests.
// ASSUMPTION: while a byte is being sent the field reads 1. The other states are not documented.
const ST_UTX_OUT_BUSY: u32 = 1 << 4;

// The bytes in the transmit FIFO: all in flight but the first, which is in the shift register.
pub fn in_fifo(flying: usize) -> usize
    ensures { result ≡ in_fifo flying }
{
    flying.saturating_sub(1)
}

// STATUS: RXFIFO_CNT in bits 0-9, TXFIFO_CNT in bits 16-25.
pub fn status_word(idle_status: u32, flying: usize, received: usize) -> u32
    requires { (flying ≤ 129) × (received ≤ 128) }
    ensures { result ≡ status_word idle_status flying received }
{
    let in_fifo = in_fifo(flying) as u32;
    idle_status | (in_fifo << TXFIFO_CNT_SHIFT) | (received as u32)
}

pub fn fsm_status(flying: usize) -> u32
    ensures { result ≡ fsm_status flying }
{
    if flying == 0 { 0 } else { ST_UTX_OUT_BUSY }
}

// Whether a byte written is dropped: over 128 are in flight.
pub fn fifo_full(flying: usize) -> bool
    ensures { result ≡ ltb fifo_bytes flying }
{
    FIFO_BYTES < flying
}

// INT_RAW after a write to INT_CLR.
pub fn int_clr(int_raw: u32, value: u32) -> u32
    ensures { result ≡ without value int_raw }
{
    int_raw & !value
}
