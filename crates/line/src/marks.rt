// The marks of the line: the five bits of INT_RAW that the model sets, the source of a mistimed reception, the idle line.
ghost use Rattle.std.specs.Prelude.{◌≡◌};
ghost use Rattle.std.specs.Int.Bits.{bit_or};
ghost use Rattle.model.specs.Numbers.{choose};
ghost use Rattle.model.specs.Setters.{with_int_raw, with_idle_since};
ghost use Rattle.model.specs.Line.{latest as Line·latest, note_source};

use model::{Date, Line, Source};

// INT_RAW bit 0: more bytes received than RXFIFO_FULL_THRHD.
pub const RXFIFO_FULL: u32 = 1 << 0;

// Bit 1: fewer bytes in the transmit FIFO than TXFIFO_EMPTY_THRHD.
pub const TXFIFO_EMPTY: u32 = 1 << 1;

// Bit 4: a byte found the receive FIFO full.
pub const RXFIFO_OVF: u32 = 1 << 4;

// Bit 8: the line was idle for RX_TOUT_THRHD bit times with a byte held.
pub const RXFIFO_TOUT: u32 = 1 << 8;

// Bit 14: the last byte in flight has gone.
pub const TX_DONE: u32 = 1 << 14;

// The bits of `mask` rise in INT_RAW where the test passes; none falls.
pub fn raise_if(mut line: Line, test: bool, mask: u32) -> Line
    ensures { result ≡ with_int_raw (choose test (bit_or line.int_raw mask) line.int_raw) line }
{
    if test {
        line.int_raw = line.int_raw | mask;
        line
    } else {
        line
    }
}

// The source that a mistimed reception has after one more.
fn latest(source: Source, old: Source) -> Source
    ensures { result ≡ Line·latest source old }
{
    match source {
        Source::None => old,
        Source::Sel0 => Source::Sel0,
        Source::Sel2 => Source::Sel2,
    }
}

// A reception was timed by a source: one that the model has no frequency for is kept until the firmware is told.
pub fn note_source(source: Source, line: Line) -> Line
    ensures { result ≡ note_source source line }
{
    let old = line.rx_mistimed;
    let idle_since = line.idle_since;
    Line {
        int_raw: line.int_raw,
        rx_mistimed: latest(source, old),
        idle_since,
        line_free_at: line.line_free_at,
    }
}

// The idle line is open since a date, or closed.
pub fn with_idle_since(since: Date, line: Line) -> Line
    ensures { result ≡ with_idle_since since line }
{
    let rx_mistimed = line.rx_mistimed;
    Line {
        int_raw: line.int_raw,
        rx_mistimed,
        idle_since: since,
        line_free_at: line.line_free_at,
    }
}
