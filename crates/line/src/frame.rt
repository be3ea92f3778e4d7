// A frame on the line: how it starts, what becomes of its byte, and what its landing does. Dates in subcycles.

ghost use Rattle.std.specs.Prelude.{◌≡◌, None};
ghost use Rattle.model.specs.Line.{note_source, frame as Line·frame, start as Line·start};
ghost use Rattle.model.specs.Line.{fate as Line·fate, opened as Line·opened, land as Line·land};
ghost use Rattle.model.specs.Numbers.{choose};
ghost use Rattle.model.specs.Setters.{with_idle_since};

use crate::marks;
use model::{Fate, Frame, Line, Settings};
use registers::words::FIFO_BYTES;

// A frame that starts now: who timed it, and whether it is heard.
pub fn frame(settings: Settings) -> Frame
    ensures { result ≡ Line·frame settings }
{
    let source = settings.source;
    Frame {
        timed_on: source,
        heard: settings.rx_sclk_en,
    }
}

// A start bit that is heard closes the idle line.
fn hear(settings: Settings, line: Line) -> Line
    ensures { result ≡ choose settings.rx_sclk_en (note_source settings.source (with_idle_since None line)) line }
{
    let source = settings.source;
    if settings.rx_sclk_en {
        marks::note_source(source, marks::with_idle_since(None, line))
    } else {
        line
    }
}

// A start bit comes at a date: the line is free when the frame ends.
// ASSUMPTION: a byte received keeps the bit time of its start bit; a later change of the rate is for the bytes that start after it.
// A capture of a byte received while CLKDIV is rewritten settles it.
pub fn start(settings: Settings, at: u64, line: Line) -> Line
    ensures { result ≡ Line·start settings at line }
{
    let mut begun = hear(settings, line);
    begun.line_free_at = dates::after(at, settings.byte_time);
    begun
}

// What becomes of a byte that lands where so many are held.
// ASSUMPTION: a byte that lands with the receiver's clock off or RXFIFO_RST set is lost, and one that finds 128 held is dropped
// while the 128 stay. Input sent to a chip during its boot, and 200 bytes to a FIFO that nobody reads, settle it.
pub fn fate(settings: Settings, held: usize, f: Frame) -> Fate
    ensures { result ≡ Line·fate settings held f }
{
    if f.heard {
        if settings.rx_sclk_en {
            if settings.rxfifo_rst {
                return Fate::Cleared;
            }
            if held < FIFO_BYTES {
                return Fate::Stored;
            }
            return Fate::Overflowed;
        }
        return Fate::ClockOff;
    }
    Fate::Unheard
}

// The idle line opens at the landing.
fn open_idle_line(f: Frame, line: Line) -> Line
    ensures { result ≡ Line·opened f line }
{
    let timed_on = f.timed_on;
    let open = marks::with_idle_since(Some(line.line_free_at), line);
    marks::note_source(timed_on, open)
}

// A byte lands with its fate.
// ASSUMPTION: the timeout is counted with the receiver's clock: a byte lost because that clock is off opens no idle line, and one
// that RXFIFO_RST or a full FIFO drops was heard and opens one. A frame is decoded from its start bit: unheard at its start it is
// lost, heard at start and end it is received. Bytes sent to a chip whose receiver clock is gated settle it.
pub fn land(settings: Settings, fate: Fate, f: Frame, line: Line) -> Line
    ensures { result ≡ Line·land settings fate f line }
{
    match fate {
        Fate::Stored => open_idle_line(f, line),
        Fate::Overflowed => {
            let shown = !settings.dis_rx_dat_ovf;
            open_idle_line(f, marks::raise_if(line, shown, marks::RXFIFO_OVF))
        }
        Fate::Cleared => open_idle_line(f, line),
        Fate::ClockOff => line,
        Fate::Unheard => line,
    }
}
