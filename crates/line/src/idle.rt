// The idle line and its receive timeout. Dates in subcycles.
ghost use Rattle.std.specs.Prelude.{◌≡◌};
ghost use Rattle.model.specs.Numbers.{due_by};
ghost use Rattle.model.specs.Line.{after_date, timeout_at, time_out};

use crate::marks;
use model::{Date, Line, Settings};

// Whether a date has come by `date`.
pub fn due_by(date: u64, at: Date) -> bool
    ensures { result ≡ due_by date at }
{
    match at {
        None => false,
        Some(when) => when <= date,
    }
}

// A while after a date, if there is one.
pub fn after_date(span: u64, at: Date) -> Date
    ensures { result ≡ after_date span at }
{
    match at {
        None => None,
        Some(when) => Some(dates::after(when, span)),
    }
}

// When the timeout of the open idle line comes: RX_TOUT_THRHD bit times after the last byte heard landed.
// ASSUMPTION: a change of the bit time during an idle line times all of it again, from the landing, and a timeout that this puts
// before the change comes at the change. Not documented; a logic analyser on a chip whose clock is switched then settles it.
pub fn timeout_at(settings: Settings, line: Line) -> Date
    ensures { result ≡ timeout_at settings line }
{
    let since = line.idle_since;
    after_date(settings.timeout_time, since)
}

// The timeout comes: the idle line closes, even where nothing is raised.
// ASSUMPTION: RXFIFO_TOUT needs a byte held and comes once in an idle line; a read of FIFO does not start the count again. A
// logic analyser on the receive line of a chip, with a pin that the handler toggles, settles it.
pub fn time_out(settings: Settings, held: usize, line: Line) -> Line
    ensures { result ≡ time_out settings held line }
{
    let closed = marks::with_idle_since(None, line);
    let source = settings.source;
    if settings.rx_tout_en {
        if settings.rx_sclk_en {
            let noted = marks::note_source(source, closed);
            return marks::raise_if(noted, 0 < held, marks::RXFIFO_TOUT);
        }
    }
    closed
}
