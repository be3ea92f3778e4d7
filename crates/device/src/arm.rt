// Arming the wake: the next instants at which the UART has something to do, the earliest of which is kept.
ghost use Rattle.std.specs.Prelude.{◌≡◌, List, ℕ, length};
ghost use Rattle.model.specs.Setters.{with_wake};
ghost use Rattle.model.specs.Arm.{nth_gone, last_gone};
ghost use Rattle.line.specs.Instants.{gone_below};
ghost use Rattle.queue.specs.Cursors.{Held};
ghost use Rattle.device.specs.Holds.{flight_of};
ghost use Rattle.device.specs.Arms.{Ready, Armed, ArmsAny, WakesBelow, with_wake_of};

use crate::Core;
use line::Below;
use model::{Control, Date};
use queue::Cursor;

// When the n-th byte in flight has gone.
fn nth_gone(gone_at: &[u64; 129], flight: Cursor, n: usize) -> Date
    requires { Held 129 flight × (length gone_at.now ≡ 129) }
    ensures { (bytes : List ℕ) → result ≡ nth_gone n (flight_of gone_at.now bytes flight) }
{
    if n < flight.count {
        let at = flight.nth(129, n);
        return Some(gone_at[at]);
    }
    None
}

pub fn last_gone(gone_at: &[u64; 129], flight: Cursor) -> Date
    requires { Held 129 flight × (length gone_at.now ≡ 129) }
    ensures { (bytes : List ℕ) → result ≡ last_gone (flight_of gone_at.now bytes flight) }
{
    if 0 < flight.count {
        return nth_gone(gone_at, flight, flight.count - 1);
    }
    None
}

// When the transmit FIFO falls below its threshold.
fn below_threshold_at(gone_at: &[u64; 129], flight: Cursor, below: Below) -> Date
    requires { Held 129 flight × (length gone_at.now ≡ 129) }
    ensures { (bytes : List ℕ) → result ≡ gone_below below (flight_of gone_at.now bytes flight) }
{
    match below {
        None => None,
        Some(n) => nth_gone(gone_at, flight, n),
    }
}

fn with_wake(control: Control, wake: Date) -> Control
    ensures { result ≡ with_wake wake control }
{
    let words = control.words;
    let line = control.line;
    let powered_down_at = control.powered_down_at;
    Control {
        words,
        line,
        period: control.period,
        last: control.last,
        wake,
        watched: control.watched,
        powered_down_at,
        level: control.level,
    }
}

// The wake once it is armed for each instant; the first run's date is read before.
fn next_wake(core: Core, gone_at: &[u64; 129], run_date: u64) -> Date
    requires { Ready core gone_at.now }
    ensures { Armed core gone_at.now run_date result }
{
    let control = core.control;
    let words = control.words;
    let line = control.line;
    let receiving = core.receiving;
    let settings = timing::settings(words, control.period);
    let last = last_gone(gone_at, core.flight);
    let waits = crate::runs::waiting(core.host.count, core.runs.count, run_date);
    let landing = line::next::next_landing(settings.byte_time, receiving, waits, line);
    let comes = line::idle::timeout_at(settings, line);
    let timeout = line::next::only_if(settings.rx_tout_en, comes);
    let which = line::next::below_threshold(words.conf1, core.flight.count);
    let below = below_threshold_at(gone_at, core.flight, which);
    let gone = nth_gone(gone_at, core.flight, 0);
    let first = line::next::only_if(control.watched, gone);
    let due = control.wake;
    line::next::arm(due, last, landing, timeout, below, first)
}

pub fn with_wake_of(mut core: Core, wake: Date) -> Core
    ensures { result ≡ with_wake_of wake core }
{
    let control = with_wake(core.control, wake);
    core.control = control;
    core
}

// The core with its wake armed. Of the arrays it reads the dates in flight and of the runs.
pub fn arm<'a>(core: Core, gone_at: &'a [u64; 129], run_at: &'a [u64; 64]) -> Core
    requires { Ready core gone_at.now × Held 64 core.runs × (length run_at.now ≡ 64) }
    ensures { ArmsAny core gone_at.now run_at.now result }
{
    let run = core.runs.start;
    let run_date = run_at[run];
    let wake = next_wake(core, gone_at, run_date);
    with_wake_of(core, wake)
}

// The wake once it is armed for the one instant that a byte more in flight can bring: the transmit FIFO falls below its threshold.
pub fn wake_below(wake: Date, conf1: u32, gone_at: &[u64; 129], flight: Cursor) -> Date
    requires { Held 129 flight × (length gone_at.now ≡ 129) }
    ensures { WakesBelow wake conf1 flight gone_at.now result }
{
    let which = line::next::below_threshold(conf1, flight.count);
    let below = below_threshold_at(gone_at, flight, which);
    deadline::arm(wake, below)
}
