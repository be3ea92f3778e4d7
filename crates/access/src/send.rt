// uart.rs's `send`: a byte written to FIFO joins those in flight, once the UART is settled.
ghost use Rattle.std.specs.Prelude.{◌≡◌, ℕ, ◌≤◌, List, length};
ghost use Rattle.model.specs.Registers.{starts_at};
ghost use Rattle.model.specs.Tests.{period_limit};
ghost use Rattle.queue.specs.Cursors.{Held};
ghost use Rattle.device.specs.Holds.{flight_of};
ghost use Rattle.replies.specs.Refusals.{verdict};
ghost use Rattle.access.specs.ByPlace.{tests_at};
ghost use Rattle.access.specs.Sends.{gone_after, gone_at_of, SendsAny};

use crate::store::PlaceWrite;
use device::Core;
use model::Date;
use queue::Cursor;
use registers::words;
use replies::refusals::Verdict;

// When a byte starts: after the last one in flight, and not before now. In subcycles.
fn starts_at(date: u64, last: Date) -> u64
    ensures { result ≡ starts_at date last }
{
    match last {
        None => date,
        Some(gone) => dates::later(gone, date),
    }
}

// When a byte that takes so long has gone: it starts after those in flight, and not before a date.
pub fn gone_after(gone_at: &[u64; 129], flight: Cursor, date: u64, takes: u64) -> u64
    requires { Held 129 flight × (length gone_at.now ≡ 129) }
    ensures { (bytes : List ℕ) → result ≡ gone_after date takes (flight_of gone_at.now bytes flight) }
{
    let last = device::arm::last_gone(gone_at, flight);
    dates::after(starts_at(date, last), takes)
}

// When a byte written at a cycle has gone.
// ASSUMPTION: a byte keeps the time that it was given when it was written; a later change of CLKDIV, CLK_CONF or the APB clock is
// for the bytes written after it. A capture of a byte whose CLKDIV is rewritten while it is sent settles it.
fn gone_at_of(core: Core, gone_at: &[u64; 129], cycle: u64) -> u64
    requires { Held 129 core.flight × (length gone_at.now ≡ 129) × (core.control.period ≤ period_limit) }
    ensures { (bytes : List ℕ) → result ≡ gone_at_of cycle core.control (flight_of gone_at.now bytes core.flight) }
{
    let control = core.control;
    let words = control.words;
    let takes = timing::byte_time(words, control.period);
    gone_after(gone_at, core.flight, dates::subcycles(cycle), takes)
}

// With over 128 bytes in flight the byte is dropped.
pub fn send<'a>(
    mut core: Core,
    gone_at: &'a mut [u64; 129],
    flight: &'a mut [u8; 129],
    cycle: u64,
    byte: u8,
) -> PlaceWrite
    requires { Held 129 core.flight × (length gone_at.old ≡ 129) × (length flight.old ≡ 129)
        × (core.control.period ≤ period_limit) }
    ensures { SendsAny cycle byte core gone_at.old flight.old result.core
        gone_at.new flight.new result.reply result.notices }
{
    if words::fifo_full(core.flight.count) {
        let notices = replies::notices::overflow_notices();
        PlaceWrite {
            core,
            reply: Ok(true),
            notices,
        }
    } else {
        let control = core.control;
        let words = control.words;
        let at = core.flight.back(129);
        gone_at[at] = gone_at_of(core, gone_at, cycle);
        flight[at] = byte;
        let longer = core.flight.pushed();
        core.flight = longer;
        let notices = replies::notices::clock_notices(timing::source::unmodelled_source(
            words.clk_conf,
        ));
        PlaceWrite {
            core,
            reply: Ok(true),
            notices,
        }
    }
}

// A write to FIFO has one test more.
pub fn tests_at(fifo: bool, cycle: u64, last: u64, left: usize, flying: usize) -> Verdict
    ensures { verdict result ≡ tests_at fifo cycle last left flying }
{
    if fifo {
        replies::refusals::send_refusal(cycle, last, left, flying)
    } else {
        replies::refusals::date_refusal(cycle, last)
    }
}
