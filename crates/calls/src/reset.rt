// reset: it ends a power-down, settles, and clears what uart.rs's `reset` clears.
ghost use Rattle.std.specs.Prelude.{◌≡◌, ◌<◌};
ghost use Rattle.model.specs.Tests.{date_end};
ghost use Rattle.model.specs.Calls.{cleared_line, machine};
ghost use Rattle.model.specs.Call.{Machine};
ghost use Rattle.device.specs.Holds.{abs, Valid};
ghost use Rattle.device.specs.Wholes.{arrays};
ghost use Rattle.calls.specs.Changes.{cleared_core};
ghost use Rattle.calls.specs.Answers.{dated_call, dated_work, Works, DoneWith};

use crate::answers::DoneCore;
use crate::{answers, power_down, settle_at};
use device::Core;
use model::{Line, Source};
use queue::Cursor;

// When the line is free stays.
fn clear_line(line: Line) -> Line
    ensures { result ≡ cleared_line line }
{
    Line {
        int_raw: 0,
        rx_mistimed: Source::None,
        idle_since: None,
        line_free_at: line.line_free_at,
    }
}

// Words as at reset; no byte in flight, and none received.
fn clear(mut core: Core) -> Core
    ensures { result ≡ cleared_core core }
{
    let map = core.map;
    let words = map.reset;
    let mut control = core.control;
    let line = clear_line(control.line);
    control.words = words;
    control.line = line;
    core.control = control;
    core.flight = Cursor::new();
    core.rx = Cursor::new();
    core
}

fn carry_out<'a>(
    core: Core,
    gone_at: &'a [u64; 129],
    flight: &'a [u8; 129],
    tx: &'a mut [u8; 1152],
    host: &'a [u8; 1024],
    run_at: &'a [u64; 64],
    run_len: &'a mut [u64; 64],
    rx: &'a mut [u8; 128],
    cycle: u64,
) -> DoneCore
    requires { Valid core (arrays gone_at.now flight.now tx.old host.now run_at.now run_len.old rx.old) × (cycle < date_end) }
    ensures { Works (λ x. x)
        (dated_work cycle (machine cycle Machine.reset)
        (abs core (arrays gone_at.now flight.now tx.old host.now run_at.now run_len.old rx.old)))
        result.core
        (arrays gone_at.now flight.now tx.new host.now run_at.now run_len.new rx.new)
        result.reply result.report }
{
    let from = power_down::with_powered_down_at(core, None);
    let t = settle_at::settle_at(from, gone_at, flight, tx, host, run_at, run_len, rx, cycle);
    let cleared = clear(t.core);
    let restarted = crate::conclude::conclude(cleared, gone_at, run_at);
    answers::done(restarted, t.passes, t.overflows)
}

pub fn reset<'a>(
    core: Core,
    gone_at: &'a [u64; 129],
    flight: &'a [u8; 129],
    tx: &'a mut [u8; 1152],
    host: &'a [u8; 1024],
    run_at: &'a [u64; 64],
    run_len: &'a mut [u64; 64],
    rx: &'a mut [u8; 128],
    cycle: u64,
) -> DoneCore
    requires { Valid core (arrays gone_at.now flight.now tx.old host.now run_at.now run_len.old rx.old) }
    ensures { DoneWith (dated_call cycle (machine cycle Machine.reset)) core
        (arrays gone_at.now flight.now tx.old host.now run_at.now run_len.old rx.old) result.core
        (arrays gone_at.now flight.now tx.new host.now run_at.now run_len.new rx.new)
        result.reply result.report }
{
    let control = core.control;
    let tests = replies::refusals::date_refusal(cycle, control.last);
    match tests {
        Err(refusal) => answers::refuse(core, refusal),
        Ok(()) => carry_out(core, gone_at, flight, tx, host, run_at, run_len, rx, cycle),
    }
}
