// The clock change, one call: settle, set the period, settle, arm.
ghost use Rattle.std.specs.Prelude.{◌≡◌, ◌<◌, ◌≤◌};
ghost use Rattle.model.specs.Tests.{date_end, period_limit};
ghost use Rattle.model.specs.Calls.{machine};
ghost use Rattle.model.specs.Call.{Machine};
ghost use Rattle.device.specs.Holds.{abs, Valid};
ghost use Rattle.device.specs.Wholes.{arrays};
ghost use Rattle.calls.specs.Changes.{clocked_core};
ghost use Rattle.calls.specs.Answers.{dated_call, dated_work, Works, DoneWith};

use crate::answers::DoneCore;
use crate::{answers, settle_at};
use device::{Core, settle};
use timing::clock::Clock;

// The core with another period of the APB clock, in cycles; 0 counts as 1.
fn with_period(mut core: Core, period: u64) -> Core
    ensures { result ≡ clocked_core period core }
{
    let clock = Clock::new(period);
    let mut control = core.control;
    control.period = clock.apb_period;
    core.control = control;
    core
}

// Passes and overflows are the sums over the two settlings.
fn carry_out<'a>(
    core: Core,
    gone_at: &'a [u64; 129],
    flight: &'a [u8; 129],
    tx: &'a mut [u8; 1152],
    host: &'a [u8; 1024],
    run_at: &'a [u64; 64],
    run_len: &'a mut [u64; 64],
    rx: &'a mut [u8; 128],
    cycle: u64,
    period: u64,
) -> DoneCore
    requires { Valid core (arrays gone_at.now flight.now tx.old host.now run_at.now run_len.old rx.old) × (cycle < date_end)
        × (period ≤ period_limit) }
    ensures { Works (λ x. x)
        (dated_work cycle (machine cycle (Machine.clock_change period))
        (abs core (arrays gone_at.now flight.now tx.old host.now run_at.now run_len.old rx.old)))
        result.core
        (arrays gone_at.now flight.now tx.new host.now run_at.now run_len.new rx.new)
        result.reply result.report }
{
    let first = settle_at::settle_at(core, gone_at, flight, tx, host, run_at, run_len, rx, cycle);
    let from = with_period(first.core, period);
    let second = settle::settle(from, gone_at, flight, tx, host, run_at, run_len, rx, cycle);
    let settled = second.core;
    let armed = device::arm::arm(settled, gone_at, run_at);
    answers::done(
        armed,
        first.passes + second.passes,
        first.overflows + second.overflows,
    )
}

pub fn clock_change<'a>(
    core: Core,
    gone_at: &'a [u64; 129],
    flight: &'a [u8; 129],
    tx: &'a mut [u8; 1152],
    host: &'a [u8; 1024],
    run_at: &'a [u64; 64],
    run_len: &'a mut [u64; 64],
    rx: &'a mut [u8; 128],
    cycle: u64,
    period: u64,
) -> DoneCore
    requires { Valid core (arrays gone_at.now flight.now tx.old host.now run_at.now run_len.old rx.old) }
    ensures { DoneWith (dated_call cycle (machine cycle (Machine.clock_change period))) core
        (arrays gone_at.now flight.now tx.old host.now run_at.now run_len.old rx.old) result.core
        (arrays gone_at.now flight.now tx.new host.now run_at.now run_len.new rx.new)
        result.reply result.report }
{
    let control = core.control;
    let tests = replies::refusals::clock_refusal(cycle, control.last, period);
    match tests {
        Err(refusal) => answers::refuse(core, refusal),
        Ok(()) => carry_out(
            core, gone_at, flight, tx, host, run_at, run_len, rx, cycle, period,
        ),
    }
}
