// wake: only it clears the Deadline.
ghost use Rattle.std.specs.Prelude.{◌≡◌, ◌<◌};
ghost use Rattle.model.specs.Tests.{date_end};
ghost use Rattle.model.specs.Calls.{machine};
ghost use Rattle.model.specs.Call.{Machine};
ghost use Rattle.device.specs.Holds.{abs, Valid};
ghost use Rattle.device.specs.Wholes.{arrays};
ghost use Rattle.calls.specs.Changes.{called_core};
ghost use Rattle.calls.specs.Answers.{dated_call, dated_work, Works, DoneWith};

use crate::answers::DoneCore;
use crate::{answers, settle_at};
use device::Core;

// The core with its Deadline cleared where its date has come.
fn called(core: Core, cycle: u64) -> Core
    ensures { result ≡ called_core cycle core }
{
    let control = core.control;
    let due = control.wake;
    let wake = deadline::called(due, cycle);
    device::arm::with_wake_of(core, wake)
}

fn carry_out<'a>(
    core: Core,
    gone_at: &'a [u64; 129],
    flight: &'a [u8; 129],
    tx: &'a mut [u8; 1152],
    host: &'a [u8; 1024],
    run_at: &'a [u64; 64],
    run_len: &'a mut [u64; 64],
    rx: &'a mut [u8; 128],
    cycle: u64,
) -> DoneCore
    requires { Valid core (arrays gone_at.now flight.now tx.old host.now run_at.now run_len.old rx.old) × (cycle < date_end) }
    ensures { Works (λ x. x)
        (dated_work cycle (machine cycle Machine.wake)
        (abs core (arrays gone_at.now flight.now tx.old host.now run_at.now run_len.old rx.old)))
        result.core
        (arrays gone_at.now flight.now tx.new host.now run_at.now run_len.new rx.new)
        result.reply result.report }
{
    let from = called(core, cycle);
    let t = settle_at::settle_at(from, gone_at, flight, tx, host, run_at, run_len, rx, cycle);
    let settled = t.core;
    let armed = device::arm::arm(settled, gone_at, run_at);
    answers::done(armed, t.passes, t.overflows)
}

pub fn wake<'a>(
    core: Core,
    gone_at: &'a [u64; 129],
    flight: &'a [u8; 129],
    tx: &'a mut [u8; 1152],
    host: &'a [u8; 1024],
    run_at: &'a [u64; 64],
    run_len: &'a mut [u64; 64],
    rx: &'a mut [u8; 128],
    cycle: u64,
) -> DoneCore
    requires { Valid core (arrays gone_at.now flight.now tx.old host.now run_at.now run_len.old rx.old) }
    ensures { DoneWith (dated_call cycle (machine cycle Machine.wake)) core
        (arrays gone_at.now flight.now tx.old host.now run_at.now run_len.old rx.old) result.core
        (arrays gone_at.now flight.now tx.new host.now run_at.now run_len.new rx.new)
        result.reply result.report }
{
    let control = core.control;
    let tests = replies::refusals::date_refusal(cycle, control.last);
    match tests {
        Err(refusal) => answers::refuse(core, refusal),
        Ok(()) => carry_out(core, gone_at, flight, tx, host, run_at, run_len, rx, cycle),
    }
}
