// watch: it arms without settling.
ghost use Rattle.std.specs.Prelude.{◌≡◌};
ghost use Rattle.model.specs.Calls.{machine};
ghost use Rattle.model.specs.Call.{Machine};
ghost use Rattle.device.specs.Holds.{Valid};
ghost use Rattle.device.specs.Wholes.{arrays};
ghost use Rattle.calls.specs.Changes.{watched_core};
ghost use Rattle.calls.specs.Answers.{dated_call, DoneWith};

use crate::answers;
use crate::answers::DoneCore;
use device::Core;

fn with_watched(mut core: Core, cycle: u64, on: bool) -> Core
    ensures { result ≡ watched_core cycle on core }
{
    let mut control = core.control;
    control.last = cycle;
    control.watched = on;
    core.control = control;
    core
}

pub fn watch<'a>(
    core: Core,
    gone_at: &'a [u64; 129],
    flight: &'a [u8; 129],
    tx: &'a [u8; 1152],
    host: &'a [u8; 1024],
    run_at: &'a [u64; 64],
    run_len: &'a [u64; 64],
    rx: &'a [u8; 128],
    cycle: u64,
    on: bool,
) -> DoneCore
    requires { Valid core (arrays gone_at.now flight.now tx.now host.now run_at.now run_len.now rx.now) }
    ensures { DoneWith (dated_call cycle (machine cycle (Machine.watch on))) core
        (arrays gone_at.now flight.now tx.now host.now run_at.now run_len.now rx.now) result.core
        (arrays gone_at.now flight.now tx.now host.now run_at.now run_len.now rx.now)
        result.reply result.report }
{
    let control = core.control;
    let tests = replies::refusals::date_refusal(cycle, control.last);
    match tests {
        Err(refusal) => answers::refuse(core, refusal),
        Ok(()) => {
            let from = with_watched(core, cycle, on);
            let armed = device::arm::arm(from, gone_at, run_at);
            answers::done(armed, 0, 0)
        }
    }
}
