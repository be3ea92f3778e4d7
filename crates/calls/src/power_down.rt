// power_down: it sets its date to now, and neither settles nor arms.
ghost use Rattle.std.specs.Prelude.{◌≡◌};
ghost use Rattle.model.specs.Setters.{with_powered_down_at};
ghost use Rattle.model.specs.Calls.{machine};
ghost use Rattle.model.specs.Call.{Machine};
ghost use Rattle.device.specs.Holds.{Valid};
ghost use Rattle.device.specs.Wholes.{arrays};
ghost use Rattle.calls.specs.Changes.{with_control_of};
ghost use Rattle.calls.specs.Answers.{dated_call, DoneWith};

use crate::answers::DoneCore;
use crate::{answers, settle_at};
use device::Core;
use model::{Control, Date};

fn control_down_at(control: Control, powered_down_at: Date) -> Control
    ensures { result ≡ with_powered_down_at powered_down_at control }
{
    let words = control.words;
    let line = control.line;
    let wake = control.wake;
    Control {
        words,
        line,
        period: control.period,
        last: control.last,
        wake,
        watched: control.watched,
        powered_down_at,
        level: control.level,
    }
}

// Another power-down, in subcycles, or none.
pub fn with_powered_down_at(mut core: Core, powered_down_at: Date) -> Core
    ensures { result ≡ with_control_of (with_powered_down_at powered_down_at core.control) core }
{
    let control = control_down_at(core.control, powered_down_at);
    core.control = control;
    core
}

pub fn power_down<'a>(
    core: Core,
    gone_at: &'a [u64; 129],
    flight: &'a [u8; 129],
    tx: &'a [u8; 1152],
    host: &'a [u8; 1024],
    run_at: &'a [u64; 64],
    run_len: &'a [u64; 64],
    rx: &'a [u8; 128],
    cycle: u64,
) -> DoneCore
    requires { Valid core (arrays gone_at.now flight.now tx.now host.now run_at.now run_len.now rx.now) }
    ensures { DoneWith (dated_call cycle (machine cycle Machine.power_down)) core
        (arrays gone_at.now flight.now tx.now host.now run_at.now run_len.now rx.now) result.core
        (arrays gone_at.now flight.now tx.now host.now run_at.now run_len.now rx.now)
        result.reply result.report }
{
    let control = core.control;
    let tests = replies::refusals::date_refusal(cycle, control.last);
    match tests {
        Err(refusal) => answers::refuse(core, refusal),
        Ok(()) => {
            let moved = settle_at::with_last(core, cycle);
            let down = with_powered_down_at(moved, Some(dates::subcycles(cycle)));
            answers::done(down, 0, 0)
        }
    }
}
