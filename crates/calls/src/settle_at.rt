// A dated call that is carried out moves the last date, and settles.
ghost use Rattle.std.specs.Prelude.{◌≡◌, ◌<◌};
ghost use Rattle.model.specs.Tests.{date_end};
ghost use Rattle.model.specs.Plans.{settle_at};
ghost use Rattle.device.specs.Holds.{abs, Valid};
ghost use Rattle.device.specs.Wholes.{arrays};
ghost use Rattle.device.specs.Settles.{Settles};
ghost use Rattle.calls.specs.Changes.{dated_core};

use device::settle::SettleCore;
use device::{Core, settle};

pub fn with_last(mut core: Core, cycle: u64) -> Core
    ensures { result ≡ dated_core cycle core }
{
    let mut control = core.control;
    control.last = cycle;
    core.control = control;
    core
}

pub fn settle_at<'a>(
    core: Core,
    gone_at: &'a [u64; 129],
    flight: &'a [u8; 129],
    tx: &'a mut [u8; 1152],
    host: &'a [u8; 1024],
    run_at: &'a [u64; 64],
    run_len: &'a mut [u64; 64],
    rx: &'a mut [u8; 128],
    cycle: u64,
) -> SettleCore
    requires { Valid core (arrays gone_at.now flight.now tx.old host.now run_at.now run_len.old rx.old) × (cycle < date_end) }
    ensures { Settles
        (settle_at cycle (abs core (arrays gone_at.now flight.now tx.old host.now run_at.now run_len.old rx.old)))
        result.core
        (arrays gone_at.now flight.now tx.new host.now run_at.now run_len.new rx.new)
        result.passes result.overflows }
{
    let moved = with_last(core, cycle);
    settle::settle(moved, gone_at, flight, tx, host, run_at, run_len, rx, cycle)
}
