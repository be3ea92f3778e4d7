// take_tx: settle, and hand out the bytes that have left. It arms nothing.
ghost use Rattle.std.specs.Prelude.{◌≡◌, ◌<◌, ◌≤◌, length};
ghost use Rattle.model.specs.Tests.{date_end, sent_limit};
ghost use Rattle.model.specs.Calls.{take_tx};
ghost use Rattle.device.specs.Holds.{abs, Valid};
ghost use Rattle.device.specs.Wholes.{arrays};
ghost use Rattle.calls.specs.Answers.{dated_call, dated_work};
ghost use Rattle.host.specs.Takes.{TakeWorks, TakesWith};

use crate::answers;
use crate::answers::TakeCore;
use calls::settle_at;
use device::Core;
use queue::Cursor;

fn carry_out<'a, 'b>(
    core: Core,
    gone_at: &'a [u64; 129],
    flight: &'a [u8; 129],
    tx: &'a mut [u8; 1152],
    host: &'a [u8; 1024],
    run_at: &'a [u64; 64],
    run_len: &'a mut [u64; 64],
    rx: &'a mut [u8; 128],
    cycle: u64,
    out: &'b mut [u8],
) -> TakeCore
    requires { Valid core (arrays gone_at.now flight.now tx.old host.now run_at.now run_len.old rx.old)
        × (cycle < date_end) × (sent_limit ≤ length out.old) }
    ensures { TakeWorks
        (dated_work cycle (take_tx cycle out.old) (abs core (arrays gone_at.now flight.now tx.old host.now run_at.now run_len.old rx.old)))
        result.core
        (arrays gone_at.now flight.now tx.new host.now run_at.now run_len.new rx.new)
        result.reply result.report out.new }
{
    let t = settle_at::settle_at(core, gone_at, flight, tx, host, run_at, run_len, rx, cycle);
    let mut settled = t.core;
    let count = queue::copy::copy_out(settled.tx, 1152, tx, out);
    settled.tx = Cursor::new();
    answers::done(settled, count, t.passes, t.overflows)
}

pub fn take_tx<'a, 'b>(
    core: Core,
    gone_at: &'a [u64; 129],
    flight: &'a [u8; 129],
    tx: &'a mut [u8; 1152],
    host: &'a [u8; 1024],
    run_at: &'a [u64; 64],
    run_len: &'a mut [u64; 64],
    rx: &'a mut [u8; 128],
    cycle: u64,
    out: &'b mut [u8],
) -> TakeCore
    requires { Valid core (arrays gone_at.now flight.now tx.old host.now run_at.now run_len.old rx.old) }
    ensures { TakesWith (dated_call cycle (take_tx cycle out.old)) core
        (arrays gone_at.now flight.now tx.old host.now run_at.now run_len.old rx.old) result.core
        (arrays gone_at.now flight.now tx.new host.now run_at.now run_len.new rx.new)
        result.reply result.report out.new }
{
    let control = core.control;
    let tests = replies::refusals::take_refusal(cycle, control.last, out.len());
    match tests {
        Err(refusal) => answers::refuse(core, refusal),
        Ok(()) => carry_out(
            core, gone_at, flight, tx, host, run_at, run_len, rx, cycle, out,
        ),
    }
}
