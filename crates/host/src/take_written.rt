// take_written: all that was written is handed out, the bytes that left and then those in flight. It does not settle.
ghost use Rattle.std.specs.Prelude.{◌≡◌, ◌+◌, ◌≤◌, length};
ghost use Rattle.model.specs.Tests.{sent_limit};
ghost use Rattle.model.specs.Calls.{take_written};
ghost use Rattle.queue.specs.Cursors.{Held};
ghost use Rattle.device.specs.Holds.{Valid};
ghost use Rattle.device.specs.Wholes.{arrays};
ghost use Rattle.calls.specs.Answers.{undated_call};
ghost use Rattle.host.specs.Takes.{TakesWith};
ghost use Rattle.host.specs.TakesWritten.{Filled};

use crate::answers;
use crate::answers::TakeCore;
use device::Core;
use queue::Cursor;

// The buffer's rest, from the count of left bytes on, is lent to the second copy.
fn fill<'a>(core: Core, flight: &'a [u8; 129], tx: &'a [u8; 1152], out: &'a mut [u8]) -> usize
    requires { Held 129 core.flight × Held 1152 core.tx × (length flight.now ≡ 129) × (length tx.now ≡ 1152)
        × (core.tx.count + core.flight.count ≤ sent_limit) × (sent_limit ≤ length out.old) }
    ensures { Filled core flight.now tx.now out.old result out.new }
{
    let left = queue::copy::copy_out(core.tx, 1152, tx, out);
    let flying = queue::copy::copy_out(core.flight, 129, flight, &mut out[left..]);
    left + flying
}

pub fn take_written<'a>(
    core: Core,
    gone_at: &'a [u64; 129],
    flight: &'a [u8; 129],
    tx: &'a [u8; 1152],
    host: &'a [u8; 1024],
    run_at: &'a [u64; 64],
    run_len: &'a [u64; 64],
    rx: &'a [u8; 128],
    out: &'a mut [u8],
) -> TakeCore
    requires { Valid core (arrays gone_at.now flight.now tx.now host.now run_at.now run_len.now rx.now) }
    ensures { TakesWith (undated_call (take_written out.old)) core
        (arrays gone_at.now flight.now tx.now host.now run_at.now run_len.now rx.now) result.core
        (arrays gone_at.now flight.now tx.now host.now run_at.now run_len.now rx.now)
        result.reply result.report out.new }
{
    let tests = replies::refusals::written_refusal(out.len());
    match tests {
        Err(refusal) => answers::refuse(core, refusal),
        Ok(()) => {
            let count = fill(core, flight, tx, out);
            let mut rest = core;
            rest.flight = Cursor::new();
            rest.tx = Cursor::new();
            answers::undated(rest, count)
        }
    }
}
