// power_down, for Rust and C: the core in plain numbers by value, the slots of the queues by pointer.
ghost use Rattle.std.specs.Prelude.{◌≡◌};
ghost use Rattle.model.specs.Calls.{machine};
ghost use Rattle.model.specs.Call.{Machine};
ghost use Rattle.device.specs.Holds.{Valid};
ghost use Rattle.device.specs.Wholes.{arrays};
ghost use Rattle.calls.specs.Answers.{dated_call, DoneWith};
ghost use Rattle.ffi.specs.Plain.{core_of};
ghost use Rattle.ffi.specs.Replies.{plain_done};
ghost use Rattle.ffi.specs.Answers.{Plainly};

use ffi::PlainCore;
use ffi::answers::PlainAnswer;

#[unsafe(no_mangle)]
pub extern "C" fn wondraxu_power_down<'a>(
    core: PlainCore,
    gone_at: &'a [u64; 129],
    flight: &'a [u8; 129],
    tx: &'a [u8; 1152],
    host: &'a [u8; 1024],
    run_at: &'a [u64; 64],
    run_len: &'a [u64; 64],
    rx: &'a [u8; 128],
    cycle: u64,
) -> PlainAnswer
    requires { Valid (core_of core) (arrays gone_at.now flight.now tx.now host.now run_at.now run_len.now rx.now) }
    ensures { Plainly plain_done
        (λ c c'. DoneWith (dated_call cycle (machine cycle Machine.power_down)) c
        (arrays gone_at.now flight.now tx.now host.now run_at.now run_len.now rx.now)
        c'
        (arrays gone_at.now flight.now tx.now host.now run_at.now run_len.now rx.now)) core result }
{
    let from = ffi::core_of(core);
    let done = calls::power_down::power_down(
        from, gone_at, flight, tx, host, run_at, run_len, rx, cycle,
    );
    ffi::answers::done_answer(done)
}
