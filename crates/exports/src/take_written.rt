// take_written, for Rust and C: the core in plain numbers by value, the slots of the queues and the buffer by pointer.
ghost use Rattle.std.specs.Prelude.{◌≡◌};
ghost use Rattle.model.specs.Calls.{take_written};
ghost use Rattle.device.specs.Holds.{Valid};
ghost use Rattle.device.specs.Wholes.{arrays};
ghost use Rattle.calls.specs.Answers.{undated_call};
ghost use Rattle.host.specs.Takes.{TakesWith};
ghost use Rattle.ffi.specs.Plain.{core_of};
ghost use Rattle.ffi.specs.Replies.{plain_taken};
ghost use Rattle.ffi.specs.Answers.{Plainly};

use ffi::PlainCore;
use ffi::answers::PlainAnswer;

#[unsafe(no_mangle)]
pub extern "C" fn wondraxu_take_written<'a>(
    core: PlainCore,
    gone_at: &'a [u64; 129],
    flight: &'a [u8; 129],
    tx: &'a [u8; 1152],
    host: &'a [u8; 1024],
    run_at: &'a [u64; 64],
    run_len: &'a [u64; 64],
    rx: &'a [u8; 128],
    out: &'a mut [u8],
) -> PlainAnswer
    requires { Valid (core_of core) (arrays gone_at.now flight.now tx.now host.now run_at.now run_len.now rx.now) }
    ensures { Plainly plain_taken
        (λ c c' reply report. TakesWith (undated_call (take_written out.old)) c
        (arrays gone_at.now flight.now tx.now host.now run_at.now run_len.now rx.now)
        c'
        (arrays gone_at.now flight.now tx.now host.now run_at.now run_len.now rx.now)
        reply report out.new)
        core result }
{
    let from = ffi::core_of(core);
    let done = host::take_written::take_written(
        from, gone_at, flight, tx, host, run_at, run_len, rx, out,
    );
    ffi::answers::taken_answer(done)
}
