// receive, for Rust and C: the core in plain numbers by value, the slots of the queues by pointer.
ghost use Rattle.std.specs.Prelude.{◌≡◌};
ghost use Rattle.model.specs.Calls.{receive};
ghost use Rattle.device.specs.Holds.{Valid};
ghost use Rattle.device.specs.Wholes.{arrays};
ghost use Rattle.calls.specs.Answers.{dated_call, DoneWith};
ghost use Rattle.ffi.specs.Plain.{core_of};
ghost use Rattle.ffi.specs.Replies.{plain_done};
ghost use Rattle.ffi.specs.Answers.{Plainly};

use ffi::PlainCore;
use ffi::answers::PlainAnswer;

#[unsafe(no_mangle)]
pub extern "C" fn wondraxu_receive<'a, 'b>(
    core: PlainCore,
    gone_at: &'a [u64; 129],
    flight: &'a [u8; 129],
    tx: &'a mut [u8; 1152],
    host: &'a mut [u8; 1024],
    run_at: &'a mut [u64; 64],
    run_len: &'a mut [u64; 64],
    rx: &'a mut [u8; 128],
    cycle: u64,
    at: u64,
    bytes: &'b [u8],
) -> PlainAnswer
    requires { Valid (core_of core) (arrays gone_at.now flight.now tx.old host.old run_at.old run_len.old rx.old) }
    ensures { Plainly plain_done
        (λ c c'. DoneWith (dated_call cycle (receive cycle at bytes.now)) c
        (arrays gone_at.now flight.now tx.old host.old run_at.old run_len.old rx.old)
        c'
        (arrays gone_at.now flight.now tx.new host.new run_at.new run_len.new rx.new)) core result }
{
    let from = ffi::core_of(core);
    let done = host::receive::receive(
        from, gone_at, flight, tx, host, run_at, run_len, rx, cycle, at, bytes,
    );
    ffi::answers::done_answer(done)
}
