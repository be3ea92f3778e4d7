// take_tx, for Rust and C: the core in plain numbers by value, the slots of the queues by pointer.
ghost use Rattle.std.specs.Prelude.{◌≡◌};
ghost use Rattle.model.specs.Calls.{take_tx};
ghost use Rattle.device.specs.Holds.{Valid};
ghost use Rattle.device.specs.Wholes.{arrays};
ghost use Rattle.calls.specs.Answers.{dated_call};
ghost use Rattle.host.specs.Takes.{TakesWith};
ghost use Rattle.ffi.specs.Plain.{core_of};
ghost use Rattle.ffi.specs.Replies.{plain_taken};
ghost use Rattle.ffi.specs.Answers.{Plainly};

use ffi::PlainCore;
use ffi::answers::PlainAnswer;

#[unsafe(no_mangle)]
pub extern "C" fn wondraxu_take_tx<'a, 'b>(
    core: PlainCore,
    gone_at: &'a [u64; 129],
    flight: &'a [u8; 129],
    tx: &'a mut [u8; 1152],
    host: &'a [u8; 1024],
    run_at: &'a [u64; 64],
    run_len: &'a mut [u64; 64],
    rx: &'a mut [u8; 128],
    cycle: u64,
    out: &'b mut [u8],
) -> PlainAnswer
    requires { Valid (core_of core) (arrays gone_at.now flight.now tx.old host.now run_at.now run_len.old rx.old) }
    ensures { Plainly plain_taken
        (λ c c' reply report. TakesWith (dated_call cycle (take_tx cycle out.old)) c
        (arrays gone_at.now flight.now tx.old host.now run_at.now run_len.old rx.old)
        c'
        (arrays gone_at.now flight.now tx.new host.now run_at.now run_len.new rx.new)
        reply report out.new)
        core result }
{
    let from = ffi::core_of(core);
    let done = host::take_tx::take_tx(
        from, gone_at, flight, tx, host, run_at, run_len, rx, cycle, out,
    );
    ffi::answers::taken_answer(done)
}
