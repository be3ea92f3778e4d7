// write, for Rust and C: the core in plain numbers by value, the slots of the queues by pointer.
ghost use Rattle.std.specs.Prelude.{◌≡◌};
ghost use Rattle.model.specs.Replies.{write_number};
ghost use Rattle.model.specs.Calls.{write};
ghost use Rattle.device.specs.Holds.{abs, Valid};
ghost use Rattle.device.specs.Wholes.{arrays};
ghost use Rattle.calls.specs.Answers.{dated_call, Answers};
ghost use Rattle.ffi.specs.Plain.{core_of};
ghost use Rattle.ffi.specs.Replies.{plain_write};
ghost use Rattle.ffi.specs.Answers.{Plainly};

use ffi::PlainCore;
use ffi::answers::PlainAnswer;

#[unsafe(no_mangle)]
pub extern "C" fn wondraxu_write<'a>(
    core: PlainCore,
    gone_at: &'a mut [u64; 129],
    flight: &'a mut [u8; 129],
    tx: &'a mut [u8; 1152],
    host: &'a [u8; 1024],
    run_at: &'a [u64; 64],
    run_len: &'a mut [u64; 64],
    rx: &'a mut [u8; 128],
    cycle: u64,
    offset: u32,
    value: u32,
) -> PlainAnswer
    requires { Valid (core_of core) (arrays gone_at.old flight.old tx.old host.now run_at.now run_len.old rx.old) }
    ensures { Plainly plain_write
        (λ c c'. Answers (λ x. x) write_number
        (dated_call cycle (write cycle offset value) (abs c (arrays gone_at.old flight.old tx.old host.now run_at.now run_len.old rx.old)))
        c
        (arrays gone_at.old flight.old tx.old host.now run_at.now run_len.old rx.old)
        c'
        (arrays gone_at.new flight.new tx.new host.now run_at.now run_len.new rx.new)) core result }
{
    let from = ffi::core_of(core);
    let done = access::write::write(
        from, gone_at, flight, tx, host, run_at, run_len, rx, cycle, offset, value,
    );
    ffi::answers::write_answer(done)
}
