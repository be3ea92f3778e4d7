// read, for Rust and C: the core in plain numbers by value, the slots of the queues by pointer.
ghost use Rattle.std.specs.Prelude.{◌≡◌};
ghost use Rattle.model.specs.Replies.{as_read, read_number};
ghost use Rattle.model.specs.Calls.{read};
ghost use Rattle.device.specs.Holds.{abs, Valid};
ghost use Rattle.device.specs.Wholes.{arrays};
ghost use Rattle.calls.specs.Answers.{dated_call, Answers};
ghost use Rattle.ffi.specs.Plain.{core_of};
ghost use Rattle.ffi.specs.Replies.{plain_read};
ghost use Rattle.ffi.specs.Answers.{Plainly};

use ffi::PlainCore;
use ffi::answers::PlainAnswer;

#[unsafe(no_mangle)]
pub extern "C" fn wondraxu_read<'a>(
    core: PlainCore,
    gone_at: &'a [u64; 129],
    flight: &'a [u8; 129],
    tx: &'a mut [u8; 1152],
    host: &'a [u8; 1024],
    run_at: &'a [u64; 64],
    run_len: &'a mut [u64; 64],
    rx: &'a mut [u8; 128],
    cycle: u64,
    offset: u32,
) -> PlainAnswer
    requires { Valid (core_of core) (arrays gone_at.now flight.now tx.old host.now run_at.now run_len.old rx.old) }
    ensures { Plainly plain_read
        (λ c c'. Answers as_read read_number
        (dated_call cycle (read cycle offset) (abs c (arrays gone_at.now flight.now tx.old host.now run_at.now run_len.old rx.old))) c
        (arrays gone_at.now flight.now tx.old host.now run_at.now run_len.old rx.old)
        c'
        (arrays gone_at.now flight.now tx.new host.now run_at.now run_len.new rx.new)) core result }
{
    let from = ffi::core_of(core);
    let done = access::read::read(
        from, gone_at, flight, tx, host, run_at, run_len, rx, cycle, offset,
    );
    ffi::answers::read_answer(done)
}
