// write_row, for Rust and C: the core in plain numbers by value, the slots of the queues and the bytes by pointer.
ghost use Rattle.std.specs.Prelude.{◌≡◌};
ghost use Rattle.model.specs.Row.{row_number, row};
ghost use Rattle.device.specs.Holds.{abs, Valid};
ghost use Rattle.device.specs.Wholes.{arrays};
ghost use Rattle.calls.specs.Answers.{Answers};
ghost use Rattle.ffi.specs.Plain.{core_of};
ghost use Rattle.ffi.specs.Answers.{PlainlyRow};

use ffi::PlainCore;
use ffi::answers::PlainRowAnswer;

#[unsafe(no_mangle)]
pub extern "C" fn wondraxu_write_row<'a, 'b>(
    core: PlainCore,
    gone_at: &'a mut [u64; 129],
    flight: &'a mut [u8; 129],
    tx: &'a mut [u8; 1152],
    host: &'a [u8; 1024],
    run_at: &'a [u64; 64],
    run_len: &'a mut [u64; 64],
    rx: &'a mut [u8; 128],
    cycle: u64,
    bytes: &'b [u8],
) -> PlainRowAnswer
    requires { Valid (core_of core) (arrays gone_at.old flight.old tx.old host.now run_at.now run_len.old rx.old) }
    ensures { PlainlyRow
        (λ c c'. Answers (λ x. x) row_number
        (row cycle bytes.now (abs c (arrays gone_at.old flight.old tx.old host.now run_at.now run_len.old rx.old))) c
        (arrays gone_at.old flight.old tx.old host.now run_at.now run_len.old rx.old)
        c'
        (arrays gone_at.new flight.new tx.new host.now run_at.now run_len.new rx.new)) core result }
{
    let from = ffi::core_of(core);
    let done = access::row::write_row(
        from, gone_at, flight, tx, host, run_at, run_len, rx, cycle, bytes,
    );
    ffi::answers::row_answer(done)
}
