// has_left and host_pending, for Rust and C: the core in plain numbers by value.
ghost use Rattle.std.specs.Prelude.{◌≡◌};
ghost use Rattle.model.specs.Calls.{has_left, host_pending};
ghost use Rattle.queue.specs.Cursors.{Held};
ghost use Rattle.device.specs.Holds.{Arrays, abs};
ghost use Rattle.calls.specs.Answers.{undated_call};
ghost use Rattle.calls.specs.Undated.{left_reply, pending_reply};
ghost use Rattle.ffi.specs.Plain.{core_of};
ghost use Rattle.ffi.specs.Replies.{plain_left, plain_pending};

use ffi::PlainCore;
use ffi::results::PlainReply;

#[unsafe(no_mangle)]
pub extern "C" fn wondraxu_has_left(core: PlainCore) -> PlainReply
    ensures { (a : Arrays) → result ≡ plain_left (left_reply (undated_call has_left (abs (core_of core) a)).reply) }
{
    let from = ffi::core_of(core);
    let answer = calls::queries::has_left(from);
    ffi::results::left_reply(answer)
}

#[unsafe(no_mangle)]
pub extern "C" fn wondraxu_host_pending(core: PlainCore) -> PlainReply
    requires { Held 1024 (core_of core).host }
    ensures { (a : Arrays) → result ≡ plain_pending (pending_reply (undated_call host_pending (abs (core_of core) a)).reply) }
{
    let from = ffi::core_of(core);
    let answer = calls::queries::host_pending(from);
    ffi::results::pending_reply(answer)
}
