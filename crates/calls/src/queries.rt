// has_left and host_pending: undated, and they read the core alone. Each answers document 01's number and its own result.
ghost use Rattle.std.specs.Prelude.{◌≡◌};
ghost use Rattle.model.specs.Calls.{has_left, host_pending};
ghost use Rattle.queue.specs.Cursors.{Held};
ghost use Rattle.device.specs.Holds.{Arrays, abs};
ghost use Rattle.calls.specs.Answers.{undated_call};
ghost use Rattle.calls.specs.Undated.{left_reply, pending_reply};

use device::Core;

#[repr(C)]
#[derive(Clone, Copy)]
pub struct HasLeft {
    pub number: u32,
    pub has_left: bool,
}

#[repr(C)]
#[derive(Clone, Copy)]
pub struct HostPending {
    pub number: u32,
    pub count: usize,
}

// Whether a byte has left that no call has taken.
pub fn has_left(core: Core) -> HasLeft
    ensures { (a : Arrays) → result ≡ left_reply (undated_call has_left (abs core a)).reply }
{
    let has_left = 0 < core.tx.count;
    HasLeft {
        number: 0,
        has_left,
    }
}

fn pending(core: Core) -> usize
    requires { Held 1024 core.host }
    ensures { (a : Arrays) → result ≡ (undated_call host_pending (abs core a)).reply }
{
    let receiving = core.receiving;
    match receiving {
        None => core.host.count,
        Some(_) => core.host.count + 1,
    }
}

// The host bytes that have not landed: those that wait, and the one on the line.
pub fn host_pending(core: Core) -> HostPending
    requires { Held 1024 core.host }
    ensures { (a : Arrays) → result ≡ pending_reply (undated_call host_pending (abs core a)).reply }
{
    let count = pending(core);
    HostPending { number: 0, count }
}
