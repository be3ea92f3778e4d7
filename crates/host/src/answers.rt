// What take_tx and take_written give back beside the lent buffer.
ghost use Rattle.std.specs.Prelude.{◌≡◌};
ghost use Rattle.calls.specs.Answers.{refused_core};
ghost use Rattle.host.specs.Takes.{taken_core, undated_core};

use calls::answers;
use calls::answers::CallCore;
use device::Core;
use model::{Refusal, Taken};
use replies::{notices, report};

pub type TakeCore = CallCore<Taken>;

// So many bytes stand at the front of the lent buffer, after a settling.
pub fn done(core: Core, count: usize, passes: u64, overflows: u64) -> TakeCore
    ensures { result ≡ taken_core core count passes overflows }
{
    answers::answer(core, Ok(count), passes, overflows, notices::none())
}

// The same of an undated call, which has no report of its own.
pub fn undated(core: Core, count: usize) -> TakeCore
    ensures { result ≡ undated_core core count }
{
    let none = report::no_report();
    CallCore {
        core,
        reply: Ok(count),
        report: none,
    }
}

pub fn refuse(core: Core, refusal: Refusal) -> TakeCore
    ensures { result ≡ refused_core core refusal }
{
    answers::refuse(core, refusal)
}
