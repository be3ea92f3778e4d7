// What a call gives back: the core that it leaves, its reply and its report.
ghost use Rattle.std.specs.Prelude.{◌≡◌};
ghost use Rattle.calls.specs.Answers.{answer_core, done_core, refused_core};

use device::Core;
use model::{Done, Refusal, Report};
use replies::notices::Notices;
use replies::{notices, report};

#[repr(C)]
#[derive(Clone, Copy)]
pub struct CallCore<R> {
    pub core: Core,
    pub reply: R,
    pub report: Report,
}

pub type DoneCore = CallCore<Done>;

// Carried out, with the passes made, the bytes lost with UartRxOverflow and the notices. Level and wake are the core's.
pub fn answer<R>(core: Core, reply: R, passes: u64, overflows: u64, notices: Notices) -> CallCore<R>
    ensures { result ≡ answer_core core reply passes overflows notices }
{
    let control = core.control;
    let wake = control.wake;
    let report = report::report(control.level, wake, overflows, passes, notices);
    CallCore {
        core,
        reply,
        report,
    }
}

// Carried out, by a call that answers no more than a number.
pub fn done(core: Core, passes: u64, overflows: u64) -> DoneCore
    ensures { result ≡ done_core core passes overflows }
{
    answer(core, Ok(()), passes, overflows, notices::none())
}

pub fn refuse<T>(core: Core, refusal: Refusal) -> CallCore<Result<T, Refusal>>
    ensures { result ≡ refused_core core refusal }
{
    let report = report::no_report();
    CallCore {
        core,
        reply: Err(refusal),
        report,
    }
}
