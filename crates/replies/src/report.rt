// The report of a dated call, and the fixed one of a call that is refused or undated.
ghost use Rattle.std.specs.Prelude.{◌≡◌};
ghost use Rattle.model.specs.Replies.{no_report};
ghost use Rattle.replies.specs.Reports.{reported};

use crate::notices::Notices;
use model::{Date, Report};

// The level, and the wake in cycles, as the call leaves them.
#[tactic(auto, unfolding(crate::specs::Reports::reported))]
pub fn report(level: bool, wake: Date, overflows: u64, passes: u64, notices: Notices) -> Report
    ensures { result ≡ reported level wake overflows passes notices }
{
    let list = notices.list;
    Report {
        level,
        wake,
        overflows,
        passes,
        notices: list,
        noted: notices.count,
    }
}

#[tactic(auto, using(crate::specs::Reports::reported_none))]
pub fn no_report() -> Report
    ensures { result ≡ no_report }
{
    report(false, None, 0, 0, crate::notices::none())
}
