// What every dated call answers after its result.
ghost use Rattle.std.specs.Prelude.{◌++◌};
ghost use Rattle.text.specs.Output.{Put};
ghost use Rattle.text.specs.Decimal.{decimal};
ghost use Rattle.text.specs.Chains.{Room, Puts};
ghost use Rattle.answers.specs.Reports.{level_text, wake_text, front_text, passes_text, report_text, row_report_text};

use crate::notices::{put_counts, put_notices};
use model::{Date, Made, Report};
use text::output::put;
use text::spelling::put_decimal;

// A name and a number.
pub fn put_field(out: &mut [u8], at: usize, name: &[u8], number: u64) -> usize
    ensures { Puts (name.now ++ decimal number) out.old at out.new result }
{
    let named = put(out, at, name);
    put_decimal(out, named, number)
}

fn put_wake(out: &mut [u8], at: usize, wake: Date) -> usize
    ensures { Puts (wake_text wake) out.old at out.new result }
{
    match wake {
        None => put(out, at, b" wake=-"),
        Some(cycle) => put_field(out, at, b" wake=", cycle),
    }
}

fn put_level(out: &mut [u8], at: usize, level: bool) -> usize
    ensures { Put (level_text level) out.old at out.new result }
{
    if level {
        put(out, at, b" level=1")
    } else {
        put(out, at, b" level=0")
    }
}

// What stands before the notices.
fn put_front(out: &mut [u8], at: usize, report: Report) -> usize
    ensures { Puts (front_text report) out.old at out.new result }
{
    let level = put_level(out, at, report.level);
    let date = report.wake;
    let wake = put_wake(out, level, date);
    let overflows = put_field(out, wake, b" overflows=", report.overflows);
    put(out, overflows, b" notices=")
}

// What stands after them: the passes, and the end of the line.
fn put_passes(out: &mut [u8], at: usize, passes: u64) -> usize
    ensures { Puts (passes_text passes) out.old at out.new result }
{
    let number = put_field(out, at, b" passes=", passes);
    put(out, number, b"\n")
}

// Puts it, and the end of the line.
pub fn put_report(out: &mut [u8], at: usize, report: Report) -> usize
    requires { Room (report_text report) out.old at }
    ensures { Put (report_text report) out.old at out.new result }
{
    let front = put_front(out, at, report);
    let list = report.notices;
    let notices = put_notices(out, front, list, report.noted);
    put_passes(out, notices, report.passes)
}

// The same of a row, whose notices are counted.
pub fn put_row_report(out: &mut [u8], at: usize, made: Made, report: Report) -> usize
    requires { Room (row_report_text made report) out.old at }
    ensures { Put (row_report_text made report) out.old at out.new result }
{
    let front = put_front(out, at, report);
    let list = report.notices;
    let counts = put_counts(out, front, list, report.noted, made.first, made.second);
    put_passes(out, counts, report.passes)
}
