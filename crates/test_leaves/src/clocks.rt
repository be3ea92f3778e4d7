// The clock's periods and the Deadline.
use crate::show;
use model::Date;
use std::io;
use timing::clock::Clock;

fn period(rt: &HostRuntime, p: u64) -> io::Result<()> {
    show::text(rt, b"period")?;
    show::number(rt, p)?;
    show::text(rt, b" =")?;
    show::number(rt, Clock::new(p).apb_period)?;
    show::text(rt, b"\n")
}

pub(crate) fn periods(rt: &HostRuntime) -> io::Result<()> {
    show::text(rt, b"crystal, power-on =")?;
    show::number(rt, Clock::XTAL_PERIOD)?;
    show::number(rt, Clock::POWER_ON.apb_period)?;
    show::text(rt, b"\n")?;
    period(rt, 0)?;
    period(rt, 1)?;
    period(rt, 2)?;
    period(rt, 1000000)?;
    period(rt, 0xFFFF_FFFF_FFFF_FFFF)
}

fn armed(rt: &HostRuntime, due: Date, instant: Date) -> io::Result<()> {
    show::text(rt, b"arm")?;
    show::date(rt, due)?;
    show::date(rt, instant)?;
    show::text(rt, b" =")?;
    show::date(rt, deadline::arm(due, instant))?;
    show::text(rt, b"\n")
}

// At the cycle `at`, which begins at the subcycle `instant`.
fn earlier(rt: &HostRuntime, due: Date, at: u64, instant: u64) -> io::Result<()> {
    show::text(rt, b"earliest")?;
    show::date(rt, due)?;
    show::number(rt, at)?;
    show::text(rt, b" =")?;
    show::date(rt, deadline::arm(due, Some(instant)))?;
    show::text(rt, b"\n")
}

fn called(rt: &HostRuntime, due: Date, at: u64) -> io::Result<()> {
    show::text(rt, b"called")?;
    show::date(rt, due)?;
    show::number(rt, at)?;
    show::text(rt, b" =")?;
    show::date(rt, deadline::called(due, at))?;
    show::text(rt, b"\n")
}

// The earliest is kept; the largest subcycle is cycle 2^59; a call at or after the date clears it.
pub(crate) fn deadlines(rt: &HostRuntime) -> io::Result<()> {
    armed(rt, None, None)?;
    armed(rt, Some(520), None)?;
    armed(rt, None, Some(16640))?;
    armed(rt, Some(520), Some(16641))?;
    armed(rt, Some(520), Some(16608))?;
    armed(rt, None, Some(0xFFFF_FFFF_FFFF_FFFF))?;
    earlier(rt, None, 0, 0)?;
    earlier(rt, Some(520), 521, 16672)?;
    earlier(rt, Some(520), 519, 16608)?;
    called(rt, None, 520)?;
    called(rt, Some(520), 519)?;
    called(rt, Some(520), 520)?;
    called(rt, Some(520), 521)
}
