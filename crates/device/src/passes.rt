// The receive line, pass by pass, to the first pass that finds nothing due.
ghost use Rattle.std.specs.Prelude.{◌≡◌, ◌≤◌};
ghost use Rattle.device.specs.Receives.{Fit};
ghost use Rattle.model.specs.Timing.{settings as Timing·settings};
ghost use Rattle.model.specs.Tests.{period_limit};
ghost use Rattle.device.specs.Ends.{Ends};
ghost use Rattle.device.specs.Quiet.{starts_later, comes_later, quiet as Quiet·quiet};

use crate::pass::Reception;
use line::Receiving;
use model::{Date, Settings, Words};

// The line after its passes, how many were made, and the bytes lost with UartRxOverflow.
#[derive(Clone, Copy)]
pub struct Passes {
    pub reception: Reception,
    pub passes: u64,
    pub overflows: u64,
}

// Pass by pass, to the first that finds nothing due.
pub fn take_all_on_the_line<'a>(
    from: Reception,
    settings: Settings,
    date: u64,
    host: &'a [u8; 1024],
    run_at: &'a [u64; 64],
    run_len: &'a mut [u64; 64],
    rx: &'a mut [u8; 128],
) -> Passes
    requires { Fit from host.now run_at.now run_len.old rx.old }
    ensures { Ends settings date from host.now run_at.now run_len.old rx.old
        result.reception run_len.new rx.new result.passes result.overflows }
{
    let mut at = from;
    let mut passes: u64 = 0;
    let mut overflows: u64 = 0;
    let made = loop {
        let p = crate::pass::take_next_on_the_line(at, settings, date, host, run_at, run_len, rx);
        let found = p.found;
        let reception = p.reception;
        at = reception;
        passes = passes + 1;
        overflows = overflows + line::fate::overflow_of(found);
        let more = line::fate::goes_on(found);
        if !more {
            break passes;
        }
    };
    Passes {
        reception: at,
        passes: made,
        overflows,
    }
}

// Whether the first host byte that waits starts later than a date, or none waits.
fn starts_later(waits: Date, free: u64, date: u64) -> bool
    ensures { result ≡ starts_later waits free date }
{
    match waits {
        None => true,
        Some(run) => date < dates::later(run, free),
    }
}

// Whether what is on the line, or else the first that waits, comes later than a date.
fn comes_later(receiving: Receiving, waits: Date, free: u64, date: u64) -> bool
    ensures { result ≡ comes_later receiving waits free date }
{
    match receiving {
        None => starts_later(waits, free, date),
        Some(_) => date < free,
    }
}

// Whether nothing is due on the line by a date, whatever the settings: no idle line is open, and what comes next is later.
fn quiet(since: Date, receiving: Receiving, waits: Date, free: u64, date: u64) -> bool
    ensures { result ≡ Quiet·quiet since receiving waits free date }
{
    match since {
        None => comes_later(receiving, waits, free, date),
        Some(_) => false,
    }
}

// All passes, the settings read from the words; where nothing is due they are not read, and the line stays as it is.
pub fn settle_line<'a>(
    from: Reception,
    words: Words,
    period: u64,
    date: u64,
    host: &'a [u8; 1024],
    run_at: &'a [u64; 64],
    run_len: &'a mut [u64; 64],
    rx: &'a mut [u8; 128],
) -> Passes
    requires { Fit from host.now run_at.now run_len.old rx.old × (period ≤ period_limit) }
    ensures { Ends (Timing·settings words period) date from host.now run_at.now
        run_len.old rx.old
        result.reception run_len.new rx.new result.passes result.overflows }
{
    let run = from.runs.start;
    let run_date = run_at[run];
    let line = from.line;
    let since = line.idle_since;
    let receiving = from.receiving;
    let waits = crate::runs::waiting(from.host.count, from.runs.count, run_date);
    if quiet(since, receiving, waits, line.line_free_at, date) {
        Passes {
            reception: from,
            passes: 1,
            overflows: 0,
        }
    } else {
        let settings = timing::settings(words, period);
        take_all_on_the_line(from, settings, date, host, run_at, run_len, rx)
    }
}
