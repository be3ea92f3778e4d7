// A pass over the receive line: control decides on numbers and marks, and the bytes follow.
ghost use Rattle.std.specs.Prelude.{◌≡◌, ◌-◌};
ghost use Rattle.model.specs.Numbers.{choose};
ghost use Rattle.device.specs.Receives.{num, spent, Fit, Passes};

use line::{Found, Receiving};
use model::{Line, Settings};
use queue::Cursor;

// What a pass changes beside the arrays.
#[derive(Clone, Copy)]
pub struct Reception {
    pub line: Line,
    pub receiving: Receiving,
    pub byte: u8,
    pub host: Cursor,
    pub runs: Cursor,
    pub rx: Cursor,
}

#[derive(Clone, Copy)]
pub struct Pass {
    pub reception: Reception,
    pub found: Found,
}

fn choose(yes: bool, new: u8, old: u8) -> u8
    ensures { result ≡ choose yes new old }
{
    if yes { new } else { old }
}

// One less where `yes`, and none of none.
fn less_if(n: u64, yes: bool) -> u64
    ensures { result ≡ n - num yes }
{
    if yes {
        if n == 0 { 0 } else { n - 1 }
    } else {
        n
    }
}

// Whether a run of n bytes goes, where one of them starts.
fn is_spent(yes: bool, n: u64) -> bool
    ensures { result ≡ spent yes n }
{
    if yes { n <= 1 } else { false }
}

// One pass. A byte that starts comes off the host's queue, and a stored one goes to the back of the receive FIFO. Both stores
// are made in every pass, of what stood there where nothing moves, so that the loop has no branch for them.
pub fn take_next_on_the_line<'a>(
    at: Reception,
    settings: Settings,
    date: u64,
    host: &'a [u8; 1024],
    run_at: &'a [u64; 64],
    run_len: &'a mut [u64; 64],
    rx: &'a mut [u8; 128],
) -> Pass
    requires { Fit at host.now run_at.now run_len.old rx.old }
    ensures { Passes settings date at host.now run_at.now run_len.old rx.old
        result.reception run_len.new rx.new result.found }
{
    let run = at.runs.start;
    let run_date = run_at[run];
    let count = run_len[run];
    let first = at.host.start;
    let next = at.rx.back(128);
    let receiving = at.receiving;
    let line = at.line;
    let waits = crate::runs::waiting(at.host.count, at.runs.count, run_date);
    let m = line::pass::take_next_on_the_line(settings, at.rx.count, date, waits, receiving, line);
    let found = m.found;
    let stored = line::fate::is_stored(found);
    let byte = choose(m.started, host[first], at.byte);
    let old = rx[next];
    rx[next] = choose(stored, byte, old);
    run_len[run] = less_if(count, m.started);
    let moved = m.line;
    let marked = m.receiving;
    let reception = Reception {
        line: moved,
        receiving: marked,
        byte,
        host: at.host.popped_if(1024, m.started),
        runs: at.runs.popped_if(64, is_spent(m.started, count)),
        rx: at.rx.pushed_if(stored),
    };
    Pass { reception, found }
}
