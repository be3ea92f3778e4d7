// The runs of waiting host bytes.
ghost use Rattle.std.specs.Prelude.{◌≡◌, ◌+◌, ◌≤◌, ◌<◌, length, get_or, List, ℕ};
ghost use Rattle.model.specs.Calls.{last_date};
ghost use Rattle.queue.specs.Cursors.{Held};
ghost use Rattle.device.specs.Joins.{Joins, joins as Joins·joins, RoomFor};
ghost use Rattle.device.specs.Waits.{waiting_at};
ghost use Rattle.device.specs.Holds.{runs_of};

use model::Date;
use queue::Cursor;

// The date of the first run, if a host byte waits.
pub fn waiting(host: usize, runs: usize, date: u64) -> Date
    ensures { result ≡ waiting_at host runs date }
{
    if 0 < host {
        if 0 < runs {
            return Some(date);
        }
    }
    None
}

// The date of the last run, in subcycles; 0 where none waits.
pub fn last_date(runs: Cursor, run_at: &[u64; 64]) -> u64
    requires { Held 64 runs × (length run_at.now ≡ 64) }
    ensures { (counts : List ℕ) → result ≡ last_date (runs_of run_at.now counts runs) }
{
    if 0 < runs.count {
        let last = runs.last(64);
        return run_at[last];
    }
    0
}

// Whether bytes for a date join the last run: it is no later than that run's.
fn joins_last(runs: usize, last: u64, date: u64) -> bool
    ensures { result ≡ Joins·joins runs last date }
{
    if 0 < runs { date <= last } else { false }
}

// n bytes for a date join the last run, or make a run of their own.
pub fn join<'a>(
    runs: Cursor,
    run_at: &'a mut [u64; 64],
    run_len: &'a mut [u64; 64],
    date: u64,
    n: u64,
) -> Cursor
    requires { Held 64 runs × (length run_at.old ≡ 64) × (length run_len.old ≡ 64) × RoomFor runs run_at.old
        run_len.old date n }
    ensures { Joins date n runs run_at.old run_len.old result run_at.new
        run_len.new }
{
    let last = runs.last(64);
    if joins_last(runs.count, run_at[last], date) {
        run_len[last] = run_len[last] + n;
        runs
    } else {
        let at = runs.back(64);
        run_at[at] = date;
        run_len[at] = n;
        runs.pushed()
    }
}
