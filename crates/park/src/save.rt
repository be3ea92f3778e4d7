// save: the form of a state, put at the front of a lent buffer. The state stays as it is.
ghost use Rattle.std.specs.Prelude.{◌≡◌, ◌+◌, ◌*◌, ◌≤◌, length};
ghost use Rattle.device.specs.Holds.{abs, Valid};
ghost use Rattle.device.specs.Wholes.{lent};
ghost use Rattle.form.specs.Form.{shortest_form};
ghost use Rattle.form.specs.Load.{saved};
ghost use Rattle.park.specs.Puts.{Puts};
ghost use Rattle.park.specs.Head.{Cursors, bytes_length};
ghost use Rattle.park.specs.Saves.{Saves, numbers_in, queues_in};

use crate::control::{put_control, put_line};
use crate::head::{form_length, put_head};
use crate::rings::{put_bytes, put_dates, put_on_the_line, put_runs};
use crate::words::{put_map, put_words};
use device::Core;
use model::{Refusal, Taken};

// The head and the three parts of numbers.
fn save_numbers<'a>(out: &'a mut [u8], core: Core, gone_at: &'a [u64; 129]) -> usize
    requires { Cursors core × (length core.map.offsets ≡ 16) × (length gone_at.now ≡ 129)
        × (shortest_form + 8 * core.flight.count ≤ length out.old) }
    ensures { Puts (shortest_form + 8 * core.flight.count) (numbers_in core gone_at.now)
        out.old 0 out.new result }
{
    let map = core.map;
    let control = core.control;
    let words = control.words;
    let line = control.line;
    let receiving = core.receiving;
    let headed = put_head(out, core);
    let placed = put_map(out, headed, map);
    let stored = put_words(out, placed, words);
    let dated = put_control(out, stored, control);
    let marked = put_line(out, dated, line, receiving);
    put_dates(out, marked, core.flight, gone_at)
}

// The four parts that the queues fill: the bytes that left before those in flight, the byte on the line before those that wait.
fn save_queues<'a>(
    out: &'a mut [u8],
    at: usize,
    core: Core,
    flight: &'a [u8; 129],
    tx: &'a [u8; 1152],
    host: &'a [u8; 1024],
    run_at: &'a [u64; 64],
    run_len: &'a [u64; 64],
    rx: &'a [u8; 128],
) -> usize
    requires { Cursors core × (length flight.now ≡ 129) × (length tx.now ≡ 1152) × (length host.now ≡ 1024)
        × (length run_at.now ≡ 64) × (length run_len.now ≡ 64) × (length rx.now ≡ 128)
        × (at + bytes_length core ≤ length out.old) }
    ensures { Puts (bytes_length core) (queues_in core flight.now tx.now host.now
        run_at.now run_len.now rx.now) out.old at out.new result }
{
    let receiving = core.receiving;
    let left = put_bytes(out, at, core.tx, 1152, tx);
    let flown = put_bytes(out, left, core.flight, 129, flight);
    let started = put_on_the_line(out, flown, receiving, core.byte);
    let waiting = put_bytes(out, started, core.host, 1024, host);
    let dated = put_runs(out, waiting, core.runs, run_at, run_len);
    put_bytes(out, dated, core.rx, 128, rx)
}

// 8 for a buffer shorter than this state's form, which then stays as it was; else how long the form is.
pub fn save<'a>(
    core: Core,
    gone_at: &'a [u64; 129],
    flight: &'a [u8; 129],
    tx: &'a [u8; 1152],
    host: &'a [u8; 1024],
    run_at: &'a [u64; 64],
    run_len: &'a [u64; 64],
    rx: &'a [u8; 128],
    out: &'a mut [u8],
) -> Taken
    requires { Valid core (lent gone_at flight tx host run_at run_len rx) }
    ensures { Saves (saved out.old (abs core (lent gone_at.entry flight.entry tx.entry host.entry
        run_at.entry run_len.entry rx.entry))).reply result out.new }
{
    let needed = form_length(core);
    if out.len() < needed {
        return Err(Refusal::BufferTooShort);
    }
    let at = save_numbers(out, core, gone_at);
    let end = save_queues(out, at, core, flight, tx, host, run_at, run_len, rx);
    Ok(end)
}
