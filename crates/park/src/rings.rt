// What the queues hold, in order.
ghost use Rattle.std.specs.Prelude.{◌≡◌, map, ◌+◌, ◌*◌, ◌≤◌, length};
ghost use Rattle.model.specs.State.{line_bytes};
ghost use Rattle.queue.specs.Cursors.{Held, slot_of, elems};
ghost use Rattle.device.specs.Holds.{runs_of, on_the_line};
ghost use Rattle.form.specs.Cells.{field_bytes};
ghost use Rattle.form.specs.Form.{long, run_fields};
ghost use Rattle.park.specs.Puts.{Puts};
ghost use Rattle.park.specs.Rings.{line_count};

use crate::put::put;
use line::Receiving;
use queue::Cursor;

// The bytes of a queue: the buffer's rest, from `at` on, is lent to the copy.
pub(crate) fn put_bytes(
    out: &mut [u8],
    at: usize,
    cursor: Cursor,
    cap: usize,
    slots: &[u8],
) -> usize
    requires { Held cap cursor × (length slots.now ≡ cap) × (at + cursor.count ≤ length out.old) }
    ensures { Puts cursor.count (elems (slot_of slots.now 0) cap cursor) out.old at out.new result }
{
    let n = queue::copy::copy_out(cursor, cap, slots, &mut out[at..]);
    at + n
}

// The byte on the line, where one is.
pub(crate) fn put_on_the_line(out: &mut [u8], at: usize, receiving: Receiving, byte: u8) -> usize
    requires { at + line_count receiving ≤ length out.old }
    ensures { Puts (line_count receiving) (line_bytes (on_the_line receiving byte)) out.old at out.new result }
{
    match receiving {
        None => at,
        Some(_) => {
            out[at] = byte;
            at + 1
        }
    }
}

// When each byte in flight has gone.
pub(crate) fn put_dates(out: &mut [u8], at: usize, flight: Cursor, gone_at: &[u64]) -> usize
    requires { Held 129 flight × (length gone_at.now ≡ 129) × (at + 8 * flight.count ≤ length out.old) }
    ensures { Puts (8 * flight.count) (field_bytes (map long (elems (slot_of gone_at.now 0) 129 flight)))
        out.old at out.new result }
{
    let mut place = at;
    for i in 0..flight.count {
        let slot = flight.nth(129, i);
        place = put(out, place, 8, gone_at[slot]);
    }
    place
}

// The date and the count of each run.
pub(crate) fn put_runs(
    out: &mut [u8],
    at: usize,
    runs: Cursor,
    run_at: &[u64],
    run_len: &[u64],
) -> usize
    requires { Held 64 runs × (length run_at.now ≡ 64) × (length run_len.now ≡ 64)
        × (at + 10 * runs.count ≤ length out.old) }
    ensures { Puts (10 * runs.count) (field_bytes (run_fields (runs_of run_at.now run_len.now runs)))
        out.old at out.new result }
{
    let mut place = at;
    for i in 0..runs.count {
        let slot = runs.nth(64, i);
        let dated = put(out, place, 8, run_at[slot]);
        place = put(out, dated, 2, run_len[slot]);
    }
    place
}
