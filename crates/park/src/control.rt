// The dates and marks that are always there.
ghost use Rattle.std.specs.Prelude.{◌+◌, ◌≤◌, length};
ghost use Rattle.form.specs.Cells.{field_bytes};
ghost use Rattle.device.specs.Holds.{on_the_line};
ghost use Rattle.park.specs.Puts.{Puts};
ghost use Rattle.park.specs.Fields.{date_fields, control_fields, line_fields};

use crate::marks;
use crate::put::put;
use line::Receiving;
use model::{Control, Date, Line};

// A mark, and the date or 0.
fn put_date(out: &mut [u8], at: usize, date: Date) -> usize
    requires { at + 9 ≤ length out.old }
    ensures { Puts 9 (field_bytes (date_fields date)) out.old at out.new result }
{
    let marked = put(out, at, 1, marks::date_mark(date));
    put(out, marked, 8, marks::instant(date))
}

// Those of the control but the line's.
pub(crate) fn put_control(out: &mut [u8], at: usize, control: Control) -> usize
    requires { at + 36 ≤ length out.old }
    ensures { Puts 36 (field_bytes (control_fields control)) out.old at out.new result }
{
    let wake = control.wake;
    let down = control.powered_down_at;
    let dated = put(out, at, 8, control.last);
    let armed = put_date(out, dated, wake);
    let clocked = put(out, armed, 8, control.period);
    let powered = put_date(out, clocked, down);
    let watched = put(out, powered, 1, marks::mark(control.watched));
    put(out, watched, 1, marks::mark(control.level))
}

// The line's, with those of the byte on it.
pub(crate) fn put_line(out: &mut [u8], at: usize, line: Line, receiving: Receiving) -> usize
    requires { at + 24 ≤ length out.old }
    ensures { Puts 24 (field_bytes (line_fields line (on_the_line receiving 0))) out.old at out.new result }
{
    let mistimed = line.rx_mistimed;
    let since = line.idle_since;
    let raw = put(out, at, 4, line.int_raw as u64);
    let sourced = put(out, raw, 1, marks::source_number(mistimed));
    let idle = put_date(out, sourced, since);
    let free = put(out, idle, 8, line.line_free_at);
    let heard = put(out, free, 1, marks::frame_mark(receiving));
    put(out, heard, 1, marks::frame_source(receiving))
}
