// Queues at the UART's sizes: filled to the last slot, wrapped, cut and copied out.
ghost use Rattle.std.specs.Prelude.{◌<◌, ◌≤◌};
ghost use Rattle.queue.specs.Cursors.{Held};

use crate::show;
use queue::Cursor;
use std::io;

fn cursor(rt: &HostRuntime, name: &[u8], c: Cursor) -> io::Result<()> {
    show::text(rt, name)?;
    show::text(rt, b" =")?;
    show::number(rt, c.start as u64)?;
    show::number(rt, c.count as u64)?;
    show::text(rt, b"\n")
}

// The slots of the first, the last and the next element.
fn slots(rt: &HostRuntime, cap: usize, c: Cursor) -> io::Result<()>
    requires { Held cap c }
{
    show::text(rt, b"slots")?;
    show::number(rt, cap as u64)?;
    show::text(rt, b" =")?;
    show::number(rt, c.nth(cap, 0) as u64)?;
    show::number(rt, c.last(cap) as u64)?;
    show::number(rt, c.back(cap) as u64)?;
    show::text(rt, b"\n")
}

pub(crate) fn cursors(rt: &HostRuntime) -> io::Result<()> {
    cursor(rt, b"new", Cursor::new())?;
    slots(rt, 128, Cursor { start: 0, count: 0 })?;
    slots(
        rt,
        128,
        Cursor {
            start: 127,
            count: 1,
        },
    )?;
    slots(
        rt,
        129,
        Cursor {
            start: 128,
            count: 129,
        },
    )?;
    slots(
        rt,
        1024,
        Cursor {
            start: 1023,
            count: 1023,
        },
    )?;
    slots(
        rt,
        64,
        Cursor {
            start: 63,
            count: 64,
        },
    )?;
    slots(
        rt,
        1152,
        Cursor {
            start: 1,
            count: 1151,
        },
    )?;
    cursor(
        rt,
        b"pushed",
        Cursor {
            start: 5,
            count: 127,
        }
        .pushed(),
    )?;
    cursor(
        rt,
        b"popped",
        Cursor {
            start: 127,
            count: 128,
        }
        .popped(128),
    )?;
    cursor(
        rt,
        b"popped, none held",
        Cursor { start: 3, count: 0 }.popped(128),
    )?;
    cursor(
        rt,
        b"pushed if",
        Cursor {
            start: 5,
            count: 127,
        }
        .pushed_if(true),
    )?;
    cursor(
        rt,
        b"not pushed",
        Cursor {
            start: 5,
            count: 127,
        }
        .pushed_if(false),
    )?;
    cursor(
        rt,
        b"popped if",
        Cursor {
            start: 128,
            count: 129,
        }
        .popped_if(129, true),
    )?;
    cursor(
        rt,
        b"not popped",
        Cursor {
            start: 128,
            count: 129,
        }
        .popped_if(129, false),
    )?;
    cursor(
        rt,
        b"cut to one",
        Cursor {
            start: 7,
            count: 129,
        }
        .cut_to_one(),
    )?;
    cursor(
        rt,
        b"cut, none held",
        Cursor { start: 7, count: 0 }.cut_to_one(),
    )
}

// Five bytes in eight slots, over the end of the slots, and copied out to the front of a buffer.
pub(crate) fn copies(rt: &HostRuntime) -> io::Result<()> {
    let mut slots = [b'-'; 8];
    let held = Cursor { start: 6, count: 1 };
    let longer = queue::copy::append(held, 8, &mut slots, b"abcd");
    let mut out = [b'.'; 12];
    let n = queue::copy::copy_out(Cursor { start: 6, count: 5 }, 8, &slots, &mut out);
    cursor(rt, b"appended", longer)?;
    show::text(rt, b"slots = ")?;
    show::text(rt, &slots)?;
    show::text(rt, b"\ncopied out =")?;
    show::number(rt, n as u64)?;
    show::text(rt, b" ")?;
    show::text(rt, &out)?;
    show::text(rt, b"\n")
}
