// Runs the leaves on document 01's figures and on the edges: 0, 1, the limit, one past it, all ones. A line for each.
#![tactic(auto)]

mod bits;
mod clocks;
mod queues;
mod show;
mod times;
mod words;

use std::io;

fn main(rt: HostRuntime) -> io::Result<()> {
    crate::times::marked(&rt)?;
    crate::times::edges(&rt)?;
    crate::bits::all_ones(&rt)?;
    crate::bits::single_bits(&rt)?;
    crate::clocks::periods(&rt)?;
    crate::clocks::deadlines(&rt)?;
    crate::words::places(&rt)?;
    crate::queues::cursors(&rt)?;
    crate::queues::copies(&rt)
}
