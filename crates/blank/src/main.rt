// Takes a client's bytes out of a trace of the replay format (docs/REPLAY.md): the same calls, with every host byte, every byte of a
// row, every word written to FIFO or to a place that takes none, and every reset word that is not used replaced. It only reads and
// writes: what is put out for a line stands in the crate blanking.
#![tactic(auto)]

mod input;
mod output;
mod usage;

fn main(rt: HostRuntime) {
    if crate::usage::has_argument(&rt, 1) {
        crate::usage::show(
            &rt,
            b"usage: blank < TRACE > BLANKED
Puts out the calls of a trace (docs/REPLAY.md), each in one form, with every host byte,
every byte of a row, every word written to FIFO or to no writable register, and every
reset word that is not used replaced by 0. A line that is no call is left out.
",
        );
    } else {
        crate::input::run(&rt);
    }
}
