// Answers the calls of the replay format (docs/REPLAY.md) on standard input, a line for each, on standard output. It reads and
// writes; what is answered is the crate `session`'s to say.
#![tactic(auto)]

mod input;
mod usage;

fn main(rt: HostRuntime) {
    if crate::usage::has_argument(&rt, 1) {
        crate::usage::show(
            &rt,
            b"usage: replay < TRACE > ANSWERS
Answers each call of a trace (docs/REPLAY.md) in a line of its own, in order.
All whole lines of a read are answered and written before the next read.
",
        );
    } else {
        crate::input::run(&rt);
    }
}
