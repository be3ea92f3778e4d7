// Standard input, line by line, in constant memory.
ghost use Rattle.std.specs.Prelude.{◌≡◌, ◌+◌, ◌≤◌, length};
ghost use Rattle.blanking.specs.LineLaws.{longest};
ghost use Rattle.blank.specs.Turns.{full, started, Turn};

use crate::output::tell_left_out;
use blanking::line;
use blanking::line::{Trace, blank_line};
use streams::input::read_more;
use streams::output::{Output, flush, keep_up};
use text::input::{Input, begin, has_line, next_line};
use text::parts::within;

// The output is written once it is filled so far; the text of a line then fits behind it.
const FULL: usize = 65408;

// The trace so far, and what is put out of it.
#[derive(Clone, Copy)]
pub struct Session {
    pub trace: Trace,
    pub output: Output,
}

fn start() -> Session
    ensures { result ≡ started }
{
    Session {
        trace: line::begin(),
        output: Output {
            at: 0,
            failed: false,
        },
    }
}

// One turn: puts out the line that stands there, blanked; where none does, what was put out is written before the next read.
fn blank_next(
    rt: &HostRuntime,
    session: Session,
    input: Input,
    buffer: &[u8],
    out: &mut [u8],
) -> Session
    requires { full + longest ≤ length out.old }
    ensures { Turn session input buffer.now out.old out.new result }
{
    let trace = session.trace;
    let has = has_line(input);
    let kept = keep_up(
        rt,
        session.output,
        has,
        FULL,
        out,
        b"blank: standard output",
    );
    if has {
        if kept.failed {
            return Session {
                trace,
                output: kept,
            };
        }
        let n = within(input.len, buffer);
        let next = blank_line(trace, input.long, &buffer[..n], out, kept.at);
        let after = next.trace;
        return Session {
            trace: after,
            output: Output {
                at: next.at,
                failed: false,
            },
        };
    }
    Session {
        trace,
        output: kept,
    }
}

// The same with the buffers whole, whose sizes are known.
fn turn(
    rt: &HostRuntime,
    session: Session,
    input: Input,
    buffer: &[u8; 65536],
    out: &mut [u8; 131072],
) -> Session
    ensures { Turn session input buffer.now out.old out.new result }
{
    blank_next(rt, session, input, buffer, out)
}

// Writes what is left, and tells of lines that were left out.
fn finish(rt: &HostRuntime, session: Session, out: &[u8; 131072]) {
    flush(rt, session.output, out, b"blank: standard output");
    tell_left_out(rt, session.trace.left_out);
}

// A proved loop has to end, so it counts its turns down from a number that no run uses up.
pub(crate) fn run(rt: &HostRuntime) {
    let mut chunk = [0u8; 65536];
    let mut buffer = [0u8; 65536];
    let mut out = [0u8; 131072];
    let mut input = begin();
    let mut session = start();
    let mut turns = u64::MAX;
    while turns > 0 && input.more {
        input = read_more(
            rt,
            input,
            session.output.failed,
            &mut chunk,
            b"blank: standard input",
        );
        input = next_line(input, &chunk, &mut buffer);
        session = turn(rt, session, input, &buffer, &mut out);
        turns -= 1;
    }
    finish(rt, session, &out);
}
